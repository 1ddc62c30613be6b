//! A shelf of disks in memory, for tests: it tells which disks are back, and can be set to fail.
#![tactic(auto)]

mod shelf;

pub use crate::shelf::MemShelf;

#[cfg(test)]
mod tests;
