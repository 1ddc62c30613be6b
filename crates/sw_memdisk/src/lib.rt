//! A disk in memory, which can fail and crash.
#![tactic(auto)]

mod change;
mod device;
mod disk;
mod folder;
mod folders;
mod held;

pub use crate::disk::MemDisk;

#[cfg(test)]
mod tests;
