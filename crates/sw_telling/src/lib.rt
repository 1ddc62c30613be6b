//! A link that tells what it has learnt, over the nodes of a cluster on disks in memory, and a put and a get over it.
#![tactic(auto)]

mod copying;
mod known;
mod showing;
mod telling;

pub use crate::showing::put_and_get;
pub use crate::telling::Telling;

#[cfg(test)]
mod tests;
