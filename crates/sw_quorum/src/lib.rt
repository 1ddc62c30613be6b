//! Writes that go to several devices: what the answers mean, and how many of them did what was asked.
#![tactic(auto)]

mod tally;
mod verdict;
mod verdicts;

pub use crate::tally::Tally;
pub use crate::verdict::Verdict;
pub use crate::verdicts::{commit_verdict, delete_verdict, store_verdict};
