//! A workload that a number gives, and the summary of how its operations ended.
#![tactic(auto)]

mod draw;
mod job;
mod step;
mod summary;
mod workload;

pub use crate::summary::Summary;
pub use crate::workload::Workload;

#[cfg(test)]
mod tests;
