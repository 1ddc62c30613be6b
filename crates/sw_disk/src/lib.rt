//! A disk of folders, and why it refuses a call.
#![tactic(auto)]

mod disk;
mod refusal;

pub use crate::disk::Disk;
pub use crate::refusal::DiskRefusal;
