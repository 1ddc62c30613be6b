//! The nodes of a cluster behind locks, as the link of a thread.
#![tactic(auto)]

mod link;

pub use crate::link::LocalLink;
