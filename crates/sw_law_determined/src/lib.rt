//! What is determined: the cluster that a ring says, and, where disks are sure, what a basic event leads to.
#![tactic(auto)]

mod laws;

pub use crate::laws::{cluster_law, event_law};
