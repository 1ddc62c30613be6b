//! Gets to which devices show no change.
#![tactic(auto)]

mod laws;

pub use crate::laws::steady_law;
