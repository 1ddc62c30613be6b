//! Gets beside which nothing else steps.
#![tactic(auto)]

mod laws;

pub use crate::laws::alone_law;
