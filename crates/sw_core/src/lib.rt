//! The world of a cluster: its scene and its operations, what may happen to it, and what holds whatever does.
#![tactic(auto)]

mod laws;

pub use crate::laws::{moves_law, run_law, tickets_law};
