//! What may happen to the scene of a world, whoever does it, and that all that devices owe is kept.
#![tactic(auto)]

mod laws;

pub use crate::laws::step_law;
