//! That each world of a run goes on: what may happen leads to some world.
#![tactic(auto)]

mod laws;

pub use crate::laws::going_law;
