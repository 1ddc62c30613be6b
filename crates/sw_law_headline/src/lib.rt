//! What an operator is promised, whatever happens.
#![tactic(auto)]

mod laws;

pub use crate::laws::{headline_law, times_law};
