//! How operations end beside which nothing steps, on devices that are all up.
#![tactic(auto)]

mod laws;

pub use crate::laws::{complete_gets_law, complete_writes_law};
