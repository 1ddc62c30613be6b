//! What the transcript of a get tells of its rounds and of its end, and when its steps were made.
#![tactic(auto)]

mod laws;

pub use crate::laws::{asked_law, rounds_law};
