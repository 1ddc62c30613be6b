//! What devices said of their folders, and that it is kept whatever happens.
#![tactic(auto)]

mod laws;

pub use crate::laws::promise_law;
