//! What stamps say: of puts and deletes that were started, in their order, and decided where they are durable.
#![tactic(auto)]

mod laws;

pub use crate::laws::stamps_law;
