//! What devices owe: what they said of their folders, of which puts and deletes that is, and their duties, for one disk and one step.
#![tactic(auto)]

mod laws;

pub use crate::laws::owed_law;
