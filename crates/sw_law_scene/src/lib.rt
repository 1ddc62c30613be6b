//! The scene of a world: the folders of its devices, what is in their files, the messages that were made, and what happens to all these.
#![tactic(auto)]

mod laws;

pub use crate::laws::filed_law;
