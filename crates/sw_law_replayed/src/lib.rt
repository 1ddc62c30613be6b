//! What a node's disk holds is what the history of its device replays to.
#![tactic(auto)]

mod laws;

pub use crate::laws::replayed_law;
