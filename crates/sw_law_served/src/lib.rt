//! What answers over nodes behind locks show.
#![tactic(auto)]

mod laws;

pub use crate::laws::served_law;
