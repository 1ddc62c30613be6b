//! What replies claim of their devices' folders, and that folders bear it.
#![tactic(auto)]

mod laws;

pub use crate::laws::claim_law;
