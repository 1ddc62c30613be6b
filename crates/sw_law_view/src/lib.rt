//! What a sound view says of the devices of a cluster, and how a view stays sound.
#![tactic(auto)]

mod laws;

pub use crate::laws::view_law;
