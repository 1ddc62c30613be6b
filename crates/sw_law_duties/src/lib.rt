//! The duties of devices, and that they are kept whatever happens.
#![tactic(auto)]

mod laws;

pub use crate::laws::duties_law;
