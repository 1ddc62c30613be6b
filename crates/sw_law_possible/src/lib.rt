//! That what may happen to a device can happen: each message has an answer, each folder a normal form, and each crash leaves something.
#![tactic(auto)]

mod laws;

pub use crate::laws::possible_law;
