//! What one observer of a cluster knows: what happened at each device, in a history of its own, and the puts and deletes that drew a stamp.
#![tactic(auto)]

mod event;

pub use crate::event::Event;
