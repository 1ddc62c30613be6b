//! Object servers: a node handles messages over the disk of its device, exactly by the table of a node's steps.
#![tactic(auto)]

mod changing;
mod committing;
mod deleting;
mod fault;
mod floor_change;
mod handling;
mod looking;
mod mounting;
mod node;
mod reading;
mod removing;
mod storing;
mod surveying;

pub use crate::fault::MountFault;
pub use crate::node::Node;
