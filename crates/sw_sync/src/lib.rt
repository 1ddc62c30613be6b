//! Jobs of primaries, as operations: a sync brings what its device keeps of a place to the other primaries.
#![tactic(auto)]

mod burial;
mod counts;
mod errand;
mod heard;
mod laws;
mod operation;
mod planning;
mod reading;
mod rebuilding;
mod repair;
mod showing;
mod stage;
mod state;
mod stepping;
mod sync;
mod sync_end;

pub use crate::laws::{machine_law, sync_law};
pub use crate::sync::SyncJob;
pub use crate::sync_end::{Failure, SyncEnd};

#[cfg(test)]
mod tests;
