//! Jobs of the reconstructor, as operations: a revert brings what a handoff keeps to the primaries.
#![tactic(auto)]

mod answers;
mod course;
mod kept;
mod laws;
mod operation;
mod revert;
mod revert_end;
mod status;
mod treatment;

pub use crate::kept::{KeptCause, KeptEntry};
pub use crate::laws::{machine_law, revert_law};
pub use crate::revert::RevertJob;
pub use crate::revert_end::RevertEnd;
pub use crate::treatment::Treatment;

#[cfg(test)]
mod tests;
