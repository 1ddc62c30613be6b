//! Deletes, as operations: tombstones at enough devices.
#![tactic(auto)]

mod delete;
mod end;
mod existed;
mod laws;
mod operation;

pub use crate::delete::DeleteOp;
pub use crate::end::DeleteEnd;
pub use crate::laws::{end_law, machine_law};

#[cfg(test)]
mod tests;
