//! Puts, as operations: fragments at the primaries or handoffs of a place, and then commits.
#![tactic(auto)]

mod end;
mod errand;
mod laws;
mod operation;
mod planning;
mod put;
mod subject;

pub use crate::end::PutEnd;
pub use crate::laws::{end_law, machine_law};
pub use crate::put::PutOp;

#[cfg(test)]
mod tests;
