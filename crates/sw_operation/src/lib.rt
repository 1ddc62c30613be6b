//! Operations of any kind as one: puts, gets, heads, deletes, and the jobs of a device's reconstructor.
#![tactic(auto)]

mod any_op;
mod beginning;
mod end;
mod ending;

pub use crate::any_op::AnyOp;
pub use crate::end::OpEnd;

#[cfg(test)]
mod tests;
