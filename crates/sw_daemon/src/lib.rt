//! Passes of a device's reconstructor over all that the device has.
#![tactic(auto)]

mod comparing;
mod course;
mod differing;
mod laws;
mod listed;
mod pass_op;
mod passing;
mod progress;
mod question;
mod report;
mod stage;
mod staging;
mod survey;
mod task;

pub use crate::laws::{machine_law, pass_law};
pub use crate::pass_op::PassOp;
pub use crate::passing::pass;
pub use crate::report::PassReport;
pub use crate::survey::Survey;

#[cfg(test)]
mod tests;
