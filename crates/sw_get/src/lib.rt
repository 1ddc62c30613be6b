//! Gets, as operations: rounds of asking every device of a place, and of fetching archives of the newest stamp.
#![tactic(auto)]

mod deciding;
mod end;
mod errand;
mod get;
mod hearing;
mod laws;
mod operation;
mod reading;
mod round;
mod round_end;
mod stepping;

pub use crate::end::GetEnd;
pub use crate::get::GetOp;
pub use crate::laws::{end_law, found_law, machine_law, turns_law};
pub use crate::round_end::{Going, KeptEvent, RoundEnd};

#[cfg(test)]
mod tests;
