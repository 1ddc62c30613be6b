//! The lines of a script: which event each tells, or its first fault.
#![tactic(auto)]

mod cut;
mod event;
mod fault;
mod laws;
mod line;
mod name;
mod word;
mod words;

pub use crate::cut::cut_at;
pub use crate::event::{Event, Job};
pub use crate::fault::LineFault;
pub use crate::laws::limits_law;
pub use crate::line::GREATEST_LINE;
pub use crate::word::script_head;

#[cfg(test)]
mod tests;
