//! Responses are written to a connection.
//!
//! An [`Answer`] is what a response says. [`write_response`] writes a response, and [`write_continue`] the interim one that
//! some clients wait for. [`field`] and [`number_field`] make the fields of an answer.
#![tactic(auto)]

mod answer;
mod fields;
mod head;
#[cfg(test)]
mod tests;
mod write;

pub use crate::answer::Answer;
pub use crate::fields::{field, number_field};
pub use crate::head::lines_law;
pub use crate::write::{WriteEnd, write_continue, write_response};
