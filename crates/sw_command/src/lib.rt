//! The command that the words of a command line ask for.
#![tactic(auto)]

mod command;
mod reading;

pub use crate::command::Command;
pub use crate::reading::read_command;

#[cfg(test)]
mod tests;
