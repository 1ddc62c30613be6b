//! The text of what a script's lines tell.
#![tactic(auto)]

mod devices;
mod end;
mod lines;
mod numbers;
mod sent;
mod show;
mod told;

pub use crate::told::print_told;

#[cfg(test)]
mod tests;
