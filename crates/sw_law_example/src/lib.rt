//! Runs that there are, so that what is said of every run says something.
#![tactic(auto)]

mod laws;

pub use crate::laws::example_law;
