//! Where fragments are at home, and what a get that hears all but a few devices is shown of them.
#![tactic(auto)]

mod laws;

pub use crate::laws::{hearing_law, homes_law};
