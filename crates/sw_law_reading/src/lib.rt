//! What gets and puts show over a link whose calls let a view grow.
#![tactic(auto)]

mod laws;

pub use crate::laws::reading_law;
