//! Scripts over a world.
#![tactic(auto)]

mod laws;
mod playing;

pub use crate::laws::text_law;
pub use crate::playing::{GREATEST_SCRIPT, PlayEnd, play};
