//! What programs that measure share: their commands, bytes of a fixed pattern, gathered fragments, times and rates.
#![tactic(auto)]

mod command;
mod gathering;
mod patterns;
mod rate;
mod timing;

pub use crate::command::{Command, command_of, read_command, read_words};
pub use crate::gathering::gather_from;
pub use crate::patterns::pattern;
pub use crate::rate::Rate;
pub use crate::timing::mean_time;
