//! What operations share that ask devices and gather archives: what was handed out and is to be read, where archives may be fetched
//! from, and those that were brought.
#![tactic(auto)]

mod choices;
mod gathered;
mod mailbox;

pub use crate::choices::{candidates, firsts, has_index, has_target};
pub use crate::gathered::Gathered;
pub use crate::mailbox::Mailbox;
