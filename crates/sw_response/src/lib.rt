//! The responses to the ends of puts, gets and deletes, as a proxy of an object store answers them.
//!
//! [`put_answer`], [`get_answer`] and [`delete_answer`] make the answer to how an operation ended. [`spent_answer`] is that where no
//! stamp was left for one, and [`wanting_answer`] that where memory was wanted.
#![tactic(auto)]

mod deleting;
mod fields;
mod getting;
mod putting;
mod words;

pub use crate::deleting::delete_answer;
pub use crate::getting::get_answer;
pub use crate::putting::put_answer;
pub use crate::words::{spent_answer, wanting_answer};

#[cfg(test)]
mod tests;
