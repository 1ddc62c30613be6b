//! Puts, gets and deletes over any link: a stamp is drawn where one is needed, and the operation runs to its end.
#![tactic(auto)]

mod answering;
mod deleting;
mod fault;
mod getting;
mod putting;

pub use crate::answering::answer;
pub use crate::deleting::delete;
pub use crate::fault::FrontFault;
pub use crate::getting::get;
pub use crate::putting::put;

#[cfg(test)]
mod tests;
