//! What a world keeps of the messages that were made and of the operations that were started.
#![tactic(auto)]

mod exchange;
mod kinds;
mod letter;
mod lines;
mod operating;
mod sent;

pub use crate::exchange::Exchange;
pub use crate::kinds::{AnswerKind, RequestKind};
pub use crate::letter::{Content, Letter};
pub use crate::lines::{EndLine, SentLine};
pub use crate::sent::sent_since;
