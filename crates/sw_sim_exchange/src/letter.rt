//! A message that was made, as a world keeps it.

ghost use Rattle.std.specs.Prelude.{◌≡◌};
ghost use Rattle.sw_sim_exchange.specs.Letters.{letter_of};

use sw_message::{Msg, Reply, Sent};

/// A message that was made: a request of an operation, or the reply to one.
#[derive(Debug, Drop)]
pub struct Letter {
    /// The number of the operation.
    pub operation: u64,
    /// The request's ticket.
    pub ticket: u64,
    /// The device that the request goes to.
    pub device: u16,
    pub is_delivered: bool,
    pub content: Content,
}

/// What it says. A reply is taken out as it is delivered; delivered again it changes nothing.
#[derive(Debug, Drop)]
pub enum Content {
    Request(Msg),
    Answer(Option<Reply>),
}

impl Letter {
    /// A request of the operation of this number.
    pub(crate) fn request(operation: u64, sent: Sent) -> Letter
        ensures { result ≡ letter_of operation sent }
    {
        Letter {
            operation,
            ticket: sent.ticket,
            device: sent.device,
            is_delivered: false,
            content: Content::Request(sent.msg),
        }
    }
}
