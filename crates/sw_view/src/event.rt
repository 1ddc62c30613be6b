//! What happens at a device.

use sw_message::{Msg, Reply};

/// What happened at a device.
#[derive(Debug, Drop)]
pub enum Event {
    /// A message was handled, with this reply.
    Handled { msg: Msg, reply: Reply },
    /// The disk failed within the handling of a message.
    Faulted { msg: Msg },
    /// The disk was mounted: where it was undecided, one of its two sides was found.
    Mounted,
    /// An empty disk came in its place, as the loss of this number.
    Replaced { loss: u64 },
}
