//! What a get has handed out.

use sw_message::Target;
use sw_types::Stamp;

/// What a get has handed out to a device: a question, or the fetch of an archive at a stamp.
#[derive(Clone, Copy, Debug, PartialEq, Eq)]
pub(crate) enum Errand {
    Ask(u16),
    Fetch { stamp: Stamp, source: Target },
}
