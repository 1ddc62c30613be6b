//! What a sync hands out.

use sw_message::Target;

/// What a sync hands out.
#[derive(Clone, Copy, Debug, PartialEq, Eq)]
pub enum Errand {
    /// A device is asked what it has.
    Ask(u16),
    /// The tombstone goes to a primary.
    Delete(u16),
    /// An archive is fetched from a source.
    Fetch(Target),
    /// The archive of an index, rebuilt, goes to its primary.
    Store(Target),
    /// The primary of an index makes its entry durable.
    Commit(Target),
}
