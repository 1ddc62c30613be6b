//! What is told of an event.

use sw_hashdir::Entry;
use sw_sim_exchange::{EndLine, SentLine};
use sw_types::{Bytes, Items, Stamp};

/// What was sent, the operations that ended, and what devices keep, each in order.
#[derive(Debug, Drop)]
pub struct Told {
    pub sent: Items<SentLine>,
    pub ends: Items<EndLine>,
    pub shown: Items<ShowLine>,
}

/// One thing that a device keeps in the folder of a name, or that it keeps nothing there.
#[derive(Debug, Drop)]
pub enum ShowLine {
    /// An archive, with its payload: its fragments of all segments, joined.
    Stored {
        device: u16,
        entry: Entry,
        payload: Bytes,
    },
    /// A tombstone.
    Buried {
        device: u16,
        stamp: Stamp,
    },
    Empty {
        device: u16,
    },
}
