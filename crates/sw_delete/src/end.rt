//! How a delete ends.

use sw_hashdir::Floor;
use sw_message::Miss;
use sw_types::{Items, Stamp};

/// How a delete ended. Misses are told with the devices that missed, in the order of their answers.
#[derive(Debug, Drop)]
pub enum DeleteEnd {
    /// So many devices have its tombstone; some device had the object, durable, or none had.
    Deleted {
        stamp: Stamp,
        marks: u32,
        existed: bool,
    },
    /// A floor forbids it: the greatest that was told.
    Superseded {
        floor: Floor,
    },
    /// Fewer than c devices have its tombstone.
    TooFewMarks {
        have: u32,
        misses: Items<(u16, Miss)>,
    },
}
