//! How a put ends.

use sw_hashdir::Floor;
use sw_message::Miss;
use sw_types::{Items, Stamp};

/// How a put ended. Misses are told with the devices that missed, in the order of their answers.
#[derive(Debug, Drop)]
pub enum PutEnd {
    /// So many devices have made its archives durable.
    Created {
        stamp: Stamp,
        commits: u32,
    },
    /// A floor forbids it: the greatest that was told.
    Superseded {
        floor: Floor,
    },
    /// Fewer than q of its archives were stored.
    TooFewSynced {
        have: u32,
        misses: Items<(u16, Miss)>,
    },
    /// Fewer than c of those that were stored were made durable.
    TooFewCommits {
        have: u32,
        misses: Items<(u16, Miss)>,
    },
}
