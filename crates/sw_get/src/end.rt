//! How a get ends.

use crate::round_end::KeptEvent;
use sw_message::{Miss, Target};
use sw_types::{Items, Object, Stamp};

/// How a get ended.
#[derive(Debug, Drop)]
pub enum GetEnd {
    /// The object, and where the archives came from, ascending by index.
    Found {
        stamp: Stamp,
        object: Object,
        sources: Items<Target>,
    },
    /// No device showed that there is or was one, and fewer than c devices missed.
    Absent,
    /// The newest that any device showed is a tombstone.
    Buried {
        stamp: Stamp,
    },
    /// The misses of the last round, with the devices, in the order of their answers.
    Unanswered {
        misses: Items<(u16, Miss)>,
    },
    /// Every device answered, and so many different indices are listed, fewer than k.
    TooFew {
        stamp: Stamp,
        have: u32,
    },
    /// Eight rounds went by: in each an archive that was listed was gone, or the newest stamp rose.
    Overtaken {
        events: Items<KeptEvent>,
    },
}
