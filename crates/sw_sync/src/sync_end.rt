//! How a sync ends.

use sw_hashdir::Floor;
use sw_message::Miss;
use sw_types::{Items, Stamp};

/// What a primary did not do.
#[derive(Clone, Copy, Debug, PartialEq, Eq)]
pub enum Failure {
    /// It missed as it was asked, or did not do what it was told.
    Missed { device: u16, miss: Miss },
    /// Its floor forbids what it was told.
    Superseded { device: u16, floor: Floor },
}

/// How a sync ended.
#[derive(Debug, Drop)]
pub enum SyncEnd {
    /// So many entries were made durable that primaries listed, so many that were rebuilt, and so many tombstones were marked.
    /// `failed` has the primaries that missed as they were asked, and then those that did not do what they were told, in the order of
    /// their answers. A count stands still at its type's last value.
    Done {
        commits: u32,
        rebuilt: u32,
        tombstones: u32,
        failed: Items<Failure>,
    },
    /// The job's own device missed as it was asked.
    Unanswered {
        device: u16,
    },
    /// The greatest floor that a device listed as it was asked is above that of the job's own device.
    Newer {
        floor: Floor,
    },
    /// A primary lacks its archive, and archives of fewer than k indices were to be had. `have` is the number of indices that are
    /// listed where these are fewer than k, and else that of the archives that were brought. The misses are those of the devices that
    /// were asked, and then those of the sources that archives were fetched from.
    TooFew {
        stamp: Stamp,
        have: u32,
        misses: Items<(u16, Miss)>,
    },
}
