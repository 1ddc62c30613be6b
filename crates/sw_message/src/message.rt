//! Messages to nodes.

ghost use Rattle.std.specs.Prelude.{◌≡◌};
ghost use Rattle.sw_message.specs.Message.{place_in};

use sw_archive::ArchiveBytes;
use sw_hashpath::Place;
use sw_types::Stamp;

/// What a node is asked to do, in the folder of a place or with its device.
#[derive(Debug, Drop)]
pub enum Msg {
    /// To store the archive of an index at a stamp, not durable.
    PutFrag {
        place: Place,
        stamp: Stamp,
        index: u32,
        bytes: ArchiveBytes,
    },
    /// To make an archive durable.
    Commit {
        place: Place,
        stamp: Stamp,
        index: u32,
    },
    /// To write a tombstone.
    Delete {
        place: Place,
        stamp: Stamp,
    },
    /// To tell what the folder has.
    Ask {
        place: Place,
    },
    /// To give an archive's bytes.
    Fetch {
        place: Place,
        stamp: Stamp,
        index: u32,
    },
    /// To remove an archive, where the device is a handoff.
    Remove {
        place: Place,
        stamp: Stamp,
        index: u32,
    },
    /// To tell the partitions that have a file.
    Parts,
    /// To tell the suffixes of a partition that have a floor, with their hashes.
    Suffixes {
        part: u32,
    },
    /// To tell the places of a partition that have a file.
    Places {
        part: u32,
    },
}

impl Msg {
    /// The place that it is about, if it is about one.
    pub fn place(&self) -> Option<Place>
        ensures { result ≡ place_in self.now }
    {
        match self {
            Msg::PutFrag { place, .. }
            | Msg::Commit { place, .. }
            | Msg::Delete { place, .. }
            | Msg::Ask { place }
            | Msg::Fetch { place, .. }
            | Msg::Remove { place, .. } => Some(*place),
            Msg::Parts | Msg::Suffixes { .. } | Msg::Places { .. } => None,
        }
    }
}
