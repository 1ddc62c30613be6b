//! Replies of nodes.

use crate::spoil::Spoil;
use sw_archive::ArchiveBytes;
use sw_hashdir::{Floor, Listing};
use sw_hashpath::Place;
use sw_types::Items;

/// What a node answers.
#[derive(Debug, Drop)]
pub enum Reply {
    /// The archive is stored.
    Synced,
    /// It is durable.
    Committed,
    /// The tombstone is written. The folder's floor was durable, or not.
    Deleted { existed: bool },
    /// The folder's floor forbids it.
    Superseded(Floor),
    /// The archive is not there.
    Missing,
    /// What the folder has.
    Held(Listing),
    /// The archive's bytes.
    Fragment(ArchiveBytes),
    /// The archive is not there; what the folder has.
    Gone(Listing),
    /// The bytes are not the archive's.
    Spoiled(Spoil),
    /// The archive stays: the device is a primary of the place.
    Kept,
    /// The archive is removed.
    Removed,
    /// Partitions, ascending.
    PartList(Items<u32>),
    /// Suffixes, 0 to 4095 and ascending, with their hashes.
    SuffixList(Items<(u16, [u8; 16])>),
    /// Places of a partition, ascending by hash.
    PlaceList(Items<Place>),
    /// The disk failed.
    DiskFault,
    /// So many bytes were wanted on the disk, and fewer were free.
    NoSpace { need: u64, free: u64 },
    NoMemory,
}
