//! How far a sync is.

use crate::burial::Burial;
use crate::heard::Heard;
use crate::repair::Repair;
use crate::sync_end::SyncEnd;

/// How far a sync is.
#[derive(Debug, Drop)]
pub enum Stage {
    /// The handoffs are asked.
    Handoffs(Heard),
    /// The primaries are asked.
    Primaries(Heard),
    /// A tombstone goes to primaries.
    Buries(Burial),
    /// Entries are made durable, and rebuilt.
    Repairs(Repair),
    /// It is over.
    Ends(SyncEnd),
}
