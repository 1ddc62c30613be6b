//! How a revert ends.

use crate::kept::KeptEntry;
use sw_types::Items;

/// How a revert ended.
#[derive(Debug, Drop)]
pub enum RevertEnd {
    /// So many entries were removed, and these are kept, in their order.
    Done {
        removed: u32,
        kept: Items<KeptEntry>,
    },
    /// The job's own device missed as it was asked.
    Unanswered {
        device: u16,
    },
}
