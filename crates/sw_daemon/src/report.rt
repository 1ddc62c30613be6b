//! What a pass reports.

/// What a pass did. A count stands still at its type's last value.
#[derive(Clone, Copy, Debug, PartialEq, Eq)]
pub struct PassReport {
    /// How many syncs were done.
    pub synced: u64,
    /// How many archives they rebuilt and made durable.
    pub rebuilt: u64,
    /// How many entries were removed by reverts that were done.
    pub removed: u64,
    /// How many these kept.
    pub kept: u64,
    /// How many of the pass's own messages missed, and how many jobs ended otherwise.
    pub missed: u64,
}
