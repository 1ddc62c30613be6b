//! How a server ends.

/// How a server ended.
#[derive(Clone, Copy, Debug, PartialEq, Eq)]
pub enum ServeEnd {
    /// So many connections came, and none comes any more.
    Closed { count: u64 },
    /// Memory was wanted: while the disks were mounted, in the last passes, for the last line, or 2^64 - 1 connections came, or fewer were back
    /// than came.
    NoMemory,
    /// The output failed, and its count of faults rose.
    WriteFault,
    /// The shelf failed before anything was written, and its count of faults rose.
    ShelfFault,
    /// The doors failed, and their count of faults rose.
    DoorFault,
}

/// Why no other connection is served.
#[derive(Clone, Copy, Debug, PartialEq, Eq)]
pub(crate) enum Stop {
    /// So many came and went, and none comes any more.
    Ended { count: u64 },
    /// The doors failed, and their count of faults rose.
    Failed,
    /// As many came or went as can be counted, or fewer were back than came.
    NoMemory,
}
