//! How a connection ends.

/// How serving a connection ended.
#[derive(Clone, Copy, Debug, PartialEq, Eq)]
pub enum ConnEnd {
    /// The peer sent no more behind its last request, or the answer to it said that the connection is closed.
    Closed,
    /// The peer sent no more within a request. Nothing was written for it but 100 Continue, where that was due.
    Cut,
    /// Reading failed, and the connection's count of faults rose.
    ReadFault,
    /// Writing failed, and the connection's count of faults rose.
    WriteFault,
    /// Memory was wanted. An answer that says so may have been written; where writing it failed, the count of faults rose.
    NoMemory,
}
