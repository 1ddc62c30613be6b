//! Entries of a folder.

use sw_types::Stamp;

/// The archive of an index at a stamp, durable or not.
#[derive(Clone, Copy, Debug, PartialEq, Eq)]
pub struct Entry {
    pub stamp: Stamp,
    pub index: u32,
    pub durable: bool,
}
