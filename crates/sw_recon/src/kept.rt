//! Entries that a revert keeps.

use sw_message::Miss;
use sw_types::Stamp;

/// Why an entry is kept.
#[derive(Clone, Copy, Debug, PartialEq, Eq)]
pub enum KeptCause {
    /// It is not durable, and its primary shows nothing that covers it.
    NotDurable,
    /// Its primary had stored it, and answered that it was not there as it was to make it durable.
    NoMark,
    /// A message about it missed, or the policy has no such index.
    Missed(Miss),
}

/// An entry that is kept, by its stamp and index.
#[derive(Clone, Copy, Debug, PartialEq, Eq)]
pub struct KeptEntry {
    pub stamp: Stamp,
    pub index: u32,
    pub cause: KeptCause,
}
