//! Directories of folders: entries, tombstones, floors, and names that are obsolete.
#![tactic(auto)]

mod directory;
mod entry;
mod floor;
mod listing;
mod obsolete;
mod order;

pub use crate::directory::HashDir;
pub use crate::entry::Entry;
pub use crate::floor::{Floor, FloorKind};
pub use crate::listing::Listing;

#[cfg(test)]
mod tests;
