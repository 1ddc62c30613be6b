//! Changes of names.

use crate::held::MemContent;

/// A change of names in a folder.
#[derive(Drop)]
pub(crate) enum NameChange<'a> {
    /// A content gets a name.
    Publish(&'a str, MemContent),
    /// The files of the one name get the other.
    Rename(&'a str, &'a str),
    /// The files of a name go.
    Remove(&'a str),
}
