//! The hashes of suffix folders, and a table that keeps them.
#![tactic(auto)]

mod compare;
mod floors;
mod hashes;
mod key;
mod table;
mod text;

pub use crate::compare::differing;
pub use crate::table::SuffixTable;
pub use crate::text::suffix_hash;

#[cfg(test)]
mod tests;
