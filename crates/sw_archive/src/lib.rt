//! Archives: what a device keeps of an object. An archive has one fragment of each of the object's segments, behind a header
//! that tells which, and ends with an MD5 of itself.
#![tactic(auto)]

mod archive;
mod archive_bytes;
mod assemble;
mod decoding;
mod fault;
mod head_text;
mod header;
mod label;
mod laws;
mod making;
mod parts;
mod path_text;
mod payload;
mod reading;
mod sealing;
mod spelled;

pub use crate::archive::Archive;
pub use crate::archive_bytes::ArchiveBytes;
pub use crate::assemble::{Assemble, AssembleFault};
pub use crate::fault::{ArchiveFault, ArchiveField};
pub use crate::laws::{archive_law, assemble_law, fault_law, pieces_law, put_law};
pub use crate::making::{make_archive, make_sealed_archive};
pub use crate::reading::{check_archive, read_archive};
pub use crate::sealing::seals;
pub use crate::spelled::Spelled;

#[cfg(test)]
mod tests;
