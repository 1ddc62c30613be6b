//! Where objects are kept: the place of a name, the folder of a place, and the names of its files, as in Swift.
#![tactic(auto)]

mod file_name;
mod place;

pub use crate::file_name::FileName;
pub use crate::place::{Place, place_name, place_of, place_path, read_folder};

#[cfg(test)]
mod tests;
