//! Where disks come from and where they go back.
#![tactic(auto)]

mod fault;
mod shelf;

pub use crate::fault::ShelfFault;
pub use crate::shelf::Shelf;
