//! Nodes behind locks: what stands behind the lock of a device is its node, and the seat of the stamp table that adds to its history.
#![tactic(auto)]

mod cells;
mod locked;
mod mounting;
mod site;

pub use crate::cells::Cells;
pub use crate::locked::Locked;
pub use crate::mounting::CellsFault;
pub use crate::site::Site;
