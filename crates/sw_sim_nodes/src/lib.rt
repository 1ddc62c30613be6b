//! The nodes of a cluster in one process, on disks in memory, as a link that loses what goes to devices that are down.
#![tactic(auto)]

mod crashing;
mod nodes;
mod running;

pub use crate::nodes::Nodes;
pub use crate::running::run_alone;
