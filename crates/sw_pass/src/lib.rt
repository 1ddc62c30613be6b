//! The stamp table of a cluster: stamps, what happened at each device, and losses, counted in one table that any number of threads step on.
#![tactic(auto)]

mod happening;
mod known;
mod laws;
mod node_seat;
mod note;
mod pass;
mod rule;
mod table;

pub use crate::happening::{Cause, Happening, Share};
pub use crate::known::{Drawn, Kind, Known, Old};
pub use crate::laws::pairs_law;
pub use crate::node_seat::NodeSeat;
pub use crate::note::Note;
pub use crate::pass::Pass;
pub use crate::rule::{OfCluster, StampRule};
pub use crate::table::StampTable;

#[cfg(test)]
mod tests;
