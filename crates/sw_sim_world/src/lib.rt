//! A world: a cluster whose nodes stand in one process, on disks in memory, every message that was made and every operation that was
//! started, led on by the events of a script's lines.
#![tactic(auto)]

mod delivering;
mod devices;
mod fault;
mod inner;
mod show;
mod starting;
mod told;
mod world;

pub use crate::fault::StepFault;
pub use crate::told::{ShowLine, Told};
pub use crate::world::World;
