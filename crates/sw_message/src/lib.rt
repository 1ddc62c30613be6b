//! Messages to nodes and their replies, the step of a node as a definition, and operations: what hands out messages, over
//! which links they go, and which of them are warranted.
#![tactic(auto)]

mod checking;
mod devices;
mod draw;
mod floors;
mod laws;
mod link;
mod message;
mod miss;
mod operation;
mod reply;
mod running;
mod sent;
mod spoil;
mod target;
mod tickets;

pub use crate::checking::{check_asked, check_named};
pub use crate::devices::{is_primary, primaries, total_of};
pub use crate::draw::{Draw, DrawFault};
pub use crate::floors::{higher, highest_with, is_above, refuses, stands_above};
pub use crate::laws::{highest_law, sound_law, step_law};
pub use crate::link::Link;
pub use crate::message::Msg;
pub use crate::miss::Miss;
pub use crate::operation::Operation;
pub use crate::reply::Reply;
pub use crate::running::{run, run_whole};
pub use crate::sent::Sent;
pub use crate::spoil::{Foreign, Spoil};
pub use crate::target::{Target, sort_targets};
pub use crate::tickets::Tickets;

#[cfg(test)]
mod tests;
