//! The server over traits of the outside: disks are mounted, connections are served over their nodes by workers side by side, and the disks go back.
//!
//! [`serve`] is the whole of it. `src/acceptor.rt` stands behind the lock of the doors, `src/working.rt` has the workers, `src/repairing.rt` the
//! one that runs passes of the reconstructors behind ends of connections, which `src/signal.rt` tells of.
#![tactic(auto)]

mod acceptor;
mod end;
mod opening;
mod passing;
mod repairing;
mod serving;
mod shelving;
mod signal;
mod working;

pub use crate::end::ServeEnd;
pub use crate::serving::serve;

#[cfg(test)]
mod gates;
#[cfg(test)]
mod held_doors;
#[cfg(test)]
mod tests;
