//! Connections are served: requests are read one after the other, each is answered over a link, and what ends a connection is told.
//!
//! [`serve_over`] serves one over any link, [`serve_connection`] over nodes behind locks, which other threads may call meanwhile. `src/turn.rt`
//! serves what comes next, `src/sending.rt` writes answers.
#![tactic(auto)]

mod connection;
mod end;
mod laws;
mod sending;
mod serving;
mod turn;

pub use crate::connection::serve_connection;
pub use crate::end::ConnEnd;
pub use crate::laws::asked_law;
pub use crate::serving::serve_over;
pub use sw_local::LocalLink;

#[cfg(test)]
mod over_cells;
#[cfg(test)]
mod tests;
