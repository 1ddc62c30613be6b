//! A workload that runs in a world.
#![tactic(auto)]

mod laws;
mod running;

pub use crate::laws::summary_law;
pub use crate::running::load;

#[cfg(test)]
mod tests;
