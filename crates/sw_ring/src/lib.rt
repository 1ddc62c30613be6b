//! The ring: which devices there are, and which of them keep the fragments of a partition, read from JSON.
#![tactic(auto)]

ghost use Rattle.std.specs.Prelude.{◌≡◌};
ghost use Rattle.sw_ring.specs.BuiltIn.{built_in};

mod cluster;
mod columns;
mod device;
mod fault;
mod laws;
mod lists;
mod members;
mod reading;
mod rules;
mod sorting;

pub use crate::cluster::Cluster;
pub use crate::device::Device;
pub use crate::fault::{Member, RingFault};
pub use crate::laws::{limits_law, rules_law};

/// The text of the built-in ring: four devices, of which three keep the fragments of the only partition, with k = 2, m = 1,
/// q = 3 and c = 2.
pub fn built_in() -> &'static [u8]
    ensures { result.now ≡ built_in }
{
    br#"{"part_power":0,"k":2,"m":1,"q":3,"c":2,"devices":[{"id":0},{"id":1},{"id":2},{"id":3}],"rows":[[0],[1],[2]]}"#
}

#[cfg(test)]
mod tests;
