//! The devices of a partition, and how many indices there are.

ghost use Rattle.std.specs.Prelude.{◌≡◌, ◌+◌, ◌<◌, ◌^◌, IfOk};
ghost use Rattle.sw_hashpath.specs.Place.{IsPlace};
ghost use Rattle.sw_ring.specs.Cluster.{column_of};
ghost use Rattle.sw_message.specs.Message.{is_primary};

use std::alloc::Global;
use sw_hashpath::Place;
use sw_ring::Cluster;
use sw_types::{NoMemory, Policy};

/// The primaries of a partition, in the order of their indices.
pub fn primaries(alloc: Global, cluster: &Cluster, part: u32) -> Result<Vec<u16>, NoMemory>
    requires { part < 2 ^ cluster.now.part_power }
    ensures { IfOk result (λ devices. devices.items ≡ column_of cluster.now part) }
{
    prove!(part < 1 << cluster.part_power());
    let policy = cluster.policy();
    let mut devices = Vec::new(alloc);
    for index in 0..policy.k() + policy.m() {
        devices.push(cluster.primary(part, index))?;
    }
    Ok(devices)
}

/// Whether the device is a primary of the place; else it is a handoff.
pub fn is_primary(cluster: &Cluster, device: u16, place: &Place) -> bool
    requires { IsPlace cluster.now.part_power place.now }
    ensures { result ≡ is_primary cluster.now device place.now }
{
    cluster.is_primary(place.part(), device)
}

/// How many indices there are.
pub fn total_of(policy: &Policy) -> u32
    ensures { result ≡ policy.now.k + policy.now.m }
{
    prove!(policy.segment() <= Policy::GREATEST_SEGMENT);
    policy.k() + policy.m()
}
