//! What a pass treats of what devices list.

ghost use Rattle.std.specs.Prelude.{◌≡◌, ◌<◌, ◌≤◌, ◌^◌, IfOk, filter, take};
ghost use Rattle.std.specs.List.{All};
ghost use Rattle.sw_message.specs.Message.{IsMember};
ghost use Rattle.sw_daemon.specs.Coursing.{IsOfHash};
ghost use Rattle.sw_daemon.specs.Pass.{is_of_part, is_of_ring, most_parts, most_places, others_of};

use std::alloc::Global;
use std::collections::VecDeque;
use sw_hashpath::{Place, place_of};
use sw_message::primaries;
use sw_ring::Cluster;
use sw_types::NoMemory;

/// A pass treats so many partitions, and so many places of each.
const MOST_PARTS: usize = 1 << 16;

const MOST_PLACES: usize = 1 << 24;

/// The partitions that the ring has, of those that are listed.
pub(crate) fn parts_of_ring(
    alloc: Global,
    power: u32,
    parts: &[u32],
) -> Result<VecDeque<u32>, NoMemory>
    requires { power ≤ 16 }
    ensures those { IfOk result (λ those. those.items ≡ filter (is_of_ring power) (take most_parts parts.now)) }
    ensures below { IfOk result (λ those. All (λ part. part < 2 ^ power) those.items) }
{
    let count = parts.len().min(MOST_PARTS);
    let mut those = VecDeque::new(alloc);
    for part in &parts[..count] {
        if *part < 1 << power {
            those.push_back(*part)?;
        }
    }
    Ok(those)
}

/// The places of a partition that are those of their hashes, of those that are listed.
pub(crate) fn places_of_part(
    alloc: Global,
    power: u32,
    part: u32,
    places: &[Place],
) -> Result<VecDeque<Place>, NoMemory>
    requires power { power ≤ 16 }
    requires part { part < 2 ^ power }
    ensures those { IfOk result (λ those. those.items ≡ filter (is_of_part power part) (take most_places places.now)) }
    ensures right { IfOk result (λ those. All (IsOfHash power) those.items) }
{
    let count = places.len().min(MOST_PLACES);
    let mut those = VecDeque::new(alloc);
    for place in &places[..count] {
        if is_of_part(power, part, place) {
            those.push_back(*place)?;
        }
    }
    Ok(those)
}

// Whether a place is one of the partition, and that of its hash.
fn is_of_part(power: u32, part: u32, place: &Place) -> bool
    requires { power ≤ 16 }
    ensures { result ≡ is_of_part power part place.now }
{
    place.part() == part && place_of(place.hash(), power).part() == part
}

/// The primaries of a partition but one device, in the order of their indices.
pub(crate) fn others_of(
    alloc: Global,
    cluster: &Cluster,
    part: u32,
    device: u16,
) -> Result<VecDeque<u16>, NoMemory>
    requires { part < 2 ^ cluster.now.part_power }
    ensures others { IfOk result (λ others. others.items ≡ others_of (record { cluster = cluster.now; device = device }) part) }
    ensures members { IfOk result (λ others. All (IsMember cluster.now) others.items) }
{
    prove!(cluster.part_power() <= Cluster::GREATEST_PART_POWER);
    let mut others = VecDeque::new(alloc);
    let primaries = primaries(alloc, cluster, part)?;
    for other in &primaries {
        if *other != device {
            others.push_back(*other)?;
        }
    }
    Ok(others)
}
