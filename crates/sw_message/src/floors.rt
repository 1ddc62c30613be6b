//! The order of floors.

ghost use Rattle.std.specs.Prelude.{◌≡◌};
ghost use Rattle.sw_message.specs.Floors.{higher, highest_from, floors_in, is_above, refuses, stands_above};

use sw_hashdir::{Floor, FloorKind, Listing};
use sw_types::Stamp;

/// Whether a floor is above another: its stamp is greater, or the stamps are equal and it alone is a tombstone.
pub fn is_above(floor: &Floor, other: &Floor) -> bool
    ensures { result ≡ is_above floor.now other.now }
{
    let alone = floor.kind == FloorKind::Tombstone && other.kind != FloorKind::Tombstone;
    other.stamp.units() < floor.stamp.units() || (floor.stamp == other.stamp && alone)
}

/// Whether a floor stands above a stamp: its own is greater, or is that one and it is a tombstone.
pub fn stands_above(floor: &Floor, stamp: Stamp) -> bool
    ensures { result ≡ stands_above floor.now stamp }
{
    let is_tombstone = floor.kind == FloorKind::Tombstone;
    stamp.units() < floor.stamp.units() || (floor.stamp == stamp && is_tombstone)
}

/// Whether a floor refuses a tombstone: its stamp is greater, or equal and durable.
pub fn refuses(floor: &Floor, stamp: Stamp) -> bool
    ensures { result ≡ refuses floor.now stamp }
{
    let is_durable = floor.kind != FloorKind::Tombstone;
    stamp.units() < floor.stamp.units() || (floor.stamp == stamp && is_durable)
}

/// The greater of the greatest floor so far and another.
pub fn higher(best: Option<Floor>, floor: Floor) -> Floor
    ensures { result ≡ higher best floor }
{
    match best {
        Some(best) if !is_above(&floor, &best) => best,
        _ => floor,
    }
}

/// The greater of the greatest floor so far and those that a listing shows.
pub fn highest_with(best: Option<Floor>, listing: &Listing) -> Option<Floor>
    ensures { result ≡ highest_from best (floors_in listing.now) }
{
    let mut best = best;
    for entry in listing.entries() {
        if entry.durable {
            let (stamp, kind) = (entry.stamp, FloorKind::Durable);
            best = Some(higher(best, Floor { stamp, kind }));
        }
    }
    for stamp in listing.tombstones() {
        let (stamp, kind) = (*stamp, FloorKind::Tombstone);
        best = Some(higher(best, Floor { stamp, kind }));
    }
    best
}
