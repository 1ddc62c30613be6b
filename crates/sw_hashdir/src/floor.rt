//! Floors of folders.

ghost use Rattle.std.specs.Prelude.{◌↔◌, IsTrue};
ghost use Rattle.sw_hashdir.specs.Directory.{IsAbove, StandsAbove};

use sw_types::Stamp;

/// What a floor is of.
#[derive(Clone, Copy, Debug, PartialEq, Eq)]
pub enum FloorKind {
    Durable,
    Tombstone,
}

/// The greatest stamp of a folder's durable entries and tombstones; of equal ones the tombstone's.
#[derive(Clone, Copy, Debug, PartialEq, Eq)]
pub struct Floor {
    pub stamp: Stamp,
    pub kind: FloorKind,
}

impl Floor {
    /// Whether it is above another: its stamp is greater, or the stamps are equal and it alone is a tombstone.
    pub fn is_above(self, other: Floor) -> bool
        ensures { IsTrue result ↔ IsAbove self other }
    {
        let alone = self.kind == FloorKind::Tombstone && other.kind == FloorKind::Durable;
        other.stamp.units() < self.stamp.units() || (self.stamp == other.stamp && alone)
    }

    /// Whether it stands above a stamp: its own is greater, or is that one and it is a tombstone.
    pub fn stands_above(self, stamp: Stamp) -> bool
        ensures { IsTrue result ↔ StandsAbove self stamp }
    {
        let is_tombstone = self.kind == FloorKind::Tombstone;
        stamp.units() < self.stamp.units() || (self.stamp == stamp && is_tombstone)
    }
}
