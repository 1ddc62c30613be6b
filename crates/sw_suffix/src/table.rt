//! A table of floors that keeps the hashes of suffixes.

ghost use Rattle.std.specs.List.{All, AllPairs};
ghost use Rattle.std.specs.Prelude.{◌≡◌, ◌≢◌, ◌⊎◌, ◌≤◌, [], IfOk, IsOk, None, OnErr, OnOk};
ghost use Rattle.sw_hashpath.specs.Place.{IsPlace};
ghost use Rattle.sw_suffix.specs.Table.{AreHashes, IsBefore, IsSet, floor_at};

use crate::floors::{Floors, floor_of, put};
use crate::hashes::{Kept, hashes_of};
use crate::key::Key;
use std::alloc::Global;
use std::collections::BTreeMap;
use std::marker::Model;
use sw_hashdir::Floor;
use sw_hashpath::Place;
use sw_types::NoMemory;

/// The floors of places, by partition, suffix and hash, and the hashes of suffixes that were asked for and are still right.
/// A floor is given in time that grows with the logarithm of the number of places. The hashes of a partition are found in
/// time that grows with that logarithm for each of its suffixes, and with the number of places in those whose hash is not
/// kept.
#[derive(Debug, Drop)]
pub struct SuffixTable {
    power: u32,
    floors: Floors,
    kept: Kept,
}

impl Model for SuffixTable {
    ghost use Rattle.sw_suffix.specs.Table.{SuffixTableModel};

    ghost Value = { SuffixTableModel };

    ghost use Rattle.sw_suffix.specs.Kept.{IsSuffixTable, table_model};

    ghost view = { table_model };

    ghost invariant = { IsSuffixTable };
}

impl SuffixTable {
    /// A table for places among 2^power partitions, with no floor. It takes no memory.
    pub fn new(alloc: Global, power: u32) -> SuffixTable
        requires { power ≤ 16 }
        ensures { result ≡ record { power = power; floors = [] } }
    {
        SuffixTable {
            power,
            floors: BTreeMap::new(alloc),
            kept: BTreeMap::new(alloc),
        }
    }

    /// The power: there are 2^power partitions.
    pub fn power(&self) -> u32
        ensures { result ≡ self.now.power }
    {
        self.power
    }

    /// The floor of a place, if it has one. It takes no memory.
    pub fn floor(&self, place: &Place) -> Option<Floor>
        ensures { result ≡ floor_at place.now self.now.floors }
    {
        floor_of(&self.floors, &Key::of(place))
    }

    /// Gives a place this floor, or none. The hash of its suffix, and no other, is forgotten. Memory is taken only for a
    /// place that had no floor; where there is none, the table is as before.
    pub fn set(&mut self, place: Place, floor: Option<Floor>) -> Result<(), NoMemory>
        requires { IsPlace self.old.power place }
        ensures set { OnOk result (IsSet place floor self.old.floors self.new.floors) }
        ensures power { self.new.power ≡ self.old.power }
        ensures refused { OnErr result (self.new ≡ self.old) }
        ensures no_memory { (floor ≡ None) ⊎ (floor_at place self.old.floors ≢ None) → IsOk result }
    {
        let key = Key::of(&place);
        put(&mut self.floors, key, floor)?;
        self.kept.remove(&(key.part, key.suffix));
        Ok(())
    }

    /// The suffixes of a partition in which a place has a floor, from 0 to 4095 and ascending, each with the hash of its
    /// floors. A hash that is kept is used again, and one that is computed is kept.
    pub fn hashes(&mut self, alloc: Global, part: u32) -> Result<Vec<(u16, [u8; 16])>, NoMemory>
        ensures hashes { IfOk result (λ hashes. AreHashes part self.old.floors hashes.items) }
        ensures kept { self.new ≡ self.old }
        ensures ordered { AllPairs IsBefore self.old.floors }
        ensures right { All (λ floor. IsPlace self.old.power floor.0) self.old.floors }
    {
        hashes_of(alloc, &self.floors, &mut self.kept, part)
    }
}
