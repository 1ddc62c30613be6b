//! The floors of a table, by their keys.

ghost use Rattle.md5.specs.Md5.{md5};
ghost use Rattle.std.specs.List.{AllPairs};
ghost use Rattle.std.specs.Prelude.{◌≡◌, ◌≢◌, ◌⊎◌, ◌<◌, ◌≤◌, ℕ, [], ⊤, IsOk, MatchOption, None, OnErr, OnOk};
ghost use Rattle.sw_hashpath.specs.Place.{IsPlace};
ghost use Rattle.sw_suffix.specs.Entries.{AreRight, AreSound, IsKey, floors_of, key_place};
ghost use Rattle.sw_suffix.specs.Suffix.{suffix_text};
ghost use Rattle.sw_suffix.specs.Table.{IsBefore, IsSet, floor_at, in_suffix};

use crate::key::Key;
use crate::text::add_line;
use md5::{Digest, Md5};
use std::collections::BTreeMap;
use sw_hashdir::Floor;
use sw_types::NoMemory;

/// Floors by their keys.
pub(crate) type Floors = BTreeMap<Key, Floor>;

/// Gives a place this floor, or none. It takes memory only for a place that had none.
pub(crate) fn put(floors: &mut Floors, key: Key, floor: Option<Floor>) -> Result<(), NoMemory>
    requires sound { AreSound floors.old.entries }
    requires key { IsKey key }
    ensures sound { OnOk result (AreSound floors.new.entries) }
    ensures right { OnOk result ((power : ℕ) → AreRight power floors.old.entries → IsPlace power (key_place key) → AreRight power floors.new.entries) }
    ensures set { OnOk result (IsSet (key_place key) floor (floors_of floors.old.entries) (floors_of floors.new.entries)) }
    ensures others { (part suffix : ℕ) → (part ≡ key.part → suffix ≡ key.suffix → ⊥) →
        in_suffix part suffix (floors_of floors.new.entries) ≡ in_suffix part suffix (floors_of floors.old.entries) }
    ensures refused { OnErr result (floors.new.entries ≡ floors.old.entries) }
    ensures no_memory { (floor ≡ None) ⊎ (floor_at (key_place key) (floors_of floors.old.entries) ≢ None) → IsOk result }
{
    match floor {
        Some(floor) => {
            floors.insert(key, floor)?;
        }
        None => {
            floors.remove(&key);
        }
    }
    Ok(())
}

/// The floor of a key's place, if it has one.
pub(crate) fn floor_of(floors: &Floors, key: &Key) -> Option<Floor>
    requires sound { AreSound floors.now.entries }
    requires key { IsKey key.now }
    ensures { result ≡ floor_at (key_place key.now) (floors_of floors.now.entries) }
{
    floors.get(key).copied()
}

/// The first suffix from this one on in which a place of the partition has a floor.
pub(crate) fn next_suffix(floors: &Floors, part: u32, from: u16) -> Option<u16>
    requires { AreSound floors.now.entries }
    ensures next { MatchOption result
        ((suffix : ℕ) → from ≤ suffix → in_suffix part suffix (floors_of floors.now.entries) ≡ [])
        (λ next. (in_suffix part next (floors_of floors.now.entries) ≢ []) × ((suffix : ℕ) → from ≤ suffix → suffix < next → in_suffix part suffix (floors_of floors.now.entries) ≡ [])) }
    ensures bounds { MatchOption result ⊤ (λ next. (from ≤ next) × (next < 4096)) }
    ensures ordered { AllPairs IsBefore (floors_of floors.now.entries) }
{
    let low = Key {
        part,
        suffix: from,
        hash: [0; 16],
    };
    let (key, _) = floors.range(low..).next()?;
    if key.part == part {
        Some(key.suffix)
    } else {
        None
    }
}

/// The hash of a suffix, from scratch.
pub(crate) fn scratch_hash(floors: &Floors, part: u32, suffix: u16) -> [u8; 16]
    requires sound { AreSound floors.now.entries }
    requires suffix { suffix < 4096 }
    ensures { result ≡ md5 (suffix_text (in_suffix part suffix (floors_of floors.now.entries))) }
{
    let low = Key {
        part,
        suffix,
        hash: [0; 16],
    };
    let high = Key {
        suffix: suffix + 1,
        ..low
    };
    let mut hasher = Md5::new();
    for (key, floor) in floors.range(low..high) {
        add_line(&mut hasher, &key.place(), floor);
    }
    hasher.finalize()
}
