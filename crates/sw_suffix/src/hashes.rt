//! The hashes of a partition, from those that are kept and from scratch.

ghost use Rattle.md5.specs.Md5.{md5};
ghost use Rattle.std.specs.List.{AllPairs};
ghost use Rattle.std.specs.Prelude.{◌≡◌, ◌<◌, ℕ, IfOk};
ghost use Rattle.sw_suffix.specs.Entries.{AreKept, AreSound, floors_of};
ghost use Rattle.sw_suffix.specs.Suffix.{suffix_text};
ghost use Rattle.sw_suffix.specs.Table.{AreHashes, IsBefore, in_suffix};

use crate::floors::{Floors, next_suffix, scratch_hash};
use std::alloc::Global;
use std::collections::BTreeMap;
use sw_types::NoMemory;

/// Hashes by partition and suffix.
pub(crate) type Kept = BTreeMap<(u32, u16), [u8; 16]>;

/// The suffixes of a partition with their hashes, which are kept.
pub(crate) fn hashes_of(
    alloc: Global,
    floors: &Floors,
    kept: &mut Kept,
    part: u32,
) -> Result<Vec<(u16, [u8; 16])>, NoMemory>
    requires sound { AreSound floors.now.entries }
    requires kept { AreKept (floors_of floors.now.entries) kept.old.entries }
    ensures hashes { IfOk result (λ hashes. AreHashes part (floors_of floors.now.entries) hashes.items) }
    ensures kept { AreKept (floors_of floors.now.entries) kept.new.entries }
    ensures ordered { AllPairs IsBefore (floors_of floors.now.entries) }
{
    let mut hashes = Vec::new(alloc);
    let mut from = 0;
    while let Some(suffix) = next_suffix(floors, part, from) {
        let hash = hash_of(floors, kept, part, suffix)?;
        hashes.push((suffix, hash))?;
        from = suffix + 1;
    }
    Ok(hashes)
}

// The hash of a suffix: the one that is kept, or one from scratch, which is kept from then on.
fn hash_of(floors: &Floors, kept: &mut Kept, part: u32, suffix: u16) -> Result<[u8; 16], NoMemory>
    requires sound { AreSound floors.now.entries }
    requires kept { AreKept (floors_of floors.now.entries) kept.old.entries }
    requires suffix { suffix < 4096 }
    ensures hash { IfOk result (λ hash. hash ≡ md5 (suffix_text (in_suffix part suffix (floors_of floors.now.entries)))) }
    ensures kept { AreKept (floors_of floors.now.entries) kept.new.entries }
{
    if let Some(hash) = kept.get(&(part, suffix)) {
        return Ok(*hash);
    }
    let hash = scratch_hash(floors, part, suffix);
    kept.insert((part, suffix), hash)?;
    Ok(hash)
}
