//! Suffixes at which two lists of hashes differ.

ghost use Rattle.std.specs.BTreeMap.{get};
ghost use Rattle.std.specs.BTreeSet.{contains};
ghost use Rattle.std.specs.List.{All};
ghost use Rattle.std.specs.List.Sorted.{IsStrictlySortedBy};
ghost use Rattle.std.specs.Option.{option_or};
ghost use Rattle.std.specs.Ordering.{nat_cmp};
ghost use Rattle.std.specs.Prelude.{◌≡◌, ◌≢◌, ◌↔◌, ◌⊎◌, ℕ, IfOk, IsTrue, OnOk, Some, None, if◌then◌else◌, nat_eq};
ghost use Rattle.sw_suffix.specs.Table.{AreDiffering, hash_at};

use std::alloc::Global;
use std::collections::{BTreeMap, BTreeSet};
use sw_types::NoMemory;

/// The suffixes at which two lists of suffixes with their hashes differ, ascending: those that one of them
/// lacks, and those that both have with different hashes. Where a list has a suffix more than once, its first hash counts.
pub fn differing(
    alloc: Global,
    a: &[(u16, [u8; 16])],
    b: &[(u16, [u8; 16])],
) -> Result<Vec<u16>, NoMemory>
    ensures { IfOk result (λ suffixes. AreDiffering a.now b.now suffixes.items) }
{
    let first = first_hashes(alloc, a)?;
    let second = first_hashes(alloc, b)?;
    let mut suffixes = BTreeSet::new(alloc);
    add_differing(&mut suffixes, a, &first, &second)?;
    add_differing(&mut suffixes, b, &first, &second)?;
    listed(alloc, &suffixes)
}

// The first hash of each suffix.
fn first_hashes(
    alloc: Global,
    hashes: &[(u16, [u8; 16])],
) -> Result<BTreeMap<u16, [u8; 16]>, NoMemory>
    ensures { IfOk result (λ first. (suffix : ℕ) → get nat_cmp first suffix ≡ hash_at suffix hashes.now) }
{
    let mut first = BTreeMap::new(alloc);
    for (suffix, hash) in hashes {
        add_first(&mut first, *suffix, *hash)?;
    }
    Ok(first)
}

// Adds the hash of a suffix that has none.
fn add_first(
    first: &mut BTreeMap<u16, [u8; 16]>,
    suffix: u16,
    hash: [u8; 16],
) -> Result<(), NoMemory>
    ensures { OnOk result ((other : ℕ) → get nat_cmp first.new other ≡ option_or (get nat_cmp first.old other) (if nat_eq suffix other then Some hash else None)) }
{
    if !first.contains_key(&suffix) {
        first.insert(suffix, hash)?;
    }
    Ok(())
}

// Adds the suffixes of a list at which two maps differ.
fn add_differing(
    suffixes: &mut BTreeSet<u16>,
    hashes: &[(u16, [u8; 16])],
    first: &BTreeMap<u16, [u8; 16]>,
    second: &BTreeMap<u16, [u8; 16]>,
) -> Result<(), NoMemory>
    ensures kept { OnOk result ((suffix : ℕ) → IsTrue (contains nat_cmp suffixes.old suffix) → IsTrue (contains nat_cmp suffixes.new suffix)) }
    ensures added { OnOk result ((suffix : ℕ) → IsTrue (contains nat_cmp suffixes.new suffix) → IsTrue (contains nat_cmp suffixes.old suffix) ⊎ (get nat_cmp first.now suffix ≢ get nat_cmp second.now suffix)) }
    ensures all { OnOk result (All (λ hash. get nat_cmp first.now hash.0 ≢ get nat_cmp second.now hash.0 → IsTrue (contains nat_cmp suffixes.new hash.0)) hashes.now) }
{
    for (suffix, _) in hashes {
        if is_differing(first, second, *suffix) {
            suffixes.insert(*suffix)?;
        }
    }
    Ok(())
}

// Whether two maps differ at a suffix.
fn is_differing(
    first: &BTreeMap<u16, [u8; 16]>,
    second: &BTreeMap<u16, [u8; 16]>,
    suffix: u16,
) -> bool
    ensures { IsTrue result ↔ (get nat_cmp first.now suffix ≢ get nat_cmp second.now suffix) }
{
    first.get(&suffix) != second.get(&suffix)
}

// The suffixes, ascending.
fn listed(alloc: Global, suffixes: &BTreeSet<u16>) -> Result<Vec<u16>, NoMemory>
    ensures items { IfOk result (λ items. items.items ≡ suffixes.now.keys) }
    ensures ascend { IsStrictlySortedBy nat_cmp suffixes.now.keys }
{
    Ok(suffixes.iter().copied().collect(alloc)?)
}
