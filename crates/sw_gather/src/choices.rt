//! Where archives may be fetched from.

ghost use Rattle.std.specs.Prelude.{◌≡◌, ◌++◌, IfOk, flat_map};
ghost use Rattle.std.specs.List.{list_any};
ghost use Rattle.sw_message.specs.Targets.{ascending};
ghost use Rattle.sw_gather.specs.Choices.{choices_in, firsts, has_index, is_listed, listed_at, same_target};

use std::alloc::Global;
use sw_hashdir::{Entry, Listing};
use sw_message::{Target, sort_targets};
use sw_types::{NoMemory, Stamp};

/// The pairs of index and device that listings show at a stamp, with an index below the total, ascending.
pub fn candidates(
    alloc: Global,
    lists: &[(u16, Listing)],
    total: u32,
    stamp: Stamp,
) -> Result<Vec<Target>, NoMemory>
    ensures { IfOk result (λ choices. choices.items ≡ choices_in total stamp lists.now) }
{
    let mut choices = Vec::new(alloc);
    for (device, listing) in lists {
        push_listed(&mut choices, *device, listing, total, stamp)?;
    }
    sort_targets(&mut choices);
    Ok(choices)
}

// Adds the pairs that one listing shows.
fn push_listed(
    choices: &mut Vec<Target>,
    device: u16,
    listing: &Listing,
    total: u32,
    stamp: Stamp,
) -> Result<(), NoMemory>
    ensures { IfOk result (λ _. choices.new.items ≡ choices.old.items ++ listed_at total stamp (device, listing.now)) }
{
    for entry in listing.entries() {
        if is_listed(entry, total, stamp) {
            let index = entry.index;
            choices.push(Target { index, device })?;
        }
    }
    Ok(())
}

// Whether an entry is of a stamp, and its index below the total.
fn is_listed(entry: &Entry, total: u32, stamp: Stamp) -> bool
    ensures { result ≡ is_listed total stamp entry.now }
{
    entry.stamp == stamp && entry.index < total
}

/// The first of each index. One that was met is looked for among the last ones first, so where they ascend it is soon found.
pub fn firsts(alloc: Global, choices: &[Target]) -> Result<Vec<Target>, NoMemory>
    ensures { IfOk result (λ found. found.items ≡ firsts choices.now) }
{
    let mut found: Vec<Target> = Vec::new(alloc);
    for source in choices {
        if !has_index(&found, source.index) {
            found.push(*source)?;
        }
    }
    Ok(found)
}

/// Whether one of these has an index. The last is tried first.
pub fn has_index(sources: &[Target], index: u32) -> bool
    ensures { result ≡ list_any (has_index index) sources.now }
{
    sources.iter().rev().any(|source| source.index == index)
}

/// Whether one of these is this one.
pub fn has_target(sources: &[Target], target: Target) -> bool
    ensures { result ≡ list_any (same_target target) sources.now }
{
    sources.iter().any(|source| source.index == target.index && source.device == target.device)
}
