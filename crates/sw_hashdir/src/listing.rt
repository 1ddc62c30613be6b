//! What a directory lists.

ghost use Rattle.std.specs.Prelude.{◌≡◌, ◌↔◌, ◌<◌, ℕ, Contains, IfOk, Some};
ghost use Rattle.std.specs.List.{AllPairs};
ghost use Rattle.sw_hashpath.specs.declared.file_name.FileName.TheVariants.{Data, Tombstone};
ghost use Rattle.sw_hashdir.specs.Directory.{HasEntry};
ghost use Rattle.sw_hashdir.specs.Listing.{IsBefore, IsListingOf};
ghost use Rattle.sw_hashdir.specs.Order.{Ascend};
ghost use Rattle.sw_hashdir.specs.declared.entry.Entry.{Entry as AEntry};

use crate::directory::HashDir;
use crate::entry::Entry;
use crate::order::has;
use std::alloc::Global;
use std::marker::Model;
use sw_hashpath::FileName;
use sw_types::{NoMemory, Stamp};

/// Entries and tombstones. Those that a directory lists ascend: entries by stamp and index, tombstones by stamp.
#[derive(Debug, Drop)]
pub struct Listing {
    pub(crate) entries: Vec<Entry>,
    pub(crate) tombstones: Vec<Stamp>,
}

impl Model for Listing {
    ghost use Rattle.sw_hashdir.specs.Listing.{ListingModel};

    ghost Value = { ListingModel };

    ghost view = { λ listing. record { entries = listing.entries.items; tombstones = listing.tombstones.items } };
}

impl Listing {
    /// The listing of these entries and tombstones, in whatever order they come. It takes no memory.
    pub fn new(entries: Vec<Entry>, tombstones: Vec<Stamp>) -> Listing
        ensures { result ≡ record { entries = entries.items; tombstones = tombstones.items } }
    {
        Listing {
            entries,
            tombstones,
        }
    }

    /// The entries.
    pub fn entries(&self) -> &[Entry]
        ensures { result.now ≡ self.now.entries }
    {
        self.entries.as_slice()
    }

    /// The stamps of the tombstones.
    pub fn tombstones(&self) -> &[Stamp]
        ensures { result.now ≡ self.now.tombstones }
    {
        self.tombstones.as_slice()
    }
}

impl HashDir {
    /// Its entries and tombstones. An entry with both its names is durable.
    pub fn listing(&self, alloc: Global) -> Result<Listing, NoMemory>
        ensures { IfOk result (λ listing. IsListingOf self.now listing) }
    {
        Ok(Listing {
            entries: entries_of(alloc, &self.names)?,
            tombstones: tombstones_of(alloc, &self.names)?,
        })
    }
}

// The entries of names in their order.
fn entries_of(alloc: Global, names: &[FileName]) -> Result<Vec<Entry>, NoMemory>
    requires { Ascend names.now }
    ensures all { IfOk result (λ entries. (entry : AEntry) → Contains entries.items entry ↔ HasEntry names.now entry) }
    ensures ascend { IfOk result (λ entries. AllPairs IsBefore entries.items) }
{
    let mut entries = Vec::new(alloc);
    for name in names {
        if let Some(entry) = entry_of(names, name) {
            entries.push(entry)?;
        }
    }
    Ok(entries)
}

// The entry that a name gives. A plain name gives none where its durable one is there.
fn entry_of(names: &[FileName], name: &FileName) -> Option<Entry>
    requires ascend { Ascend names.now }
    requires name { Contains names.now name.now }
    ensures { (entry : AEntry) → result ≡ Some entry ↔ (HasEntry names.now entry × (Data entry.stamp entry.index entry.durable ≡ name.now)) }
{
    match *name {
        FileName::Data {
            stamp,
            index,
            durable,
        } => {
            let marked = FileName::Data {
                stamp,
                index,
                durable: true,
            };
            if durable || !has(names, &marked) {
                Some(Entry {
                    stamp,
                    index,
                    durable,
                })
            } else {
                None
            }
        }
        FileName::Tombstone { .. } => None,
    }
}

// The stamps of the tombstones of names in their order.
fn tombstones_of(alloc: Global, names: &[FileName]) -> Result<Vec<Stamp>, NoMemory>
    requires { Ascend names.now }
    ensures all { IfOk result (λ stamps. (stamp : ℕ) → Contains stamps.items stamp ↔ Contains names.now (Tombstone stamp)) }
    ensures ascend { IfOk result (λ stamps. AllPairs (λ a b. a < b) stamps.items) }
{
    let mut stamps = Vec::new(alloc);
    for name in names {
        if let FileName::Tombstone { stamp } = *name {
            stamps.push(stamp)?;
        }
    }
    Ok(stamps)
}
