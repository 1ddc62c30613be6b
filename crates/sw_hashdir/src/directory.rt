//! Directories of folders.

ghost use Rattle.std.specs.Prelude.{◌≡◌, ◌≢◌, ◌↔◌, ◌⊎◌, ◌∷◌, ◌++◌, [], Bool, List, Contains, IfOk, IsTrue, MatchOption, Some, map, string_bytes};
ghost use Rattle.std.specs.List.{AllPairs};
ghost use Rattle.sw_hashpath.specs.FileName.{IsFileName};
ghost use Rattle.sw_hashpath.specs.declared.file_name.FileName.{FileName as AFileName};
ghost use Rattle.sw_hashpath.specs.declared.file_name.FileName.TheVariants.{Data, Tombstone};
ghost use Rattle.sw_hashdir.specs.Directory.{HasEntry, IsDirectory, IsFloor};
ghost use Rattle.sw_hashdir.specs.Obsolete.{IsAfter, IsWithout, Replaces};

use crate::entry::Entry;
use crate::floor::{Floor, FloorKind};
use crate::order::{has, put_in_order};
use std::alloc::Global;
use std::marker::Model;
use sw_hashpath::FileName;
use sw_types::{NoMemory, Stamp};

/// The directory of a folder: the names of its files, each once, in an order of its own.
#[derive(Debug, Drop)]
pub struct HashDir {
    pub(crate) names: Vec<FileName>,
}

impl Model for HashDir {
    ghost use Rattle.std.specs.Prelude.{List, Contains};
    ghost use Rattle.sw_hashpath.specs.FileName.{IsFileName};
    ghost use Rattle.sw_hashpath.specs.declared.file_name.FileName.{FileName as AFileName};
    ghost use Rattle.sw_hashdir.specs.Order.{Ascend};

    ghost Value = { List AFileName };

    ghost view = { λ dir. dir.names.items };

    ghost invariant = { λ dir. record {
      ascend : Ascend dir.names.items;
      named : (name : AFileName) → Contains dir.names.items name → IsFileName name;
    } };
}

impl HashDir {
    /// The directory of a folder with files of these names. Texts that are no name of a file are left out.
    pub fn of(alloc: Global, texts: &[String]) -> Result<HashDir, NoMemory>
        ensures { IfOk result (λ dir. IsDirectory (map string_bytes texts.now) dir) }
    {
        let mut names = Vec::with_capacity(alloc, texts.len())?;
        for text in texts {
            if let Some(name) = FileName::read(text.as_str()) {
                names.push(name)?;
            }
        }
        put_in_order(&mut names);
        Ok(HashDir { names })
    }

    /// The floor. It takes no memory.
    pub fn floor(&self) -> Option<Floor>
        ensures { IsFloor self.now result }
    {
        let mut floor = None;
        for name in &self.names {
            floor = greater(floor, floor_of(name));
        }
        floor
    }

    /// The directory once a file of this name was made. A durable name takes the place of its plain one.
    pub fn after(&self, alloc: Global, made: FileName) -> Result<HashDir, NoMemory>
        requires { IsFileName made }
        ensures { IfOk result (λ dir. IsAfter made self.now dir) }
    {
        let mut names = Vec::new(alloc);
        let plain = plain_of(&made);
        for name in &self.names {
            if plain != Some(*name) {
                names.push(*name)?;
            }
        }
        names.push(made)?;
        put_in_order(&mut names);
        Ok(HashDir { names })
    }

    /// The directory once a file of this name is gone.
    pub fn without(&self, alloc: Global, gone: FileName) -> Result<HashDir, NoMemory>
        ensures { IfOk result (λ dir. IsWithout gone self.now dir) }
    {
        let mut names = Vec::new(alloc);
        for name in &self.names {
            if *name != gone {
                names.push(*name)?;
            }
        }
        Ok(HashDir { names })
    }
}

impl HashDir {
    /// The entry of an index at a stamp, if it is there: durable where it has its durable name. It takes no memory.
    pub fn entry(&self, stamp: Stamp, index: u32) -> Option<Entry>
        ensures { MatchOption result ((durable : Bool) → Contains self.now (Data stamp index durable) → ⊥) (λ entry. (entry.stamp ≡ stamp) × (entry.index ≡ index) × HasEntry self.now entry) }
    {
        let named = |durable| FileName::Data {
            stamp,
            index,
            durable,
        };
        if has(&self.names, &named(true)) {
            return Some(Entry {
                stamp,
                index,
                durable: true,
            });
        }
        if has(&self.names, &named(false)) {
            return Some(Entry {
                stamp,
                index,
                durable: false,
            });
        }
        None
    }

    /// Whether there is a tombstone of this stamp. It takes no memory.
    pub fn has_tombstone(&self, stamp: Stamp) -> bool
        ensures { IsTrue result ↔ Contains self.now (Tombstone stamp) }
    {
        has(&self.names, &FileName::Tombstone { stamp })
    }
}

// The floor that a name alone would be.
fn floor_of(name: &FileName) -> Option<Floor>
    ensures { IsFloor (name.now ∷ []) result }
{
    match *name {
        FileName::Data {
            stamp,
            durable: true,
            ..
        } => Some(Floor {
            stamp,
            kind: FloorKind::Durable,
        }),
        FileName::Data { .. } => None,
        FileName::Tombstone { stamp } => Some(Floor {
            stamp,
            kind: FloorKind::Tombstone,
        }),
    }
}

// The one that is above the other, of two floors that there may be: the floor of the names of both.
fn greater(a: Option<Floor>, b: Option<Floor>) -> Option<Floor>
    ensures { (names others : List AFileName) → IsFloor names a → IsFloor others b → IsFloor (names ++ others) result }
{
    match (a, b) {
        (Some(first), Some(second)) => Some(if second.is_above(first) {
            second
        } else {
            first
        }),
        (None, _) => b,
        (Some(_), None) => a,
    }
}

// The plain name of an entry whose durable name this is.
fn plain_of(name: &FileName) -> Option<FileName>
    ensures { (other : AFileName) → (result ≡ Some other) ↔ Replaces name.now other }
{
    match *name {
        FileName::Data {
            stamp,
            index,
            durable: true,
        } => Some(FileName::Data {
            stamp,
            index,
            durable: false,
        }),
        _ => None,
    }
}
