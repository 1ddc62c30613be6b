//! What lies in the folders of the host. What is no file or folder of a disk by its name or its kind is passed over.

ghost use Rattle.std.specs.Prelude.{IfOk};
ghost use Rattle.std.specs.Cmp.Lexicographic.{slice_cmp};
ghost use Rattle.std.specs.List.Sorted.{IsSorted};
ghost use Rattle.std.specs.Ordering.{nat_cmp};
ghost use Rattle.sw_disk.specs.Answers.{texts_of};

use crate::fault::HostFault;
use crate::files::{size_of, sync_folder};
use crate::host::Host;
use crate::path::{HostPath, below, folder_below};
use std::alloc::Global;
use std::fs::{DirEntry, Metadata};
use std::io::ErrorKind;
use std::{fs, io};
use sw_types::read_decimal;

// The longest name of a file.
const LONGEST: usize = 96;

#[derive(Clone, Copy, PartialEq, Eq)]
enum Kind {
    File,
    Folder,
}

/// The names of the plain files in a folder, ascending; none where there is no such folder. A link is no plain file.
pub(crate) fn files_in<R: Host>(host: &R, folder: &HostPath) -> Result<Vec<String>, HostFault>
    ensures { IfOk result (λ names. IsSorted (slice_cmp nat_cmp) (texts_of names.items)) }
{
    in_order(names_in(host, folder, Kind::File)?)
}

/// These names, ascending.
pub(crate) fn in_order(names: Vec<String>) -> Result<Vec<String>, HostFault>
    ensures { IfOk result (λ names. IsSorted (slice_cmp nat_cmp) (texts_of names.items)) }
{
    let mut names = names;
    names.sort_unstable();
    Ok(names)
}

// The names of what is of this kind in a folder.
fn names_in<R: Host>(host: &R, folder: &HostPath, kind: Kind) -> Result<Vec<String>, HostFault> {
    let mut names = Vec::new(host.alloc());
    let entries = match fs::read_dir(host, folder.as_str()) {
        Ok(entries) => entries,
        Err(error) if error.kind() == ErrorKind::NotFound => return Ok(names),
        Err(error) => return Err(error.into()),
    };
    for entry in entries {
        if let Some(name) = name_of(host.alloc(), entry, kind)? {
            names.push(name)?;
        }
    }
    Ok(names)
}

// The name of what is of this kind. A name that is no text, or too long, is somebody else's.
fn name_of<R: Host>(
    alloc: Global,
    entry: io::Result<DirEntry<R, Global>>,
    kind: Kind,
) -> Result<Option<String>, HostFault> {
    let entry = match entry {
        Ok(entry) => entry,
        Err(error) if error.kind() == ErrorKind::InvalidFilename => return Ok(None),
        Err(error) => return Err(error.into()),
    };
    if entry.file_name().len() > LONGEST || !is_of(&entry.metadata()?, kind) {
        return Ok(None);
    }
    let name = String::from_str(alloc, entry.file_name())?;
    Ok(Some(name))
}

fn is_of(metadata: &Metadata, kind: Kind) -> bool {
    match kind {
        Kind::File => metadata.is_file(),
        Kind::Folder => metadata.is_dir(),
    }
}

/// A walk through the folders of a disk. What may not be stable in them is made so on the way: the names of folders, and that the
/// last file of a folder was removed.
#[derive(Drop)]
pub(crate) struct Walk<'a, R> {
    pub(crate) host: &'a R,
    pub(crate) base: &'a HostPath,
}

impl<'a, R: Host> Walk<'a, R> {
    /// The folders that have the form of an object's, `objects/PART/SUFFIX/HASH`, and a file.
    pub(crate) fn folders(&self) -> Result<Vec<String>, HostFault> {
        let mut found = Vec::new(self.host.alloc());
        for part in self.folders_in("objects")? {
            if is_part(part.as_bytes()) {
                self.add_part(&part, &mut found)?;
            }
        }
        Ok(found)
    }

    fn add_part(&self, part: &str, found: &mut Vec<String>) -> Result<(), HostFault> {
        let folder = format!(in self.host.alloc(); "objects/{part}")?;
        for suffix in self.folders_in(&folder)? {
            if suffix.len() == 3 {
                self.add_suffix(&folder, &suffix, found)?;
            }
        }
        Ok(())
    }

    fn add_suffix(
        &self,
        part: &str,
        suffix: &str,
        found: &mut Vec<String>,
    ) -> Result<(), HostFault> {
        let folder = format!(in self.host.alloc(); "{part}/{suffix}")?;
        for hash in self.folders_in(&folder)? {
            if is_hash_of(&hash, suffix) {
                let place = format!(in self.host.alloc(); "{folder}/{hash}")?;
                self.add_place(place, found)?;
            }
        }
        Ok(())
    }

    fn add_place(&self, place: String, found: &mut Vec<String>) -> Result<(), HostFault> {
        let path = folder_below(self.base, &place)?;
        if files_in(self.host, &path)?.is_empty() {
            return sync_folder(self.host, &path);
        }
        found.push(place)?;
        Ok(())
    }

    // The names of the folders in a folder.
    fn folders_in(&self, folder: &str) -> Result<Vec<String>, HostFault> {
        let path = folder_below(self.base, folder)?;
        let names = names_in(self.host, &path, Kind::Folder)?;
        if !names.is_empty() {
            sync_folder(self.host, &path)?;
        }
        Ok(names)
    }

    /// How many bytes the files of these folders have.
    pub(crate) fn used(&self, folders: &[String]) -> Result<u64, HostFault> {
        let mut used: u64 = 0;
        for folder in folders {
            used = used.saturating_add(self.used_in(folder)?);
        }
        Ok(used)
    }

    fn used_in(&self, folder: &str) -> Result<u64, HostFault> {
        let path = folder_below(self.base, folder)?;
        let mut used: u64 = 0;
        for name in files_in(self.host, &path)? {
            used = used.saturating_add(size_of(self.host, &below(&path, &name)?)?);
        }
        Ok(used)
    }
}

/// Whether a text has the form of a folder of an object, `objects/PART/SUFFIX/HASH`.
pub(crate) fn is_place(folder: &str) -> bool {
    let Some((top, rest)) = folder.split_once('/') else {
        return false;
    };
    let Some((part, rest)) = rest.split_once('/') else {
        return false;
    };
    let Some((suffix, hash)) = rest.split_once('/') else {
        return false;
    };
    top == "objects" && is_part(part.as_bytes()) && suffix.len() == 3 && is_hash_of(hash, suffix)
}

// Whether a name is the number of a partition.
fn is_part(name: &[u8]) -> bool {
    match read_decimal(name) {
        Some(part) => part <= u64::from(u32::MAX),
        None => false,
    }
}

// Whether a name is a hash with this suffix.
fn is_hash_of(hash: &str, suffix: &str) -> bool {
    is_hash(hash.as_bytes()) && hash.ends_with(suffix)
}

// Whether a name is the 32 digits of a hash.
fn is_hash(name: &[u8]) -> bool {
    name.len() == 32
        && name
            .iter()
            .all(|digit| matches!(digit, b'0'..=b'9' | b'a'..=b'f'))
}
