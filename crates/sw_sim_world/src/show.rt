//! What a device keeps in the folder of a name.

ghost use Rattle.std.specs.Prelude.{◌≡◌, ◌++◌, IfOk, OnOk, map, option_map};
ghost use Rattle.std.specs.List.{All, AllZip};
ghost use Rattle.sw_archive.specs.Archive.{ArchiveModel, IsArchive};
ghost use Rattle.sw_hashpath.specs.Place.{folder_of};
ghost use Rattle.sw_memdisk.specs.Lent.{bytes_under};
ghost use Rattle.sw_memdisk.specs.Log.{files_now};
ghost use Rattle.sw_memdisk.specs.Memory.{log_at};
ghost use Rattle.sw_sim_world.specs.Show.{HasArchive, IsLentEntry, IsPayload, IsReadable, IsShown, or_empty};
ghost use Rattle.sw_sim_world.specs.declared.told.ShowLine.TheVariants.{Buried};

use crate::told::ShowLine;
use std::alloc::Global;
use std::collections::BTreeMap;
use sw_archive::{ArchiveFault, read_archive};
use sw_hashdir::{Entry, HashDir};
use sw_hashpath::{FileName, Place};
use sw_memdisk::MemDisk;
use sw_types::{Bytes, Items, NoMemory, Stamp};

// Files of a folder by their names.
type Lent<'a> = BTreeMap<&'a str, &'a [u8]>;

/// What a device keeps in the folder of a place, on this disk, without a call of the device. It goes over the folder's files a few
/// times and sorts their names.
pub(crate) fn shown(
    alloc: Global,
    disk: &MemDisk,
    device: u16,
    place: Place,
) -> Result<Items<ShowLine>, NoMemory>
    requires { All IsReadable (files_now (log_at disk.now.folders (folder_of place))) }
    ensures { IfOk result (IsShown device (files_now (log_at disk.now.folders (folder_of place)))) }
{
    let folder = place.folder(alloc)?;
    let names = disk.names(alloc, folder.as_str())?;
    let directory = HashDir::of(alloc, &names)?;
    let listing = directory.listing(alloc)?;
    let lent = disk.lend(alloc, folder.as_str())?;
    let mut lines = stored_lines(alloc, &lent, device, listing.entries())?;
    push_buried(&mut lines, device, listing.tombstones())?;
    if lines.is_empty() {
        lines.push(ShowLine::Empty { device })?;
    }
    Ok(Items::from(lines))
}

// A line for each of some entries, in their order, of which the files are lent.
fn stored_lines(
    alloc: Global,
    lent: &Lent<'_>,
    device: u16,
    entries: &[Entry],
) -> Result<Vec<ShowLine>, NoMemory>
    requires { All (HasArchive lent.now) entries.now }
    ensures { IfOk result (λ lines. AllZip (IsLentEntry device lent.now) entries.now lines.items) }
{
    let mut lines = Vec::new(alloc);
    for entry in entries {
        lines.push(stored_line(alloc, lent, device, *entry)?)?;
    }
    Ok(lines)
}

// The line of an entry, with the payload of its archive.
fn stored_line(
    alloc: Global,
    lent: &Lent<'_>,
    device: u16,
    entry: Entry,
) -> Result<ShowLine, NoMemory>
    requires { HasArchive lent.now entry }
    ensures { IfOk result (IsLentEntry device lent.now entry) }
{
    let name = FileName::Data {
        stamp: entry.stamp,
        index: entry.index,
        durable: entry.durable,
    };
    let text = name.print(alloc)?;
    let Some(bytes) = lent_under(lent, text.as_str()) else {
        unreachable!();
    };
    let payload = payload_of(alloc, bytes)?;
    Ok(ShowLine::Stored {
        device,
        entry,
        payload,
    })
}

// The bytes that are lent under a name.
fn lent_under<'a>(lent: &Lent<'a>, name: &str) -> Option<&'a [u8]>
    ensures { option_map (λ bytes. bytes.now) result ≡ bytes_under name.now lent.now }
{
    lent.get(name).copied()
}

// The payload of the archive that the bytes spell.
fn payload_of(alloc: Global, bytes: &[u8]) -> Result<Bytes, NoMemory>
    requires { (archive : ArchiveModel) × IsArchive bytes.now archive }
    ensures { IfOk result (IsPayload bytes.now) }
{
    match read_archive(alloc, bytes) {
        Ok(archive) => Bytes::from_slice(alloc, archive.payload()),
        Err(ArchiveFault::NoMemory) => Err(NoMemory),
        Err(_) => unreachable!(),
    }
}

// Adds a line for each of some tombstones, in their order.
fn push_buried(lines: &mut Vec<ShowLine>, device: u16, stamps: &[Stamp]) -> Result<(), NoMemory>
    ensures { OnOk result (lines.new.items ≡ lines.old.items ++ map (Buried device) stamps.now) }
{
    for stamp in stamps {
        lines.push(ShowLine::Buried {
            device,
            stamp: *stamp,
        })?;
    }
    Ok(())
}
