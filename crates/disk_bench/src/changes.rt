//! Changes of the folder, each where its condition holds.

ghost use Rattle.std.specs.Prelude.{◌<◌};
ghost use Rattle.sw_types.specs.Policy.{greatest_total};

use crate::folder::{FOLDER, has_file};
use std::alloc::Global;
use sw_disk::{Disk, DiskRefusal};
use sw_diskfile::{bury, commit, drop_entry, look, obsolete_texts, purge, store};
use sw_hashdir::Entry;
use sw_hashpath::FileName;
use sw_memdisk::MemDisk;
use sw_types::Stamp;

/// Stores an archive of an index below 32, and says whether it was not there yet.
pub fn store_new(
    alloc: Global,
    disk: &mut MemDisk,
    stamp: Stamp,
    index: u32,
    bytes: &[u8],
) -> Result<bool, DiskRefusal>
    requires { index < greatest_total }
{
    let name = FileName::Data {
        stamp,
        index,
        durable: false,
    };
    if has_file(alloc, disk, FOLDER, &name)? {
        return Ok(false);
    }
    store(alloc, disk, FOLDER, stamp, index, bytes)?;
    Ok(true)
}

/// Writes a tombstone, and says whether it was not there yet.
pub fn bury_new(alloc: Global, disk: &mut MemDisk, stamp: Stamp) -> Result<bool, DiskRefusal> {
    if has_file(alloc, disk, FOLDER, &FileName::Tombstone { stamp })? {
        return Ok(false);
    }
    bury(alloc, disk, FOLDER, stamp)?;
    Ok(true)
}

/// Makes an archive of an index below 32 durable, and says whether it was there and was not.
pub fn commit_plain(
    alloc: Global,
    disk: &mut MemDisk,
    stamp: Stamp,
    index: u32,
) -> Result<bool, DiskRefusal>
    requires { index < greatest_total }
{
    let plain = FileName::Data {
        stamp,
        index,
        durable: false,
    };
    let durable = FileName::Data {
        stamp,
        index,
        durable: true,
    };
    if !has_file(alloc, disk, FOLDER, &plain)? || has_file(alloc, disk, FOLDER, &durable)? {
        return Ok(false);
    }
    commit(alloc, disk, FOLDER, stamp, index)?;
    Ok(true)
}

/// Removes an entry of an index below 32, and says whether it was there.
pub fn drop_found(alloc: Global, disk: &mut MemDisk, entry: Entry) -> Result<bool, DiskRefusal>
    requires { entry.index < greatest_total }
{
    let name = FileName::Data {
        stamp: entry.stamp,
        index: entry.index,
        durable: entry.durable,
    };
    if !has_file(alloc, disk, FOLDER, &name)? {
        return Ok(false);
    }
    drop_entry(alloc, disk, FOLDER, entry)?;
    Ok(true)
}

/// Removes what is obsolete at a primary.
pub fn purge_at_primary(alloc: Global, disk: &mut MemDisk) -> Result<(), DiskRefusal> {
    let dir = look(alloc, disk, FOLDER)?;
    let obsolete = obsolete_texts(alloc, &dir, true)?;
    disk.ready(alloc, FOLDER, obsolete.len())?;
    purge(disk, FOLDER, true, &obsolete)
}

/// Makes an archive of an index below 32 durable at a primary, and removes what that makes obsolete, as a node does it: it
/// looks at the folder once, and takes all memory before the first change. Says whether the archive was there and was not
/// durable.
pub fn commit_and_purge(
    alloc: Global,
    disk: &mut MemDisk,
    stamp: Stamp,
    index: u32,
) -> Result<bool, DiskRefusal>
    requires { index < greatest_total }
{
    let plain = FileName::Data {
        stamp,
        index,
        durable: false,
    };
    let durable = FileName::Data {
        stamp,
        index,
        durable: true,
    };
    let later = look(alloc, disk, FOLDER)?.after(alloc, durable)?;
    let obsolete = obsolete_texts(alloc, &later, true)?;
    disk.ready(alloc, FOLDER, obsolete.len().saturating_add(1))?;
    if !has_file(alloc, disk, FOLDER, &plain)? || has_file(alloc, disk, FOLDER, &durable)? {
        return Ok(false);
    }
    commit(alloc, disk, FOLDER, stamp, index)?;
    purge(disk, FOLDER, true, &obsolete)?;
    Ok(true)
}
