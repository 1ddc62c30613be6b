//! The folder that is tried and measured.

ghost use Rattle.std.specs.Prelude.{◌≡◌, ◌≤◌, true, false, length, IfOk};
ghost use Rattle.sw_disk.specs.Answers.{HasFile, LacksFile};
ghost use Rattle.sw_hashpath.specs.FileName.{IsFileName, file_name_text};
ghost use Rattle.sw_memdisk.specs.Memory.{state_of};

use anyhow::{Context, Result, bail};
use std::alloc::Global;
use sw_disk::Disk;
use sw_hashpath::FileName;
use sw_memdisk::MemDisk;
use sw_types::{NoMemory, Stamp};

/// The folder of a name whose MD5 is that of `abc`.
pub const FOLDER: &str = "objects/0/f72/900150983cd24fb0d6963f7d28e17f72";

/// The files that it has to begin with, ascending by name: a tombstone that is older than the floor; two durable archives
/// of the floor's stamp, one of which has its plain name, too; a newer archive that is not durable; and a file whose name is
/// that of none of these, as long as a disk takes names.
pub const START: [&str; 6] = [
    "0999999999.00000.ts",
    "1000000000.00000#0#d.data",
    "1000000000.00000#1#d.data",
    "1000000000.00000#1.data",
    "1000000000.00001#0.data",
    LONGEST,
];

/// A name of 96 bytes.
pub const LONGEST: &str =
    "other-890123456789012345678901234567890123456789012345678901234567890123456789012345678901234567";

/// The stamp so many units after 1000000000.00000.
pub fn stamp(later: u64) -> Result<Stamp> {
    Stamp::make(100_000_000_000_000u64.saturating_add(later)).context("no such stamp")
}

/// A disk in memory with the folder as it is to begin with, stable. The device calls of these numbers fail.
pub fn start(alloc: Global, failing: &[u64]) -> Result<MemDisk> {
    let mut disk = MemDisk::new(alloc, 1 << 30, failing.to_vec(alloc)?);
    for name in START {
        keep(alloc, &mut disk, name, name.as_bytes())?;
    }
    disk.sync_dir(FOLDER)?;
    Ok(disk)
}

/// Keeps a file that is not there yet. It is not stable.
pub fn keep(alloc: Global, disk: &mut MemDisk, name: &str, bytes: &[u8]) -> Result<()>
    requires { length name.now ≤ 96 }
{
    disk.ready(alloc, FOLDER, 1)?;
    disk.write_tmp(alloc, bytes)?;
    disk.sync_tmp()?;
    if disk.file(FOLDER, name).is_some() {
        bail!("it is there");
    }
    disk.publish(FOLDER, name)?;
    Ok(())
}

/// Whether a file of this name is in a folder.
pub fn has_file(
    alloc: Global,
    disk: &MemDisk,
    folder: &str,
    name: &FileName,
) -> Result<bool, NoMemory>
    requires { IsFileName name.now }
    ensures there { IfOk result (λ there. there ≡ true → HasFile (state_of disk.now) folder.now (file_name_text name.now)) }
    ensures lacks { IfOk result (λ there. there ≡ false → LacksFile (state_of disk.now) folder.now (file_name_text name.now)) }
{
    let text = name.print(alloc)?;
    Ok(disk.file(folder, text.as_str()).is_some())
}

/// Whether the folder has files of these names, ascending, and no others.
pub fn has_names(disk: &MemDisk, names: &[&str]) -> bool {
    for place in 0..=names.len() {
        if disk.name_at(FOLDER, place) != names.get(place).copied() {
            return false;
        }
    }
    true
}
