//! The folders of a disk in memory, by their names.

ghost use Rattle.std.specs.Prelude.{◌≡◌, ◌-◌, ◌<◌, ◌≤◌, IfOk, OnOk, map, min};
ghost use Rattle.sw_words.specs.Counts.{last_count};
ghost use Rattle.sw_disk.specs.Answers.{texts_of};
ghost use Rattle.sw_memdisk.specs.Change.{AreShort, change_of};
ghost use Rattle.sw_memdisk.specs.Disk.{kept_in};
ghost use Rattle.sw_memdisk.specs.Log.{with_change, with_sync};
ghost use Rattle.sw_memdisk.specs.Memory.{Becomes, IsAscending, IsRoomier, busy_in, bytes_in, crashed_kept, folder_at, log_at, room_at, used_by};

use crate::change::NameChange;
use crate::folder::MemFolder;
use std::alloc::Global;
use std::collections::BTreeMap;
use sw_types::NoMemory;

/// Folders by their names.
pub(crate) type Folders = BTreeMap<String, MemFolder>;

/// Changes the names of a folder that has room for it.
pub(crate) fn change_in(folders: &mut Folders, folder: &str, change: NameChange)
    requires short { AreShort change }
    requires room { 0 < room_at (kept_in folders.old) folder.now }
    ensures { Becomes (kept_in folders.old) (kept_in folders.new) folder.now (record {
      log = with_change (log_at (kept_in folders.old) folder.now) (change_of change.entry);
      room = room_at (kept_in folders.old) folder.now - 1;
    }) }
{
    if let Some(found) = folders.get_mut(folder) {
        found.change(change);
    }
}

/// Notes that all changes of a folder are stable from this device call on.
pub(crate) fn settle_in(folders: &mut Folders, folder: &str, call: u64)
    ensures { Becomes (kept_in folders.old) (kept_in folders.new) folder.now (record {
      log = with_sync (log_at (kept_in folders.old) folder.now) call;
      room = room_at (kept_in folders.old) folder.now;
    }) }
{
    if let Some(found) = folders.get_mut(folder) {
        found.sync(call);
    }
}

/// How many bytes the files of a folder have, at most `u64::MAX`.
pub(crate) fn size_in(folders: &Folders, folder: &str) -> u64
    ensures { result ≡ min (bytes_in (folder_at (kept_in folders.now) folder.now)) last_count }
{
    match folders.get(folder) {
        Some(found) => found.size(),
        None => 0,
    }
}

/// How many bytes all files have, at most `u64::MAX`.
pub(crate) fn total(folders: &Folders) -> u64
    ensures { result ≡ min (used_by (kept_in folders.now)) last_count }
{
    let mut total: u64 = 0;
    for folder in folders.values() {
        total = total.saturating_add(folder.size());
    }
    total
}

/// Makes room for so many changes of names in a folder, which is there from then on.
pub(crate) fn reserve_in(
    alloc: Global,
    folders: &mut Folders,
    folder: &str,
    changes: usize,
) -> Result<(), NoMemory>
    ensures roomier { IsRoomier (kept_in folders.old) (kept_in folders.new) }
    ensures room { OnOk result (changes ≤ room_at (kept_in folders.new) folder.now) }
{
    if let Some(found) = folders.get_mut(folder) {
        return found.reserve(changes);
    }
    let mut new = MemFolder::new(alloc);
    new.reserve(changes)?;
    let name = String::from_str(alloc, folder)?;
    folders.insert(name, new)?;
    Ok(())
}

/// The names of the folders with a file or with a change of names that is not stable, ascending.
pub(crate) fn busy_names(alloc: Global, folders: &Folders) -> Result<Vec<String>, NoMemory>
    ensures names { IfOk result (λ names. texts_of names.items ≡ busy_in (kept_in folders.now)) }
    ensures ordered { IsAscending (kept_in folders.now) }
{
    let mut names = Vec::new(alloc);
    for (name, folder) in folders.iter() {
        if folder.is_busy() {
            names.push(name.clone()?)?;
        }
    }
    Ok(names)
}

/// Crashes each folder, and keeps them all.
pub(crate) fn crash_all(folders: &mut Folders, pick: u64)
    ensures { kept_in folders.new ≡ map (crashed_kept pick) (kept_in folders.old) }
{
    folders.retain(|_, folder| {
        folder.crash(pick);
        true
    });
}
