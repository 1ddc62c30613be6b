//! A disk in memory.

ghost use Rattle.std.specs.Prelude.{◌≡◌, ◌^◌, ◌+◌, ◌-◌, ◌<◌, ◌≤◌, List, ℕ, false, true, IfErr, IfOk, OnErr, OnOk, [], min, Some, None, option_map, slice_get, sum_by};
ghost use Rattle.sw_words.specs.Counts.{last_count, one_more};
ghost use Rattle.sw_disk.specs.Answers.{AreFolders, IsListing, names_of, texts_of};
ghost use Rattle.sw_disk.specs.Folder.{IsImage, content_at};
ghost use Rattle.sw_disk.specs.State.{synced};
ghost use Rattle.sw_disk.specs.declared.refusal.DiskRefusal.TheVariants.{Failed};
ghost use Rattle.sw_memdisk.specs.Change.{AreShort, change_of};
ghost use Rattle.sw_memdisk.specs.Held.{content_of};
ghost use Rattle.sw_memdisk.specs.Lent.{LendsFiles};
ghost use Rattle.sw_memdisk.specs.Log.{IsSound, files_now, folder_of, with_change, with_sync};
ghost use Rattle.sw_memdisk.specs.Memory.{Becomes, IsRoomier, bytes_in, crashed, fails, fails_at, folder_at, log_at, room_at, state_of, used_by};

use crate::change::NameChange;
use crate::folder::MemFolder;
use crate::folders::{busy_names, change_in, crash_all, reserve_in, settle_in, size_in, total};
use crate::held::MemContent;
use std::alloc::Global;
use std::collections::BTreeMap;
use std::marker::Model;
use sw_disk::DiskRefusal;
use sw_types::NoMemory;

/// A disk in memory. It tells all that it holds, what a crash at each moment since a call began leaves, and which of its
/// device calls fail. A call that fails changes nothing. Files and names are found in time that grows with the logarithm of
/// the number of folders, and with the number of files of the one folder.
#[derive(Drop)]
pub struct MemDisk {
    capacity: u64,
    // The bytes of all files, at most `u64::MAX`.
    used: u64,
    calls: u64,
    faults: u64,
    failing: Vec<u64>,
    last: Option<u64>,
    temporary: Option<MemContent>,
    folders: BTreeMap<String, MemFolder>,
}

impl Model for MemDisk {
    ghost use Rattle.sw_memdisk.specs.Disk.{IsMemDisk, disk_model};
    ghost use Rattle.sw_memdisk.specs.Memory.{MemDiskModel};

    ghost Value = { MemDiskModel };

    ghost view = { disk_model };

    ghost invariant = { IsMemDisk };
}

impl MemDisk {
    /// An empty disk of so many bytes. The calls of these numbers, counted from 1, fail. It takes no memory.
    pub fn new(alloc: Global, capacity: u64, failing: Vec<u64>) -> MemDisk
        ensures { result ≡ record { capacity = capacity; calls = 0; faults = 0; failing = failing.items; last = None; temporary = None; folders = [] } }
    {
        MemDisk {
            capacity,
            used: 0,
            calls: 0,
            faults: 0,
            failing,
            last: None,
            temporary: None,
            folders: BTreeMap::new(alloc),
        }
    }

    /// After so many further device calls each one fails, until the disk crashes or is lost.
    pub fn fuse(&mut self, calls: u64)
        ensures { self.new ≡ record self.old { last = Some (min (self.old.calls + calls) last_count) } }
    {
        self.last = Some(self.calls.saturating_add(calls));
    }

    /// How many device calls were made, at most `u64::MAX`.
    pub fn calls(&self) -> u64
        ensures { result ≡ self.now.calls }
    {
        self.calls
    }

    /// Loses power: in each folder so many of the changes of names that are not stable are kept, at most all of them, the
    /// bytes that were not synced are zeros, and the temporary file is gone. The fuse goes, and the record of moments begins
    /// anew. It takes no memory.
    pub fn crash(&mut self, pick: u64)
        ensures crashed { self.new ≡ crashed pick self.old }
        ensures image { (name : List ℕ) → IsImage (folder_of (log_at self.old.folders name)) (files_now (log_at self.new.folders name)) }
    {
        self.last = None;
        self.temporary = None;
        crash_all(&mut self.folders, pick);
        self.used = total(&self.folders);
    }

    /// Loses all that it holds, as a new disk in its place does. The fuse goes. It takes no memory.
    pub fn lose(&mut self)
        ensures { self.new ≡ record self.old { last = None; temporary = None; folders = [] } }
    {
        self.last = None;
        self.temporary = None;
        self.folders.clear();
        self.used = 0;
    }

    /// The published name of a folder at a place of these, in ascending order, where there is one.
    pub fn name_at(&self, folder: &str, place: usize) -> Option<&str>
        ensures { (names : List (List ℕ)) → IsListing (names_of (files_now (log_at self.now.folders folder.now))) names →
            option_map (λ name. name.now) result ≡ slice_get names place }
    {
        self.folders.get(folder)?.name_at(place)
    }

    /// The bytes of a published file, where there is one.
    pub fn file(&self, folder: &str, name: &str) -> Option<&[u8]>
        ensures { option_map (λ bytes. bytes.now) result ≡ option_map (λ content. content.bytes) (content_at name.now (files_now (log_at self.now.folders folder.now))) }
    {
        self.folders.get(folder)?.find(name)
    }

    /// The bytes of the published files of a folder by their names, of each name those of the first file: it goes over the files
    /// once, and one is found in it in time that grows with the logarithm of their number. No device call is made.
    pub fn lend(&self, alloc: Global, folder: &str) -> Result<BTreeMap<&str, &[u8]>, NoMemory>
        ensures { IfOk result (LendsFiles (files_now (log_at self.now.folders folder.now))) }
    {
        match self.folders.get(folder) {
            Some(found) => found.lend(alloc),
            None => Ok(BTreeMap::new(alloc)),
        }
    }

    /// The names of a folder's files, ascending. No device call is made.
    pub fn names(&self, alloc: Global, folder: &str) -> Result<Vec<String>, NoMemory>
        ensures { IfOk result (λ names. IsListing (names_of (files_now (log_at self.now.folders folder.now))) (texts_of names.items)) }
    {
        match self.folders.get(folder) {
            Some(found) => found.names(alloc),
            None => Ok(Vec::new(alloc)),
        }
    }

    // Counts a device call, and fails where it is to fail.
    pub(crate) fn count(&mut self) -> Result<(), DiskRefusal>
        ensures goes_on { OnOk result (fails self.old (self.old.calls + 1) ≡ false) }
        ensures counted { OnOk result (self.new ≡ record self.old { calls = self.old.calls + 1 }) }
        ensures fails { OnErr result (fails self.old (self.old.calls + 1) ≡ true) }
        ensures failed { OnErr result (self.new ≡ record self.old { calls = one_more self.old.calls; faults = one_more self.old.faults }) }
        ensures cause { IfErr result (λ refusal. refusal ≡ Failed) }
        ensures sound { (name : List ℕ) → IsSound (log_at self.old.folders name) self.old.calls }
        ensures fits { self.old.calls ≤ last_count }
    {
        if self.calls == u64::MAX || is_to_fail(&self.failing, self.last, self.calls + 1) {
            self.calls = self.calls.saturating_add(1);
            self.faults = self.faults.saturating_add(1);
            return Err(DiskRefusal::Failed);
        }
        self.calls += 1;
        Ok(())
    }

    // How many bytes are free.
    pub(crate) fn free(&self) -> u64
        ensures { result ≡ self.now.capacity - used_by self.now.folders }
    {
        self.capacity.saturating_sub(self.used)
    }

    // Replaces the temporary file.
    pub(crate) fn set_temporary(&mut self, content: MemContent)
        ensures { self.new ≡ record self.old { temporary = Some (content_of content) } }
    {
        self.temporary = Some(content);
    }

    // Makes the bytes of the temporary file stable.
    pub(crate) fn sync_temporary(&mut self)
        ensures { self.new ≡ record self.old { temporary = synced self.old.temporary } }
    {
        if let Some(content) = &mut self.temporary {
            content.synced = true;
        }
    }

    // Hands out the temporary file.
    pub(crate) fn take_temporary(&mut self) -> Option<MemContent>
        ensures content { option_map content_of result ≡ self.old.temporary }
        ensures rest { self.new ≡ record self.old { temporary = None } }
    {
        self.temporary.take()
    }

    // Makes room for so many changes of names in a folder.
    pub(crate) fn reserve(
        &mut self,
        alloc: Global,
        folder: &str,
        changes: usize,
    ) -> Result<(), NoMemory>
        ensures roomier { IsRoomier self.old.folders self.new.folders }
        ensures room { OnOk result (changes ≤ room_at self.new.folders folder.now) }
        ensures rest { self.new ≡ record self.old { folders = self.new.folders } }
    {
        reserve_in(alloc, &mut self.folders, folder, changes)
    }

    // The names of the folders with a file or with a change of names that is not stable, ascending.
    pub(crate) fn busy(&self, alloc: Global) -> Result<Vec<String>, NoMemory>
        ensures folders { IfOk result (λ names. AreFolders (state_of self.now) (texts_of names.items)) }
        ensures used { IfOk result (λ names. used_by self.now.folders ≡ sum_by (λ name. bytes_in (folder_at self.now.folders name)) (texts_of names.items)) }
    {
        busy_names(alloc, &self.folders)
    }

    // Changes the names of a folder that has room for it.
    pub(crate) fn change(&mut self, folder: &str, change: NameChange)
        requires short { AreShort change }
        requires room { 0 < room_at self.old.folders folder.now }
        ensures becomes { Becomes self.old.folders self.new.folders folder.now (record {
          log = with_change (log_at self.old.folders folder.now) (change_of change.entry);
          room = room_at self.old.folders folder.now - 1;
        }) }
        ensures rest { self.new ≡ record self.old { folders = self.new.folders } }
    {
        let before = size_in(&self.folders, folder);
        change_in(&mut self.folders, folder, change);
        let after = size_in(&self.folders, folder);
        self.used = if self.used == u64::MAX {
            total(&self.folders)
        } else {
            (self.used - before).saturating_add(after)
        };
    }

    // Notes that all changes of a folder are stable from the last device call on.
    pub(crate) fn settle(&mut self, folder: &str)
        ensures becomes { Becomes self.old.folders self.new.folders folder.now (record {
          log = with_sync (log_at self.old.folders folder.now) self.old.calls;
          room = room_at self.old.folders folder.now;
        }) }
        ensures rest { self.new ≡ record self.old { folders = self.new.folders } }
    {
        settle_in(&mut self.folders, folder, self.calls);
    }
}

// Whether the device call of this number is to fail.
fn is_to_fail(failing: &[u64], last: Option<u64>, number: u64) -> bool
    requires { number < 2 ^ 64 }
    ensures { result ≡ fails_at failing.now last number }
{
    failing.contains(&number)
        || match last {
            None => false,
            Some(last) => last < number,
        }
}
