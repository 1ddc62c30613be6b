//! A folder in memory: its files, and the record of its changes of names.

ghost use Rattle.std.specs.Prelude.{◌≡◌, ◌↔◌, ◌+◌, ◌<◌, ◌≤◌, List, ℕ, IfOk, IsTrue, OnOk, count_by, length, min, option_map, slice_get};
ghost use Rattle.std.specs.Cmp.Lexicographic.{slice_cmp};
ghost use Rattle.std.specs.Ordering.{is_le, is_lt, nat_cmp};
ghost use Rattle.sw_words.specs.Counts.{last_count};
ghost use Rattle.sw_disk.specs.Answers.{IsBusy, IsListing, names_of, texts_of};
ghost use Rattle.sw_disk.specs.Folder as change;
ghost use Rattle.sw_disk.specs.Folder.{content_at};
ghost use Rattle.sw_disk.specs.State.{size_of};
ghost use Rattle.sw_memdisk.specs.Change.{AreShort, change_of};
ghost use Rattle.sw_memdisk.specs.Held.{content_of};
ghost use Rattle.sw_memdisk.specs.Lent.{LendsFiles};
ghost use Rattle.sw_memdisk.specs.Log.{crashed_log, empty_log, files_now, folder_of, with_change, with_sync};

use crate::change::NameChange;
use crate::held::{Held, MemContent, Move, apply_all, copy_files, label, lose_all, note};
use std::alloc::Global;
use std::collections::BTreeMap;
use std::marker::Model;
use sw_types::NoMemory;

/// A folder. Its changes of names take no memory while it has room for them.
#[derive(Debug, Drop)]
pub(crate) struct MemFolder {
    // Each content that a file had since the first files.
    contents: Vec<MemContent>,
    // The files at first, all of them stable.
    base: Vec<Held>,
    // The files now.
    files: Vec<Held>,
    // The changes of names since the first files.
    changes: Vec<Move>,
    // The device calls at which the first of the changes became stable.
    stable_at: Vec<u64>,
    // For how many changes more there is room.
    room: usize,
}

impl Model for MemFolder {
    ghost use Rattle.sw_memdisk.specs.Folder.{IsFolder, log_of};
    ghost use Rattle.sw_memdisk.specs.Memory.{FolderModel};

    ghost Value = { FolderModel };

    ghost view = { λ f. record { log = log_of f; room = f.room } };

    ghost invariant = { IsFolder };
}

impl MemFolder {
    /// No file, and no room.
    pub(crate) fn new(alloc: Global) -> MemFolder
        ensures { result ≡ record { log = empty_log; room = 0 } }
    {
        MemFolder {
            contents: Vec::new(alloc),
            base: Vec::new(alloc),
            files: Vec::new(alloc),
            changes: Vec::new(alloc),
            stable_at: Vec::new(alloc),
            room: 0,
        }
    }

    /// Makes room for so many changes of names.
    pub(crate) fn reserve(&mut self, room: usize) -> Result<(), NoMemory>
        ensures log { self.new.log ≡ self.old.log }
        ensures kept { self.old.room ≤ self.new.room }
        ensures room { OnOk result (room ≤ self.new.room) }
    {
        if room <= self.room {
            return Ok(());
        }
        let changes = self.changes.len().checked_add(room).ok_or(NoMemory)?;
        let files = self.base.len().checked_add(changes).ok_or(NoMemory)?;
        self.contents.reserve(room)?;
        self.changes.reserve(room)?;
        self.stable_at
            .reserve(changes.saturating_sub(self.stable_at.len()))?;
        self.base.reserve(changes)?;
        self.files.reserve(files.saturating_sub(self.files.len()))?;
        self.room = room;
        Ok(())
    }

    /// Keeps a content under a name.
    pub(crate) fn publish(&mut self, name: &str, content: MemContent)
        requires name { length name.now ≤ 96 }
        requires room { 0 < self.old.room }
        ensures log { self.new.log ≡ with_change self.old.log (change.Publish (record { name = name.now; content = content_of content })) }
        ensures room { self.new.room + 1 ≡ self.old.room }
    {
        let held = Held {
            name: label(name),
            content: self.contents.len(),
        };
        self.contents.push_reserved(content);
        note(&mut self.files, &mut self.changes, Move::Publish(held));
        self.room -= 1;
    }

    /// Gives the files of one name another.
    pub(crate) fn rename(&mut self, from: &str, to: &str)
        requires from { length from.now ≤ 96 }
        requires to { length to.now ≤ 96 }
        requires room { 0 < self.old.room }
        ensures log { self.new.log ≡ with_change self.old.log (change.Rename from.now to.now) }
        ensures room { self.new.room + 1 ≡ self.old.room }
    {
        let change = Move::Rename(label(from), label(to));
        note(&mut self.files, &mut self.changes, change);
        self.room -= 1;
    }

    /// Removes the files of a name.
    pub(crate) fn remove(&mut self, name: &str)
        requires name { length name.now ≤ 96 }
        requires room { 0 < self.old.room }
        ensures log { self.new.log ≡ with_change self.old.log (change.Remove name.now) }
        ensures room { self.new.room + 1 ≡ self.old.room }
    {
        let change = Move::Remove(label(name));
        note(&mut self.files, &mut self.changes, change);
        self.room -= 1;
    }

    /// Does a change of names.
    pub(crate) fn change(&mut self, change: NameChange)
        requires short { AreShort change }
        requires room { 0 < self.old.room }
        ensures log { self.new.log ≡ with_change self.old.log (change_of change.entry) }
        ensures room { self.new.room + 1 ≡ self.old.room }
    {
        match change {
            NameChange::Publish(name, content) => self.publish(name, content),
            NameChange::Rename(from, to) => self.rename(from, to),
            NameChange::Remove(name) => self.remove(name),
        }
    }

    /// Notes that all changes are stable from this device call on.
    pub(crate) fn sync(&mut self, call: u64)
        ensures log { self.new.log ≡ with_sync self.old.log call }
        ensures room { self.new.room ≡ self.old.room }
    {
        'changes: while self.stable_at.len() < self.changes.len() {
            self.stable_at.push_reserved(call);
        }
    }

    /// Loses all but so many of the changes that are not stable, and the bytes that were not synced, which become zeros.
    /// The record begins anew.
    pub(crate) fn crash(&mut self, pick: u64)
        ensures log { self.new.log ≡ crashed_log pick self.old.log }
        ensures room { self.new.room ≡ self.old.room }
    {
        let stable = self.stable_at.len();
        let pending = self.changes.len() - stable;
        let kept = stable + pick.min(pending as u64) as usize;
        apply_all(&mut self.base, &self.changes[..kept]);
        copy_files(&mut self.files, &self.base);
        self.changes.clear();
        self.stable_at.clear();
        lose_all(&mut self.contents);
    }

    /// The bytes of the first file of a name, where there is one.
    pub(crate) fn find(&self, name: &str) -> Option<&[u8]>
        ensures { option_map (λ bytes. bytes.now) result ≡ option_map (λ content. content.bytes) (content_at name.now (files_now self.now.log)) }
    {
        let held = self.files.iter().find(|held| held.name.as_str() == name)?;
        Some(self.contents[held.content].bytes.as_slice())
    }

    /// The bytes of the files by their names, of each name those of the first file.
    pub(crate) fn lend(&self, alloc: Global) -> Result<BTreeMap<&str, &[u8]>, NoMemory>
        ensures { IfOk result (LendsFiles (files_now self.now.log)) }
    {
        let mut lent = BTreeMap::new(alloc);
        let mut place = self.files.len();
        'files: while place > 0 {
            place -= 1;
            let held = &self.files[place];
            let bytes = self.contents[held.content].bytes.as_slice();
            lent.insert(held.name.as_str(), bytes)?;
        }
        Ok(lent)
    }

    /// The names of the files, ascending.
    pub(crate) fn names(&self, alloc: Global) -> Result<Vec<String>, NoMemory>
        ensures { IfOk result (λ names. IsListing (names_of (files_now self.now.log)) (texts_of names.items)) }
    {
        let mut names = Vec::with_capacity(alloc, self.files.len())?;
        for held in &self.files {
            names.push(String::from_str(alloc, held.name.as_str())?)?;
        }
        names.sort_unstable();
        Ok(names)
    }

    /// The name at a place of these, where there is one. It takes no memory.
    pub(crate) fn name_at(&self, place: usize) -> Option<&str>
        ensures { (names : List (List ℕ)) → IsListing (names_of (files_now self.now.log)) names → option_map (λ name. name.now) result ≡ slice_get names place }
    {
        for held in &self.files {
            let name = held.name.as_str();
            let before = count_before(&self.files, name);
            let up_to = count_up_to(&self.files, name);
            if before <= place && place < up_to {
                return Some(name);
            }
        }
        None
    }

    /// How many bytes the files have, at most `u64::MAX`.
    pub(crate) fn size(&self) -> u64
        ensures { result ≡ min (size_of (folder_of self.now.log)) last_count }
    {
        let mut size: u64 = 0;
        for held in &self.files {
            size = size.saturating_add(self.contents[held.content].bytes.len() as u64);
        }
        size
    }

    /// Whether there is a file, or a change of names that is not stable.
    pub(crate) fn is_busy(&self) -> bool
        ensures { IsTrue result ↔ IsBusy (folder_of self.now.log) }
    {
        !self.files.is_empty() || self.stable_at.len() < self.changes.len()
    }
}

// How many files have a name before this one.
fn count_before(files: &[Held], name: &str) -> usize
    ensures { result ≡ count_by (λ held. is_lt (slice_cmp nat_cmp held.name.bytes name.now)) files.now }
{
    files
        .iter()
        .filter(|held| held.name.as_str() < name)
        .count()
}

// How many files have this name or one before it.
fn count_up_to(files: &[Held], name: &str) -> usize
    ensures { result ≡ count_by (λ held. is_le (slice_cmp nat_cmp held.name.bytes name.now)) files.now }
{
    files
        .iter()
        .filter(|held| held.name.as_str() <= name)
        .count()
}
