//! A disk of folders with named files.

ghost use Rattle.std.specs.Prelude.{◌≡◌, ℕ, ◌<◌, ◌≤◌, Bool, List, [], ◌∷◌, IfOk, IfErr, OnErr, OnOk, IsErrOf, IsSome, length, sum_by};
ghost use Rattle.std.specs.Cmp.Lexicographic.{slice_cmp};
ghost use Rattle.std.specs.List.Sorted.{IsSorted};
ghost use Rattle.std.specs.Ordering.{nat_cmp};
ghost use Rattle.sw_disk.specs.Folder.{File, IsImage, files_of};
ghost use Rattle.sw_disk.specs.Calls.{ListFolders, ListNames, ReadFile, WriteTmp, SyncTmp, PublishTmp, RenameFile, RemoveFile, SyncDir};
ghost use Rattle.sw_disk.specs.State.{State, free_of, size_of};
ghost use Rattle.sw_disk.specs.Runs.{Seen, Runs, IfTold, IsCounted, IsTelling, IsUntouched, refusal_of, KeepsRoom, TakesRoom};
ghost use Rattle.sw_disk.specs.Answers.{names_of, texts_of, HasBytes, HasFile, LacksFile, IsListing, AreFolders, IsFull, IsNotFull};
ghost use Rattle.sw_disk.specs.declared.refusal.DiskRefusal.TheVariants.{Failed, NoMemory};

use crate::refusal::DiskRefusal;
use std::alloc::Global;
use sw_types::Bytes;

/// A disk of folders with named files, and one temporary file.
///
/// Changes of names within a folder take effect in their order, and are stable once the folder was synced. A crash
/// leaves some first part of those that are not. A file whose bytes were not synced may hold any bytes of its length
/// after a crash. The temporary file is gone then.
///
/// The name of a folder has at most 64 bytes, that of a file at most 96. Each call but `ready` is a call of the device.
/// Where the disk does not tell what it holds, a missing file is a failure.
pub trait Disk {
    /// What contracts see of it.
    ghost seen: { Self → Seen };

    /// What a crash at some moment from that one on may have left in a folder.
    ghost left_since: { Self → ℕ → List ℕ → List File → Type 0 };

    /// Whether disks of this type tell what they hold.
    ghost tells: { Bool };

    /// The folders with a file or with a change of names that is not stable, ascending. Their files are all that use bytes.
    fn folders(&mut self, alloc: Global) -> Result<Vec<String>, DiskRefusal>
        ensures folders { IfOk result (λ names. IfTold (seen self.old).told (λ state. AreFolders state (texts_of names.items))) }
        ensures used { IfOk result (λ names. IfTold (seen self.old).told (λ state. state.used ≡ sum_by (λ name. size_of (state.folder name)) (texts_of names.items))) }
        ensures sorted { IfOk result (λ names. IsSorted (slice_cmp nat_cmp) (texts_of names.items)) }
        ensures runs { Runs seen left_since (ListFolders ∷ []) (refusal_of result) self.old self.new }
        ensures counted { IsCounted (seen self.old) (seen self.new) (refusal_of result) }
        ensures room { KeepsRoom (seen self.old) (seen self.new) }
        ensures never_full { IfErr result IsNotFull };

    /// The names of a folder's files, ascending: none for an unknown folder.
    fn list(&mut self, alloc: Global, folder: &str) -> Result<Vec<String>, DiskRefusal>
        requires { length folder.now ≤ 64 }
        ensures names { IfOk result (λ names. IfTold (seen self.old).told (λ state. IsListing (names_of (files_of (state.folder folder.now))) (texts_of names.items))) }
        ensures sorted { IfOk result (λ names. IsSorted (slice_cmp nat_cmp) (texts_of names.items)) }
        ensures runs { Runs seen left_since (ListNames folder.now ∷ []) (refusal_of result) self.old self.new }
        ensures counted { IsCounted (seen self.old) (seen self.new) (refusal_of result) }
        ensures room { KeepsRoom (seen self.old) (seen self.new) }
        ensures never_full { IfErr result IsNotFull };

    /// A file's bytes.
    fn read(&mut self, alloc: Global, folder: &str, name: &str) -> Result<Bytes, DiskRefusal>
        requires folder { length folder.now ≤ 64 }
        requires name { length name.now ≤ 96 }
        requires there { IfTold (seen self.old).told (λ state. HasFile state folder.now name.now) }
        ensures bytes { IfOk result (λ bytes. IfTold (seen self.old).told (λ state. HasBytes state folder.now name.now bytes)) }
        ensures runs { Runs seen left_since (ReadFile folder.now name.now ∷ []) (refusal_of result) self.old self.new }
        ensures counted { IsCounted (seen self.old) (seen self.new) (refusal_of result) }
        ensures room { KeepsRoom (seen self.old) (seen self.new) }
        ensures never_full { IfErr result IsNotFull };

    /// Makes room so that so many changes of names in a folder take no memory. It never lowers the room that is there.
    fn ready(&mut self, alloc: Global, folder: &str, changes: usize) -> Result<(), DiskRefusal>
        requires { length folder.now ≤ 64 }
        ensures ok { OnOk result (changes ≤ (seen self.new).room folder.now) }
        ensures untouched { IsUntouched seen left_since self.old self.new }
        ensures room { KeepsRoom (seen self.old) (seen self.new) }
        ensures cause { IfErr result (λ refusal. refusal ≡ NoMemory) };

    /// Replaces the temporary file. The disk is full where the bytes are more than its capacity less those of all
    /// published files; the old bytes of the temporary file don't count. Memory is wanted only where the bytes fit.
    fn write_tmp(&mut self, alloc: Global, bytes: &[u8]) -> Result<(), DiskRefusal>
        ensures full { (need free : ℕ) → IsErrOf result (DiskRefusal.Full need free) → IsFull need free (length bytes.now) (seen self.old).told }
        ensures fits { OnOk result (IfTold (seen self.old).told (λ state. length bytes.now ≤ free_of state)) }
        ensures memory { IsErrOf result NoMemory → IfTold (seen self.old).told (λ state. length bytes.now ≤ free_of state) }
        ensures runs { Runs seen left_since (WriteTmp bytes.now ∷ []) (refusal_of result) self.old self.new }
        ensures counted { IsCounted (seen self.old) (seen self.new) (refusal_of result) }
        ensures room { KeepsRoom (seen self.old) (seen self.new) };

    /// Makes the bytes of the temporary file stable.
    fn sync_tmp(&mut self) -> Result<(), DiskRefusal>
        requires { IfTold (seen self.old).told (λ state. IsSome state.temporary) }
        ensures runs { Runs seen left_since (SyncTmp ∷ []) (refusal_of result) self.old self.new }
        ensures counted { IsCounted (seen self.old) (seen self.new) (refusal_of result) }
        ensures room { KeepsRoom (seen self.old) (seen self.new) }
        ensures cause { IfErr result (λ refusal. refusal ≡ Failed) };

    /// Moves the temporary file to a name that is not there.
    fn publish(&mut self, folder: &str, name: &str) -> Result<(), DiskRefusal>
        requires folder { length folder.now ≤ 64 }
        requires name { length name.now ≤ 96 }
        requires temporary { IfTold (seen self.old).told (λ state. IsSome state.temporary) }
        requires new { IfTold (seen self.old).told (λ state. LacksFile state folder.now name.now) }
        requires room { 0 < (seen self.old).room folder.now }
        ensures runs { Runs seen left_since (PublishTmp folder.now name.now ∷ []) (refusal_of result) self.old self.new }
        ensures counted { IsCounted (seen self.old) (seen self.new) (refusal_of result) }
        ensures room { TakesRoom folder.now (seen self.old) (seen self.new) }
        ensures kept { OnErr result (KeepsRoom (seen self.old) (seen self.new)) }
        ensures cause { IfErr result (λ refusal. refusal ≡ Failed) };

    /// Gives a file another name of its folder, which is not there.
    fn rename(&mut self, folder: &str, from: &str, to: &str) -> Result<(), DiskRefusal>
        requires folder { length folder.now ≤ 64 }
        requires from { length from.now ≤ 96 }
        requires to { length to.now ≤ 96 }
        requires there { IfTold (seen self.old).told (λ state. HasFile state folder.now from.now) }
        requires new { IfTold (seen self.old).told (λ state. LacksFile state folder.now to.now) }
        requires room { 0 < (seen self.old).room folder.now }
        ensures runs { Runs seen left_since (RenameFile folder.now from.now to.now ∷ []) (refusal_of result) self.old self.new }
        ensures counted { IsCounted (seen self.old) (seen self.new) (refusal_of result) }
        ensures room { TakesRoom folder.now (seen self.old) (seen self.new) }
        ensures kept { OnErr result (KeepsRoom (seen self.old) (seen self.new)) }
        ensures cause { IfErr result (λ refusal. refusal ≡ Failed) };

    /// Removes a file.
    fn remove(&mut self, folder: &str, name: &str) -> Result<(), DiskRefusal>
        requires folder { length folder.now ≤ 64 }
        requires name { length name.now ≤ 96 }
        requires there { IfTold (seen self.old).told (λ state. HasFile state folder.now name.now) }
        requires room { 0 < (seen self.old).room folder.now }
        ensures runs { Runs seen left_since (RemoveFile folder.now name.now ∷ []) (refusal_of result) self.old self.new }
        ensures counted { IsCounted (seen self.old) (seen self.new) (refusal_of result) }
        ensures room { TakesRoom folder.now (seen self.old) (seen self.new) }
        ensures kept { OnErr result (KeepsRoom (seen self.old) (seen self.new)) }
        ensures cause { IfErr result (λ refusal. refusal ≡ Failed) };

    /// Makes the changes of names of a folder stable.
    fn sync_dir(&mut self, folder: &str) -> Result<(), DiskRefusal>
        requires { length folder.now ≤ 64 }
        ensures runs { Runs seen left_since (SyncDir folder.now ∷ []) (refusal_of result) self.old self.new }
        ensures counted { IsCounted (seen self.old) (seen self.new) (refusal_of result) }
        ensures room { KeepsRoom (seen self.old) (seen self.new) }
        ensures cause { IfErr result (λ refusal. refusal ≡ Failed) };

    ghost telling: { (disk : Self) → IsTelling tells (seen disk).told };

    /// The bytes of a folder's files are among those that are used.
    ghost within: { (disk : Self) (folder : List ℕ) → IfTold (seen disk).told (λ state. size_of (state.folder folder) ≤ state.used) };

    /// A crash now leaves what it may leave, and nothing else.
    ghost now: { (disk : Self) (folder : List ℕ) (image : List File) →
        IfTold (seen disk).told (λ state. IsImage (state.folder folder) image → left_since disk (seen disk).moment folder image) };

    ghost only_now: { (disk : Self) (folder : List ℕ) (image : List File) → left_since disk (seen disk).moment folder image →
        IfTold (seen disk).told (λ state. IsImage (state.folder folder) image) };

    /// What a crash may have left since a moment, it may have left since an earlier one.
    ghost earlier: { (disk : Self) (since later : ℕ) (folder : List ℕ) (image : List File) → since ≤ later →
        left_since disk later folder image → left_since disk since folder image };
}
