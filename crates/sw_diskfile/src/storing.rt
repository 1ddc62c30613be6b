//! Storing archives and tombstones.

ghost use Rattle.std.specs.Prelude.{◌≡◌, ◌≢◌, ◌⊎◌, ◌<◌, ◌≤◌, ℕ, false, [], ◌∷◌, IfErr, IsErrOf, IsSome, OnOk, Some, length, ⊤};
ghost use Rattle.sw_types.specs.Policy.{greatest_total};
ghost use Rattle.sw_disk.specs.Answers.{IsFull, IsNotFull, LacksFile};
ghost use Rattle.sw_disk.specs.Calls.{PublishTmp, SyncDir, SyncTmp, WriteTmp};
ghost use Rattle.sw_disk.specs.Runs.{IfTold, IsUntouched, Runs, TakesRoom, refusal_of};
ghost use Rattle.sw_disk.specs.State.{free_of};
ghost use Rattle.sw_disk.specs.declared.refusal.DiskRefusal.{DiskRefusal as ARefusal};
ghost use Rattle.sw_disk.specs.declared.refusal.DiskRefusal.TheVariants.{Failed, NoMemory};
ghost use Rattle.sw_hashpath.specs.FileName.{IsFileName, file_name_text};
ghost use Rattle.sw_hashpath.specs.declared.file_name.FileName.{FileName as AFileName};
ghost use Rattle.sw_hashpath.specs.declared.file_name.FileName.TheVariants.{Data, Tombstone};
ghost use Rattle.sw_hashdir.specs.Obsolete.{Replaces};
ghost use Rattle.sw_diskfile.specs.Calls.{store_calls};
ghost use Rattle.sw_diskfile.specs.Changes.{Changes, IfBothTold, IsMadeStable, Keeps, new_file};
ghost use Rattle.sw_diskfile.specs.Names.{MakesName};

use std::alloc::Global;
use sw_disk::{Disk, DiskRefusal};
use sw_hashpath::FileName;
use sw_types::Stamp;

/// Stores an archive of an index below 32, not durable, where its plain name is not there yet.
///
/// The disk may be full, as its `write_tmp` says, and is not told as want of memory: that comes before any device call, or where the
/// bytes fit. All memory is taken, and the room is known, before the first device call is done.
pub fn store<D: Disk>(
    alloc: Global,
    disk: &mut D,
    folder: &str,
    stamp: Stamp,
    index: u32,
    bytes: &[u8],
) -> Result<(), DiskRefusal>
    requires folder { length folder.now ≤ 64 }
    requires index { index < greatest_total }
    requires new { IfTold (D.seen disk.old).told (λ state. LacksFile state folder.now (file_name_text (Data stamp index false))) }
    ensures runs { Runs D.seen D.left_since (store_calls folder.now (file_name_text (Data stamp index false)) bytes.now) (refusal_of result) disk.old disk.new }
    ensures early { (reason : ARefusal) → refusal_of result ≡ Some reason → reason ≢ Failed → Runs D.seen D.left_since (WriteTmp bytes.now ∷ []) (Some reason) disk.old disk.new }
    ensures changes { Changes D.seen D.left_since folder.now (new_file (file_name_text (Data stamp index false)) bytes.now ∷ []) (refusal_of result) disk.old disk.new }
    ensures directory { OnOk result (IfBothTold (D.seen disk.old) (D.seen disk.new) folder.now (MakesName (Data stamp index false))) }
    ensures stable { OnOk result (IfBothTold (D.seen disk.old) (D.seen disk.new) folder.now IsMadeStable) }
    ensures others { Keeps D.seen D.left_since (λ name. name ≢ folder.now) disk.old disk.new }
    ensures unmade { (reason : ARefusal) → refusal_of result ≡ Some reason → reason ≢ Failed → Keeps D.seen D.left_since (λ name. ⊤) disk.old disk.new }
    ensures room { TakesRoom folder.now (D.seen disk.old) (D.seen disk.new) }
    ensures full { (need free : ℕ) → IsErrOf result (DiskRefusal.Full need free) → IsFull need free (length bytes.now) (D.seen disk.old).told }
    ensures fits { OnOk result (IfTold (D.seen disk.old).told (λ state. length bytes.now ≤ free_of state)) }
    ensures overfull { (reason : ARefusal) → refusal_of result ≡ Some reason → IfTold (D.seen disk.old).told (λ state. free_of state < length bytes.now → Runs D.seen D.left_since (WriteTmp bytes.now ∷ []) (Some reason) disk.old disk.new) }
    ensures memory { IsErrOf result NoMemory → IsUntouched D.seen D.left_since disk.old disk.new ⊎ IfTold (D.seen disk.old).told (λ state. length bytes.now ≤ free_of state) }
{
    let name = FileName::Data {
        stamp,
        index,
        durable: false,
    };
    make_file(alloc, disk, folder, &name, bytes)
}

/// Writes a tombstone, a file without bytes, where it is not there yet. All memory is taken
/// before the first device call is done.
pub fn bury<D: Disk>(
    alloc: Global,
    disk: &mut D,
    folder: &str,
    stamp: Stamp,
) -> Result<(), DiskRefusal>
    requires folder { length folder.now ≤ 64 }
    requires new { IfTold (D.seen disk.old).told (λ state. LacksFile state folder.now (file_name_text (Tombstone stamp))) }
    ensures runs { Runs D.seen D.left_since (store_calls folder.now (file_name_text (Tombstone stamp)) []) (refusal_of result) disk.old disk.new }
    ensures early { (reason : ARefusal) → refusal_of result ≡ Some reason → reason ≢ Failed → Runs D.seen D.left_since (WriteTmp [] ∷ []) (Some reason) disk.old disk.new }
    ensures changes { Changes D.seen D.left_since folder.now (new_file (file_name_text (Tombstone stamp)) [] ∷ []) (refusal_of result) disk.old disk.new }
    ensures directory { OnOk result (IfBothTold (D.seen disk.old) (D.seen disk.new) folder.now (MakesName (Tombstone stamp))) }
    ensures stable { OnOk result (IfBothTold (D.seen disk.old) (D.seen disk.new) folder.now IsMadeStable) }
    ensures others { Keeps D.seen D.left_since (λ name. name ≢ folder.now) disk.old disk.new }
    ensures unmade { (reason : ARefusal) → refusal_of result ≡ Some reason → reason ≢ Failed → Keeps D.seen D.left_since (λ name. ⊤) disk.old disk.new }
    ensures room { TakesRoom folder.now (D.seen disk.old) (D.seen disk.new) }
    ensures never_full { IfErr result IsNotFull }
{
    make_file(alloc, disk, folder, &FileName::Tombstone { stamp }, b"")
}

// Makes a file of a name that replaces no other.
fn make_file<D: Disk>(
    alloc: Global,
    disk: &mut D,
    folder: &str,
    name: &FileName,
    bytes: &[u8],
) -> Result<(), DiskRefusal>
    requires folder { length folder.now ≤ 64 }
    requires named { IsFileName name.now }
    requires plain { (other : AFileName) → Replaces name.now other → ⊥ }
    requires new { IfTold (D.seen disk.old).told (λ state. LacksFile state folder.now (file_name_text name.now)) }
    ensures runs { Runs D.seen D.left_since (store_calls folder.now (file_name_text name.now) bytes.now) (refusal_of result) disk.old disk.new }
    ensures early { (reason : ARefusal) → refusal_of result ≡ Some reason → reason ≢ Failed → Runs D.seen D.left_since (WriteTmp bytes.now ∷ []) (Some reason) disk.old disk.new }
    ensures changes { Changes D.seen D.left_since folder.now (new_file (file_name_text name.now) bytes.now ∷ []) (refusal_of result) disk.old disk.new }
    ensures directory { OnOk result (IfBothTold (D.seen disk.old) (D.seen disk.new) folder.now (MakesName name.now)) }
    ensures stable { OnOk result (IfBothTold (D.seen disk.old) (D.seen disk.new) folder.now IsMadeStable) }
    ensures others { Keeps D.seen D.left_since (λ name. name ≢ folder.now) disk.old disk.new }
    ensures unmade { (reason : ARefusal) → refusal_of result ≡ Some reason → reason ≢ Failed → Keeps D.seen D.left_since (λ name. ⊤) disk.old disk.new }
    ensures room { TakesRoom folder.now (D.seen disk.old) (D.seen disk.new) }
    ensures full { (need free : ℕ) → IsErrOf result (DiskRefusal.Full need free) → IsFull need free (length bytes.now) (D.seen disk.old).told }
    ensures fits { OnOk result (IfTold (D.seen disk.old).told (λ state. length bytes.now ≤ free_of state)) }
    ensures overfull { (reason : ARefusal) → refusal_of result ≡ Some reason → IfTold (D.seen disk.old).told (λ state. free_of state < length bytes.now → Runs D.seen D.left_since (WriteTmp bytes.now ∷ []) (Some reason) disk.old disk.new) }
    ensures memory { IsErrOf result NoMemory → IsUntouched D.seen D.left_since disk.old disk.new ⊎ IfTold (D.seen disk.old).told (λ state. length bytes.now ≤ free_of state) }
{
    file_by_calls(alloc, disk, folder, name, bytes)
}

// The calls that make a file. Other refusals than a failure come before the first of them is done.
fn file_by_calls<D: Disk>(
    alloc: Global,
    disk: &mut D,
    folder: &str,
    name: &FileName,
    bytes: &[u8],
) -> Result<(), DiskRefusal>
    requires folder { length folder.now ≤ 64 }
    requires named { IsFileName name.now }
    requires new { IfTold (D.seen disk.old).told (λ state. LacksFile state folder.now (file_name_text name.now)) }
    ensures runs { Runs D.seen D.left_since (store_calls folder.now (file_name_text name.now) bytes.now) (refusal_of result) disk.old disk.new }
    ensures early { (reason : ARefusal) → refusal_of result ≡ Some reason → reason ≢ Failed → Runs D.seen D.left_since (WriteTmp bytes.now ∷ []) (Some reason) disk.old disk.new }
    ensures room { TakesRoom folder.now (D.seen disk.old) (D.seen disk.new) }
    ensures full { (need free : ℕ) → IsErrOf result (DiskRefusal.Full need free) → IsFull need free (length bytes.now) (D.seen disk.old).told }
    ensures fits { OnOk result (IfTold (D.seen disk.old).told (λ state. length bytes.now ≤ free_of state)) }
    ensures overfull { (reason : ARefusal) → refusal_of result ≡ Some reason → IfTold (D.seen disk.old).told (λ state. free_of state < length bytes.now → Runs D.seen D.left_since (WriteTmp bytes.now ∷ []) (Some reason) disk.old disk.new) }
    ensures memory { IsErrOf result NoMemory → IsUntouched D.seen D.left_since disk.old disk.new ⊎ IfTold (D.seen disk.old).told (λ state. length bytes.now ≤ free_of state) }
{
    let text = name.print(alloc)?;
    disk.ready(alloc, folder, 1)?;
    disk.write_tmp(alloc, bytes)?;
    publish_synced(disk, folder, text.as_str())
}

// Makes the temporary file stable and moves it to a name.
fn publish_synced<D: Disk>(disk: &mut D, folder: &str, name: &str) -> Result<(), DiskRefusal>
    requires folder { length folder.now ≤ 64 }
    requires name { length name.now ≤ 96 }
    requires temporary { IfTold (D.seen disk.old).told (λ state. IsSome state.temporary) }
    requires new { IfTold (D.seen disk.old).told (λ state. LacksFile state folder.now name.now) }
    requires room { 0 < (D.seen disk.old).room folder.now }
    ensures runs { Runs D.seen D.left_since (SyncTmp ∷ PublishTmp folder.now name.now ∷ SyncDir folder.now ∷ []) (refusal_of result) disk.old disk.new }
    ensures room { TakesRoom folder.now (D.seen disk.old) (D.seen disk.new) }
    ensures cause { IfErr result (λ refusal. refusal ≡ Failed) }
{
    disk.sync_tmp()?;
    disk.publish(folder, name)?;
    disk.sync_dir(folder)
}
