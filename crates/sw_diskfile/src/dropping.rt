//! Removing archives.

ghost use Rattle.std.specs.Prelude.{◌≡◌, ◌≢◌, ◌<◌, ◌≤◌, [], ◌∷◌, IfErr, OnOk, Some, length, ⊤};
ghost use Rattle.sw_types.specs.Policy.{greatest_total};
ghost use Rattle.sw_disk.specs.Answers.{HasFile, IsNotFull};
ghost use Rattle.sw_disk.specs.Calls.{RemoveFile};
ghost use Rattle.sw_disk.specs.Folder.{Remove};
ghost use Rattle.sw_disk.specs.Runs.{IfTold, Runs, TakesRoom, refusal_of};
ghost use Rattle.sw_disk.specs.declared.refusal.DiskRefusal.{DiskRefusal as ARefusal};
ghost use Rattle.sw_disk.specs.declared.refusal.DiskRefusal.TheVariants.{Failed};
ghost use Rattle.sw_hashpath.specs.FileName.{file_name_text};
ghost use Rattle.sw_hashpath.specs.declared.file_name.FileName.TheVariants.{Data};
ghost use Rattle.sw_diskfile.specs.Calls.{drop_calls};
ghost use Rattle.sw_diskfile.specs.Changes.{Changes, IfBothTold, IsMadeStable, Keeps};
ghost use Rattle.sw_diskfile.specs.Names.{DropsName};

use std::alloc::Global;
use sw_disk::{Disk, DiskRefusal};
use sw_hashdir::Entry;
use sw_hashpath::FileName;

/// Removes an entry of an index below 32 that is there: the file of its name, durable or plain as the entry says.
///
/// A plain name beside a durable one is obsolete, and stays where the durable one is dropped: tidy the folder first. Memory
/// is taken before anything is changed.
pub fn drop_entry<D: Disk>(
    alloc: Global,
    disk: &mut D,
    folder: &str,
    entry: Entry,
) -> Result<(), DiskRefusal>
    requires folder { length folder.now ≤ 64 }
    requires index { entry.index < greatest_total }
    requires there { IfTold (D.seen disk.old).told (λ state. HasFile state folder.now (file_name_text (Data entry.stamp entry.index entry.durable))) }
    ensures runs { Runs D.seen D.left_since (drop_calls folder.now (file_name_text (Data entry.stamp entry.index entry.durable))) (refusal_of result) disk.old disk.new }
    ensures early { (reason : ARefusal) → refusal_of result ≡ Some reason → reason ≢ Failed → Runs D.seen D.left_since (RemoveFile folder.now (file_name_text (Data entry.stamp entry.index entry.durable)) ∷ []) (Some reason) disk.old disk.new }
    ensures changes { Changes D.seen D.left_since folder.now (Remove (file_name_text (Data entry.stamp entry.index entry.durable)) ∷ []) (refusal_of result) disk.old disk.new }
    ensures directory { OnOk result (IfBothTold (D.seen disk.old) (D.seen disk.new) folder.now (DropsName (Data entry.stamp entry.index entry.durable))) }
    ensures stable { OnOk result (IfBothTold (D.seen disk.old) (D.seen disk.new) folder.now IsMadeStable) }
    ensures others { Keeps D.seen D.left_since (λ name. name ≢ folder.now) disk.old disk.new }
    ensures unmade { (reason : ARefusal) → refusal_of result ≡ Some reason → reason ≢ Failed → Keeps D.seen D.left_since (λ name. ⊤) disk.old disk.new }
    ensures room { TakesRoom folder.now (D.seen disk.old) (D.seen disk.new) }
    ensures never_full { IfErr result IsNotFull }
{
    drop_by_calls(alloc, disk, folder, entry)
}

// The calls of a removal. Other refusals than a failure come before the first of them is done.
fn drop_by_calls<D: Disk>(
    alloc: Global,
    disk: &mut D,
    folder: &str,
    entry: Entry,
) -> Result<(), DiskRefusal>
    requires folder { length folder.now ≤ 64 }
    requires index { entry.index < greatest_total }
    requires there { IfTold (D.seen disk.old).told (λ state. HasFile state folder.now (file_name_text (Data entry.stamp entry.index entry.durable))) }
    ensures runs { Runs D.seen D.left_since (drop_calls folder.now (file_name_text (Data entry.stamp entry.index entry.durable))) (refusal_of result) disk.old disk.new }
    ensures early { (reason : ARefusal) → refusal_of result ≡ Some reason → reason ≢ Failed → Runs D.seen D.left_since (RemoveFile folder.now (file_name_text (Data entry.stamp entry.index entry.durable)) ∷ []) (Some reason) disk.old disk.new }
    ensures room { TakesRoom folder.now (D.seen disk.old) (D.seen disk.new) }
    ensures never_full { IfErr result IsNotFull }
{
    let name = FileName::Data {
        stamp: entry.stamp,
        index: entry.index,
        durable: entry.durable,
    };
    let text = name.print(alloc)?;
    disk.ready(alloc, folder, 1)?;
    remove_synced(disk, folder, text.as_str())
}

// Removes a file, and makes that stable.
fn remove_synced<D: Disk>(disk: &mut D, folder: &str, name: &str) -> Result<(), DiskRefusal>
    requires folder { length folder.now ≤ 64 }
    requires name { length name.now ≤ 96 }
    requires there { IfTold (D.seen disk.old).told (λ state. HasFile state folder.now name.now) }
    requires room { 0 < (D.seen disk.old).room folder.now }
    ensures runs { Runs D.seen D.left_since (drop_calls folder.now name.now) (refusal_of result) disk.old disk.new }
    ensures room { TakesRoom folder.now (D.seen disk.old) (D.seen disk.new) }
    ensures cause { IfErr result (λ refusal. refusal ≡ Failed) }
{
    disk.remove(folder, name)?;
    disk.sync_dir(folder)
}
