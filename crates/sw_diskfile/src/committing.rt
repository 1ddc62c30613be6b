//! Making archives durable.

ghost use Rattle.std.specs.Prelude.{◌≡◌, ◌≢◌, ◌<◌, ◌≤◌, true, false, [], ◌∷◌, IfErr, OnOk, Some, length, ⊤};
ghost use Rattle.sw_types.specs.Policy.{greatest_total};
ghost use Rattle.sw_disk.specs.Answers.{HasFile, IsNotFull, LacksFile};
ghost use Rattle.sw_disk.specs.Calls.{RenameFile};
ghost use Rattle.sw_disk.specs.Folder.{Rename};
ghost use Rattle.sw_disk.specs.Runs.{IfTold, Runs, TakesRoom, refusal_of};
ghost use Rattle.sw_disk.specs.declared.refusal.DiskRefusal.{DiskRefusal as ARefusal};
ghost use Rattle.sw_disk.specs.declared.refusal.DiskRefusal.TheVariants.{Failed};
ghost use Rattle.sw_hashpath.specs.FileName.{file_name_text};
ghost use Rattle.sw_hashpath.specs.declared.file_name.FileName.TheVariants.{Data};
ghost use Rattle.sw_diskfile.specs.Calls.{commit_calls};
ghost use Rattle.sw_diskfile.specs.Changes.{Changes, IfBothTold, IsMadeStable, Keeps};
ghost use Rattle.sw_diskfile.specs.Names.{MakesName};

use std::alloc::Global;
use sw_disk::{Disk, DiskRefusal};
use sw_hashpath::FileName;
use sw_types::Stamp;

/// Makes an archive of an index below 32 durable that is there and is not.
///
/// Its file gets the durable name in one change. Memory is taken before that.
pub fn commit<D: Disk>(
    alloc: Global,
    disk: &mut D,
    folder: &str,
    stamp: Stamp,
    index: u32,
) -> Result<(), DiskRefusal>
    requires folder { length folder.now ≤ 64 }
    requires index { index < greatest_total }
    requires there { IfTold (D.seen disk.old).told (λ state. HasFile state folder.now (file_name_text (Data stamp index false))) }
    requires new { IfTold (D.seen disk.old).told (λ state. LacksFile state folder.now (file_name_text (Data stamp index true))) }
    ensures runs { Runs D.seen D.left_since (commit_calls folder.now (file_name_text (Data stamp index false)) (file_name_text (Data stamp index true))) (refusal_of result) disk.old disk.new }
    ensures early { (reason : ARefusal) → refusal_of result ≡ Some reason → reason ≢ Failed → Runs D.seen D.left_since (RenameFile folder.now (file_name_text (Data stamp index false)) (file_name_text (Data stamp index true)) ∷ []) (Some reason) disk.old disk.new }
    ensures changes { Changes D.seen D.left_since folder.now (Rename (file_name_text (Data stamp index false)) (file_name_text (Data stamp index true)) ∷ []) (refusal_of result) disk.old disk.new }
    ensures directory { OnOk result (IfBothTold (D.seen disk.old) (D.seen disk.new) folder.now (MakesName (Data stamp index true))) }
    ensures stable { OnOk result (IfBothTold (D.seen disk.old) (D.seen disk.new) folder.now IsMadeStable) }
    ensures others { Keeps D.seen D.left_since (λ name. name ≢ folder.now) disk.old disk.new }
    ensures unmade { (reason : ARefusal) → refusal_of result ≡ Some reason → reason ≢ Failed → Keeps D.seen D.left_since (λ name. ⊤) disk.old disk.new }
    ensures room { TakesRoom folder.now (D.seen disk.old) (D.seen disk.new) }
    ensures never_full { IfErr result IsNotFull }
{
    commit_by_calls(alloc, disk, folder, stamp, index)
}

// The calls of a commit. Other refusals than a failure come before the first of them is done.
fn commit_by_calls<D: Disk>(
    alloc: Global,
    disk: &mut D,
    folder: &str,
    stamp: Stamp,
    index: u32,
) -> Result<(), DiskRefusal>
    requires folder { length folder.now ≤ 64 }
    requires index { index < greatest_total }
    requires there { IfTold (D.seen disk.old).told (λ state. HasFile state folder.now (file_name_text (Data stamp index false))) }
    requires new { IfTold (D.seen disk.old).told (λ state. LacksFile state folder.now (file_name_text (Data stamp index true))) }
    ensures runs { Runs D.seen D.left_since (commit_calls folder.now (file_name_text (Data stamp index false)) (file_name_text (Data stamp index true))) (refusal_of result) disk.old disk.new }
    ensures early { (reason : ARefusal) → refusal_of result ≡ Some reason → reason ≢ Failed → Runs D.seen D.left_since (RenameFile folder.now (file_name_text (Data stamp index false)) (file_name_text (Data stamp index true)) ∷ []) (Some reason) disk.old disk.new }
    ensures room { TakesRoom folder.now (D.seen disk.old) (D.seen disk.new) }
    ensures never_full { IfErr result IsNotFull }
{
    let plain = FileName::Data {
        stamp,
        index,
        durable: false,
    };
    let durable = FileName::Data {
        stamp,
        index,
        durable: true,
    };
    let plain = plain.print(alloc)?;
    let durable = durable.print(alloc)?;
    disk.ready(alloc, folder, 1)?;
    rename_synced(disk, folder, plain.as_str(), durable.as_str())
}

// Gives a file another name, and makes that stable.
fn rename_synced<D: Disk>(
    disk: &mut D,
    folder: &str,
    from: &str,
    to: &str,
) -> Result<(), DiskRefusal>
    requires folder { length folder.now ≤ 64 }
    requires from { length from.now ≤ 96 }
    requires to { length to.now ≤ 96 }
    requires there { IfTold (D.seen disk.old).told (λ state. HasFile state folder.now from.now) }
    requires new { IfTold (D.seen disk.old).told (λ state. LacksFile state folder.now to.now) }
    requires room { 0 < (D.seen disk.old).room folder.now }
    ensures runs { Runs D.seen D.left_since (commit_calls folder.now from.now to.now) (refusal_of result) disk.old disk.new }
    ensures room { TakesRoom folder.now (D.seen disk.old) (D.seen disk.new) }
    ensures cause { IfErr result (λ refusal. refusal ≡ Failed) }
{
    disk.rename(folder, from, to)?;
    disk.sync_dir(folder)
}
