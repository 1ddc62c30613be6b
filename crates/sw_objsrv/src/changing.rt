//! Making a file, and removing what that makes obsolete.

ghost use Rattle.std.specs.Prelude.{◌≡◌, ◌≢◌, ◌<◌, ◌≤◌, ◌++◌, List, Option, IfErr, IfOk, OnErr, OnOk, Some, length, string_bytes, ⊤};
ghost use Rattle.std.specs.List.{All};
ghost use Rattle.sw_disk.specs.Answers.{IsNotFull, texts_of};
ghost use Rattle.sw_disk.specs.Runs.{IfTold, IsUntouched, Runs, TakesRoom, refusal_of};
ghost use Rattle.sw_disk.specs.declared.refusal.DiskRefusal.{DiskRefusal as ARefusal};
ghost use Rattle.sw_disk.specs.declared.refusal.DiskRefusal.TheVariants.{Failed, NoMemory as WantOfMemory};
ghost use Rattle.sw_hashpath.specs.FileName.{IsFileName};
ghost use Rattle.sw_hashpath.specs.Place.{IsPlace};
ghost use Rattle.sw_hashpath.specs.declared.file_name.FileName.{FileName as AFileName};
ghost use Rattle.sw_hashdir.specs.Directory.{IsFloor};
ghost use Rattle.sw_hashdir.specs.Obsolete.{IsAfter};
ghost use Rattle.sw_hashdir.specs.declared.floor.Floor.{Floor as AFloor};
ghost use Rattle.sw_suffix.specs.Table.{floor_at};
ghost use Rattle.sw_diskfile.specs.Calls.{purge_calls};
ghost use Rattle.sw_diskfile.specs.Changes.{IfBothTold, IsMadeStable, Keeps};
ghost use Rattle.sw_diskfile.specs.Names.{IsDirectoryOf, MakesName};
ghost use Rattle.sw_message.specs.Table.{ArePurged};
ghost use Rattle.sw_objsrv.specs.Changing.{IsNew, IsPlanned, IsReserved, MakesAndPurges, WantsMemoryFirst, make_calls};
ghost use Rattle.sw_objsrv.specs.Folder.{HaveSameFloors, HaveSameOtherFloors, IsInOrder};

use crate::floor_change::FloorChange;
use crate::looking::Looked;
use std::alloc::Global;
use sw_disk::{Disk, DiskRefusal};
use sw_diskfile::{bury, commit, obsolete_texts, purge};
use sw_hashdir::{Floor, HashDir};
use sw_hashpath::{FileName, Place};
use sw_suffix::SuffixTable;
use sw_types::NoMemory;

/// Makes a durable name, in place of its plain one, or a tombstone, in a folder that was looked at, and removes what that
/// makes obsolete. The table has the floor that is then there, and is as before after a refusal. All memory is taken before
/// the first change.
pub(crate) fn make_and_purge<D: Disk>(
    alloc: Global,
    disk: &mut D,
    floors: &mut SuffixTable,
    is_primary: bool,
    place: &Place,
    looked: &Looked,
    made: &FileName,
) -> Result<(), DiskRefusal>
    requires place { IsPlace floors.old.power place.now }
    requires folder { length (string_bytes looked.now.folder) ≤ 64 }
    requires directory { IfTold (D.seen disk.old).told (λ state. IsDirectoryOf (state.folder (string_bytes looked.now.folder)) looked.now.dir) }
    requires named { IsFileName made.now }
    requires new { IsNew looked.now.dir made.now }
    ensures makes { MakesAndPurges D.seen D.left_since (string_bytes looked.now.folder) is_primary made.now looked.now.dir (refusal_of result) disk.old disk.new }
    ensures order { OnOk result (IfTold (D.seen disk.new).told (λ state. IsInOrder is_primary (floor_at place.now floors.new.floors) (state.folder (string_bytes looked.now.folder)))) }
    ensures unmade { (reason : ARefusal) → refusal_of result ≡ Some reason → reason ≢ Failed → Keeps D.seen D.left_since (λ name. ⊤) disk.old disk.new }
    ensures others { HaveSameOtherFloors place.now floors.new.floors floors.old.floors }
    ensures floors { OnErr result (HaveSameFloors floors.new.floors floors.old.floors) }
    ensures power { floors.new.power ≡ floors.old.power }
    ensures never_full { IfErr result IsNotFull }
{
    let plan = prepare(alloc, disk, floors, is_primary, place, looked, made)?;
    let change = make_files(alloc, disk, is_primary, looked, made, &plan.obsolete);
    plan.floor.settle(floors, place, &change);
    change
}

// The change of the floor, and the names that will be obsolete.
#[derive(Debug, Drop)]
struct Plan {
    floor: FloorChange,
    obsolete: Vec<String>,
}

// Takes all memory for a file that is made.
fn prepare<D: Disk>(
    alloc: Global,
    disk: &mut D,
    floors: &mut SuffixTable,
    is_primary: bool,
    place: &Place,
    looked: &Looked,
    made: &FileName,
) -> Result<Plan, DiskRefusal>
    requires place { IsPlace floors.old.power place.now }
    requires folder { length (string_bytes looked.now.folder) ≤ 64 }
    requires named { IsFileName made.now }
    ensures planned { IfOk result (λ plan. IsPlanned is_primary made.now looked.now.dir plan.floor.after plan.obsolete.items) }
    ensures before { IfOk result (λ plan. plan.floor.before ≡ floor_at place.now floors.old.floors) }
    ensures reserved { IfOk result (λ plan. IsReserved place.now plan.floor floors.new.floors) }
    ensures room { IfOk result (λ plan. length plan.obsolete.items < (D.seen disk.new).room (string_bytes looked.now.folder)) }
    ensures untouched { IsUntouched D.seen D.left_since disk.old disk.new }
    ensures others { HaveSameOtherFloors place.now floors.new.floors floors.old.floors }
    ensures power { floors.new.power ≡ floors.old.power }
    ensures refused { OnErr result (floors.new ≡ floors.old) }
    ensures cause { IfErr result (λ refusal. refusal ≡ WantOfMemory) }
{
    let (after, obsolete) = plan_names(alloc, &looked.dir, is_primary, *made)?;
    disk.ready(alloc, &looked.folder, obsolete.len().saturating_add(1))?;
    let before = floors.floor(place);
    let floor = FloorChange { before, after };
    floor.reserve(floors, place)?;
    Ok(Plan { floor, obsolete })
}

// The floor once a file was made, and the names that are obsolete then.
fn plan_names(
    alloc: Global,
    dir: &HashDir,
    is_primary: bool,
    made: FileName,
) -> Result<(Option<Floor>, Vec<String>), NoMemory>
    requires { IsFileName made }
    ensures { IfOk result (λ plan. IsPlanned is_primary made dir.now plan.0 plan.1.items) }
{
    let later = dir.after(alloc, made)?;
    let obsolete = obsolete_texts(alloc, &later, is_primary)?;
    Ok((later.floor(), obsolete))
}

// Makes the file, and removes what is obsolete then.
fn make_files<D: Disk>(
    alloc: Global,
    disk: &mut D,
    is_primary: bool,
    looked: &Looked,
    made: &FileName,
    obsolete: &[String],
) -> Result<(), DiskRefusal>
    requires folder { length (string_bytes looked.now.folder) ≤ 64 }
    requires directory { IfTold (D.seen disk.old).told (λ state. IsDirectoryOf (state.folder (string_bytes looked.now.folder)) looked.now.dir) }
    requires named { IsFileName made.now }
    requires new { IsNew looked.now.dir made.now }
    requires purged { ArePurged is_primary made.now looked.now.dir (texts_of obsolete.now) }
    requires short { All (λ text. length (string_bytes text) ≤ 96) obsolete.now }
    requires room { length obsolete.now < (D.seen disk.old).room (string_bytes looked.now.folder) }
    ensures runs { Runs D.seen D.left_since (make_calls (string_bytes looked.now.folder) made.now ++ purge_calls (string_bytes looked.now.folder) (texts_of obsolete.now)) (refusal_of result) disk.old disk.new }
    ensures early { WantsMemoryFirst D.seen D.left_since (make_calls (string_bytes looked.now.folder) made.now) (refusal_of result) disk.old disk.new }
    ensures order { OnOk result ((later : List AFileName) (floor : Option AFloor) → IsAfter made.now looked.now.dir later → IsFloor later floor →
        IfTold (D.seen disk.new).told (λ state. IsInOrder is_primary floor (state.folder (string_bytes looked.now.folder)))) }
    ensures unmade { (reason : ARefusal) → refusal_of result ≡ Some reason → reason ≢ Failed → Keeps D.seen D.left_since (λ name. ⊤) disk.old disk.new }
    ensures never_full { IfErr result IsNotFull }
{
    make_file(alloc, disk, looked, *made)?;
    purge(disk, &looked.folder, is_primary, obsolete)
}

// Makes the file.
fn make_file<D: Disk>(
    alloc: Global,
    disk: &mut D,
    looked: &Looked,
    made: FileName,
) -> Result<(), DiskRefusal>
    requires folder { length (string_bytes looked.now.folder) ≤ 64 }
    requires directory { IfTold (D.seen disk.old).told (λ state. IsDirectoryOf (state.folder (string_bytes looked.now.folder)) looked.now.dir) }
    requires named { IsFileName made }
    requires new { IsNew looked.now.dir made }
    ensures runs { Runs D.seen D.left_since (make_calls (string_bytes looked.now.folder) made) (refusal_of result) disk.old disk.new }
    ensures early { WantsMemoryFirst D.seen D.left_since (make_calls (string_bytes looked.now.folder) made) (refusal_of result) disk.old disk.new }
    ensures directory { OnOk result (IfBothTold (D.seen disk.old) (D.seen disk.new) (string_bytes looked.now.folder) (MakesName made)) }
    ensures stable { OnOk result (IfBothTold (D.seen disk.old) (D.seen disk.new) (string_bytes looked.now.folder) IsMadeStable) }
    ensures unmade { (reason : ARefusal) → refusal_of result ≡ Some reason → reason ≢ Failed → Keeps D.seen D.left_since (λ name. ⊤) disk.old disk.new }
    ensures room { TakesRoom (string_bytes looked.now.folder) (D.seen disk.old) (D.seen disk.new) }
    ensures never_full { IfErr result IsNotFull }
{
    match made {
        FileName::Data { stamp, index, .. } => commit(alloc, disk, &looked.folder, stamp, index),
        FileName::Tombstone { stamp } => bury(alloc, disk, &looked.folder, stamp),
    }
}
