//! Removing archives at handoffs.

ghost use Rattle.std.specs.Prelude.{◌≡◌, ◌≢◌, ◌≤◌, IfErr, IfOk, OnErr, OnOk, Some, length, string_bytes, ⊤};
ghost use Rattle.sw_disk.specs.Answers.{IsNotFull};
ghost use Rattle.sw_disk.specs.Runs.{IfTold, refusal_of};
ghost use Rattle.sw_disk.specs.declared.refusal.DiskRefusal.{DiskRefusal as ARefusal};
ghost use Rattle.sw_disk.specs.declared.refusal.DiskRefusal.TheVariants.{Failed};
ghost use Rattle.sw_hashpath.specs.Place.{IsPlace, folder_of};
ghost use Rattle.sw_hashdir.specs.Directory.{HasEntry};
ghost use Rattle.sw_suffix.specs.Table.{floor_at};
ghost use Rattle.sw_diskfile.specs.Changes.{Keeps};
ghost use Rattle.sw_diskfile.specs.Names.{IsDirectoryOf};
ghost use Rattle.sw_message.specs.Table.{HandlesRemove};
ghost use Rattle.sw_objsrv.specs.Changing.{Drops, LeavesOrder};
ghost use Rattle.sw_objsrv.specs.Folder.{HaveSameFloors, HaveSameOtherFloors, StaysInOrder};
ghost use Rattle.sw_objsrv.specs.Handling.{Handles};
ghost use Rattle.sw_objsrv.specs.Node.{IsUnchanging};

use crate::floor_change::FloorChange;
use crate::looking::{Looked, look_at};
use std::alloc::Global;
use sw_disk::{Disk, DiskRefusal};
use sw_diskfile::drop_entry;
use sw_hashdir::Entry;
use sw_hashpath::{FileName, Place};
use sw_message::Reply;
use sw_suffix::SuffixTable;
use sw_types::Stamp;

/// Removes an entry where the device is a handoff of the place. The table has the floor that is then there.
pub(crate) fn remove<D: Disk>(
    alloc: Global,
    disk: &mut D,
    floors: &mut SuffixTable,
    is_primary: bool,
    place: &Place,
    stamp: Stamp,
    index: u32,
) -> Result<Reply, DiskRefusal>
    requires place { IsPlace floors.old.power place.now }
    requires folder { length (folder_of place.now) ≤ 64 }
    ensures handles { Handles D.seen D.left_since (folder_of place.now) (HandlesRemove is_primary place.now stamp index) result disk.old disk.new }
    ensures order { OnOk result (StaysInOrder is_primary (folder_of place.now) (floor_at place.now floors.old.floors) (floor_at place.now floors.new.floors) (D.seen disk.old).told (D.seen disk.new).told) }
    ensures unmade { (reason : ARefusal) → refusal_of result ≡ Some reason → reason ≢ Failed → Keeps D.seen D.left_since (λ name. ⊤) disk.old disk.new }
    ensures others { HaveSameOtherFloors place.now floors.new.floors floors.old.floors }
    ensures floors { OnErr result (HaveSameFloors floors.new.floors floors.old.floors) }
    ensures same { IfOk result (λ reply. IsUnchanging reply → HaveSameFloors floors.new.floors floors.old.floors) }
    ensures power { floors.new.power ≡ floors.old.power }
{
    let looked = look_at(alloc, disk, place)?;
    if is_primary {
        return Ok(Reply::Kept);
    }
    let Some(entry) = looked.dir.entry(stamp, index) else {
        return Ok(Reply::Missing);
    };
    drop_found(alloc, disk, floors, place, &looked, &entry)?;
    Ok(Reply::Removed)
}

// Removes an entry that was found. The table is as before after a refusal.
fn drop_found<D: Disk>(
    alloc: Global,
    disk: &mut D,
    floors: &mut SuffixTable,
    place: &Place,
    looked: &Looked,
    entry: &Entry,
) -> Result<(), DiskRefusal>
    requires place { IsPlace floors.old.power place.now }
    requires folder { length (string_bytes looked.now.folder) ≤ 64 }
    requires directory { IfTold (D.seen disk.old).told (λ state. IsDirectoryOf (state.folder (string_bytes looked.now.folder)) looked.now.dir) }
    requires there { HasEntry looked.now.dir entry.now }
    ensures drops { Drops D.seen D.left_since (string_bytes looked.now.folder) entry.now (refusal_of result) disk.old disk.new }
    ensures order { OnOk result (LeavesOrder (string_bytes looked.now.folder) looked.now.dir (floor_at place.now floors.new.floors) (D.seen disk.old).told (D.seen disk.new).told) }
    ensures unmade { (reason : ARefusal) → refusal_of result ≡ Some reason → reason ≢ Failed → Keeps D.seen D.left_since (λ name. ⊤) disk.old disk.new }
    ensures others { HaveSameOtherFloors place.now floors.new.floors floors.old.floors }
    ensures floors { OnErr result (HaveSameFloors floors.new.floors floors.old.floors) }
    ensures power { floors.new.power ≡ floors.old.power }
    ensures never_full { IfErr result IsNotFull }
{
    let gone = FileName::Data {
        stamp: entry.stamp,
        index: entry.index,
        durable: entry.durable,
    };
    let after = looked.dir.without(alloc, gone)?.floor();
    let before = floors.floor(place);
    let floor = FloorChange { before, after };
    floor.reserve(floors, place)?;
    let change = drop_entry(alloc, disk, &looked.folder, *entry);
    floor.settle(floors, place, &change);
    change
}
