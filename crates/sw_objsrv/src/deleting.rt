//! Writing tombstones.

ghost use Rattle.std.specs.Prelude.{◌≡◌, ◌≢◌, ◌<◌, ◌≤◌, ◌↔◌, ◌⊎◌, true, IsTrue, MatchOption, IfOk, OnErr, OnOk, Some, length, ⊤};
ghost use Rattle.sw_types.specs.Stamp.{greatest_stamp};
ghost use Rattle.sw_disk.specs.Runs.{refusal_of};
ghost use Rattle.sw_disk.specs.declared.refusal.DiskRefusal.{DiskRefusal as ARefusal};
ghost use Rattle.sw_disk.specs.declared.refusal.DiskRefusal.TheVariants.{Failed};
ghost use Rattle.sw_hashpath.specs.Place.{IsPlace, folder_of};
ghost use Rattle.sw_hashdir.specs.declared.floor.FloorKind.TheVariants.{Durable};
ghost use Rattle.sw_suffix.specs.Table.{floor_at};
ghost use Rattle.sw_diskfile.specs.Changes.{Keeps};
ghost use Rattle.sw_message.specs.Table.{Allows, HandlesDelete, HasDurableFloor, Refuses};
ghost use Rattle.sw_objsrv.specs.Folder.{HaveSameFloors, HaveSameOtherFloors, StaysInOrder};
ghost use Rattle.sw_objsrv.specs.Handling.{Handles};
ghost use Rattle.sw_objsrv.specs.Node.{IsUnchanging};

use crate::changing::make_and_purge;
use crate::looking::look_at;
use std::alloc::Global;
use sw_disk::{Disk, DiskRefusal};
use sw_hashdir::{Floor, FloorKind, HashDir};
use sw_hashpath::{FileName, Place};
use sw_message::Reply;
use sw_suffix::SuffixTable;
use sw_types::Stamp;

/// Writes a tombstone unless the floor refuses it, and removes what that makes obsolete. The table has the floor that is
/// then there.
pub(crate) fn delete<D: Disk>(
    alloc: Global,
    disk: &mut D,
    floors: &mut SuffixTable,
    is_primary: bool,
    place: &Place,
    stamp: Stamp,
) -> Result<Reply, DiskRefusal>
    requires place { IsPlace floors.old.power place.now }
    requires folder { length (folder_of place.now) ≤ 64 }
    ensures handles { Handles D.seen D.left_since (folder_of place.now) (HandlesDelete is_primary place.now stamp) result disk.old disk.new }
    ensures order { OnOk result (StaysInOrder is_primary (folder_of place.now) (floor_at place.now floors.old.floors) (floor_at place.now floors.new.floors) (D.seen disk.old).told (D.seen disk.new).told) }
    ensures unmade { (reason : ARefusal) → refusal_of result ≡ Some reason → reason ≢ Failed → Keeps D.seen D.left_since (λ name. ⊤) disk.old disk.new }
    ensures others { HaveSameOtherFloors place.now floors.new.floors floors.old.floors }
    ensures floors { OnErr result (HaveSameFloors floors.new.floors floors.old.floors) }
    ensures same { IfOk result (λ reply. IsUnchanging reply → HaveSameFloors floors.new.floors floors.old.floors) }
    ensures stamped { stamp ≤ greatest_stamp }
    ensures power { floors.new.power ≡ floors.old.power }
{
    let looked = look_at(alloc, disk, place)?;
    if let Some(floor) = refusing(&looked.dir, stamp) {
        return Ok(Reply::Superseded(floor));
    }
    let existed = has_durable_floor(&looked.dir);
    if looked.dir.has_tombstone(stamp) {
        return Ok(Reply::Deleted { existed });
    }
    let made = FileName::Tombstone { stamp };
    make_and_purge(alloc, disk, floors, is_primary, place, &looked, &made)?;
    Ok(Reply::Deleted { existed })
}

// The floor, where it refuses a tombstone.
fn refusing(dir: &HashDir, stamp: Stamp) -> Option<Floor>
    ensures { MatchOption result (Allows dir.now stamp) (Refuses dir.now stamp) }
{
    let floor = dir.floor()?;
    if refuses(&floor, stamp) {
        Some(floor)
    } else {
        None
    }
}

// Whether a floor refuses a tombstone: its stamp is greater, or equal and durable.
fn refuses(floor: &Floor, stamp: Stamp) -> bool
    ensures { IsTrue result ↔ ((stamp < floor.now.stamp) ⊎ ((floor.now.stamp ≡ stamp) × (floor.now.kind ≡ Durable))) }
{
    let is_durable = floor.kind == FloorKind::Durable;
    stamp.units() < floor.stamp.units() || (floor.stamp == stamp && is_durable)
}

// Whether the floor is durable.
fn has_durable_floor(dir: &HashDir) -> bool
    ensures { (result ≡ true) ↔ HasDurableFloor dir.now }
{
    match dir.floor() {
        Some(floor) => floor.kind == FloorKind::Durable,
        None => false,
    }
}
