//! Making archives durable.

ghost use Rattle.std.specs.Prelude.{◌≡◌, ◌≢◌, ◌≤◌, Bool, false, MatchOption, IfOk, OnErr, OnOk, Some, length, ⊤};
ghost use Rattle.sw_disk.specs.Runs.{refusal_of};
ghost use Rattle.sw_disk.specs.declared.refusal.DiskRefusal.{DiskRefusal as ARefusal};
ghost use Rattle.sw_disk.specs.declared.refusal.DiskRefusal.TheVariants.{Failed};
ghost use Rattle.sw_hashpath.specs.Place.{IsPlace, PlaceModel, folder_of};
ghost use Rattle.sw_hashdir.specs.Directory.{HasEntryAt};
ghost use Rattle.sw_suffix.specs.Table.{floor_at};
ghost use Rattle.sw_diskfile.specs.Changes.{Keeps};
ghost use Rattle.sw_message.specs.Table.{HandlesCommit};
ghost use Rattle.sw_objsrv.specs.Changing.{IsAtOnce};
ghost use Rattle.sw_objsrv.specs.Folder.{HaveSameFloors, HaveSameOtherFloors, StaysInOrder};
ghost use Rattle.sw_objsrv.specs.Handling.{Handles};
ghost use Rattle.sw_objsrv.specs.Node.{IsUnchanging};

use crate::changing::make_and_purge;
use crate::looking::{covering, look_at};
use std::alloc::Global;
use sw_disk::{Disk, DiskRefusal};
use sw_hashdir::HashDir;
use sw_hashpath::{FileName, Place};
use sw_message::Reply;
use sw_suffix::SuffixTable;
use sw_types::Stamp;

/// Makes an archive durable that is there, and removes what that makes obsolete. The table has the floor that is then there.
pub(crate) fn commit<D: Disk>(
    alloc: Global,
    disk: &mut D,
    floors: &mut SuffixTable,
    is_primary: bool,
    place: &Place,
    stamp: Stamp,
    index: u32,
) -> Result<Reply, DiskRefusal>
    requires place { IsPlace floors.old.power place.now }
    requires folder { length (folder_of place.now) ≤ 64 }
    ensures handles { Handles D.seen D.left_since (folder_of place.now) (HandlesCommit is_primary place.now stamp index) result disk.old disk.new }
    ensures order { OnOk result (StaysInOrder is_primary (folder_of place.now) (floor_at place.now floors.old.floors) (floor_at place.now floors.new.floors) (D.seen disk.old).told (D.seen disk.new).told) }
    ensures unmade { (reason : ARefusal) → refusal_of result ≡ Some reason → reason ≢ Failed → Keeps D.seen D.left_since (λ name. ⊤) disk.old disk.new }
    ensures others { HaveSameOtherFloors place.now floors.new.floors floors.old.floors }
    ensures floors { OnErr result (HaveSameFloors floors.new.floors floors.old.floors) }
    ensures same { IfOk result (λ reply. IsUnchanging reply → HaveSameFloors floors.new.floors floors.old.floors) }
    ensures power { floors.new.power ≡ floors.old.power }
{
    let looked = look_at(alloc, disk, place)?;
    if let Some(reply) = answer_at_once(&looked.dir, stamp, index) {
        return Ok(reply);
    }
    let made = FileName::Data {
        stamp,
        index,
        durable: true,
    };
    make_and_purge(alloc, disk, floors, is_primary, place, &looked, &made)?;
    Ok(Reply::Committed)
}

// The answer where no entry is to be made durable.
fn answer_at_once(dir: &HashDir, stamp: Stamp, index: u32) -> Option<Reply>
    ensures { MatchOption result (HasEntryAt dir.now stamp index false) (λ reply. (primary : Bool) (place : PlaceModel) → IsAtOnce (folder_of place) (HandlesCommit primary place stamp index) dir.now reply) }
{
    match dir.entry(stamp, index) {
        Some(entry) if entry.durable => Some(Reply::Committed),
        Some(_) => None,
        None => Some(match covering(dir, stamp) {
            Some(floor) => Reply::Superseded(floor),
            None => Reply::Missing,
        }),
    }
}
