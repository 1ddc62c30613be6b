//! Handling messages.

ghost use Rattle.std.specs.Prelude.{◌≡◌, ◌≢◌, IfOk, OnErr, OnOk, Some, ⊤};
ghost use Rattle.sw_disk.specs.Runs.{IfTold, refusal_of};
ghost use Rattle.sw_disk.specs.declared.refusal.DiskRefusal.{DiskRefusal as ARefusal};
ghost use Rattle.sw_disk.specs.declared.refusal.DiskRefusal.TheVariants.{Failed};
ghost use Rattle.sw_diskfile.specs.Changes.{Keeps};
ghost use Rattle.sw_ring.specs.Cluster.{KeepsRules};
ghost use Rattle.sw_message.specs.Message.{IsPlaceOf, place_in};
ghost use Rattle.sw_objsrv.specs.Folder.{AreInOrder, HaveSameFloors};
ghost use Rattle.sw_objsrv.specs.Handling.{IsAnswered, IsStamped};
ghost use Rattle.sw_objsrv.specs.Node.{IsUnchanging};

use crate::committing::commit;
use crate::deleting::delete;
use crate::reading::{ask, fetch};
use crate::removing::remove;
use crate::storing::put_frag;
use crate::surveying::{parts, places, suffixes};
use std::alloc::Global;
use sw_disk::{Disk, DiskRefusal};
use sw_message::{Msg, Reply, is_primary};
use sw_ring::Cluster;
use sw_suffix::SuffixTable;

/// Answers a message over a mounted disk.
pub(crate) fn answer<D: Disk>(
    alloc: Global,
    disk: &mut D,
    floors: &mut SuffixTable,
    cluster: &Cluster,
    device: u16,
    msg: &Msg,
) -> Result<Reply, DiskRefusal>
    requires rules { KeepsRules cluster.now }
    requires place { IsPlaceOf cluster.now (place_in msg.now) }
    requires power { floors.old.power ≡ cluster.now.part_power }
    ensures answered { IsAnswered D.seen D.left_since cluster.now device floors.old.floors msg.now result disk.old disk.new }
    ensures order { OnOk result (IfTold (D.seen disk.old).told (AreInOrder cluster.now device floors.old.floors) → IfTold (D.seen disk.new).told (AreInOrder cluster.now device floors.new.floors)) }
    ensures unmade { (reason : ARefusal) → refusal_of result ≡ Some reason → reason ≢ Failed → Keeps D.seen D.left_since (λ name. ⊤) disk.old disk.new }
    ensures floors { OnErr result (HaveSameFloors floors.new.floors floors.old.floors) }
    ensures same { IfOk result (λ reply. IsUnchanging reply → HaveSameFloors floors.new.floors floors.old.floors) }
    ensures stamped { IsStamped msg.now }
    ensures power_is { floors.new.power ≡ floors.old.power }
{
    match msg {
        Msg::PutFrag {
            place,
            stamp,
            index,
            bytes,
        } => put_frag(alloc, disk, cluster, place, *stamp, *index, bytes),
        Msg::Commit {
            place,
            stamp,
            index,
        } => {
            let is_primary = is_primary(cluster, device, place);
            commit(alloc, disk, floors, is_primary, place, *stamp, *index)
        }
        Msg::Delete { place, stamp } => {
            let is_primary = is_primary(cluster, device, place);
            delete(alloc, disk, floors, is_primary, place, *stamp)
        }
        Msg::Ask { place } => ask(alloc, disk, place),
        Msg::Fetch {
            place,
            stamp,
            index,
        } => fetch(alloc, disk, cluster, place, *stamp, *index),
        Msg::Remove {
            place,
            stamp,
            index,
        } => {
            let is_primary = is_primary(cluster, device, place);
            remove(alloc, disk, floors, is_primary, place, *stamp, *index)
        }
        Msg::Parts => parts(alloc, disk, floors),
        Msg::Suffixes { part } => suffixes(alloc, disk, floors, *part),
        Msg::Places { part } => places(alloc, disk, floors, *part),
    }
}
