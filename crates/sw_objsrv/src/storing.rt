//! Storing archives.

ghost use Rattle.std.specs.Prelude.{◌≡◌, ◌≢◌, ◌≤◌, Bool, MatchOption, OnOk, Option, Some, length, ⊤};
ghost use Rattle.sw_disk.specs.Runs.{refusal_of};
ghost use Rattle.sw_disk.specs.declared.refusal.DiskRefusal.{DiskRefusal as ARefusal};
ghost use Rattle.sw_disk.specs.declared.refusal.DiskRefusal.TheVariants.{Failed};
ghost use Rattle.sw_hashpath.specs.Place.{folder_of};
ghost use Rattle.sw_hashdir.specs.declared.floor.Floor.{Floor as AFloor};
ghost use Rattle.sw_diskfile.specs.Changes.{Keeps};
ghost use Rattle.sw_message.specs.Table.{HandlesPutFrag};
ghost use Rattle.sw_objsrv.specs.Folder.{StaysInOrder};
ghost use Rattle.sw_objsrv.specs.Handling.{Handles};
ghost use Rattle.sw_objsrv.specs.Storing.{IsKnown, IsToStore};

use crate::looking::{covering, look_at};
use std::alloc::Global;
use sw_archive::ArchiveBytes;
use sw_disk::{Disk, DiskRefusal};
use sw_diskfile::store;
use sw_hashdir::HashDir;
use sw_hashpath::Place;
use sw_message::{Reply, check_asked};
use sw_ring::Cluster;
use sw_types::Stamp;

/// Stores an archive, unless it is spoiled, superseded or there.
pub(crate) fn put_frag<D: Disk>(
    alloc: Global,
    disk: &mut D,
    cluster: &Cluster,
    place: &Place,
    stamp: Stamp,
    index: u32,
    bytes: &ArchiveBytes,
) -> Result<Reply, DiskRefusal>
    requires { length (folder_of place.now) ≤ 64 }
    ensures handles { Handles D.seen D.left_since (folder_of place.now) (HandlesPutFrag cluster.now place.now stamp index bytes.now) result disk.old disk.new }
    ensures order { OnOk result ((primary : Bool) (floor : Option AFloor) → StaysInOrder primary (folder_of place.now) floor floor (D.seen disk.old).told (D.seen disk.new).told) }
    ensures unmade { (reason : ARefusal) → refusal_of result ≡ Some reason → reason ≢ Failed → Keeps D.seen D.left_since (λ name. ⊤) disk.old disk.new }
{
    let looked = look_at(alloc, disk, place)?;
    if let Some(reply) = known(cluster, place, &looked.dir, stamp, index, bytes) {
        return Ok(reply);
    }
    store(alloc, disk, &looked.folder, stamp, index, bytes.as_slice())?;
    Ok(Reply::Synced)
}

// The reply where nothing is to be stored: the archive is spoiled, superseded or there.
fn known(
    cluster: &Cluster,
    place: &Place,
    dir: &HashDir,
    stamp: Stamp,
    index: u32,
    bytes: &ArchiveBytes,
) -> Option<Reply>
    ensures { MatchOption result (IsToStore cluster.now place.now dir.now stamp index bytes.now) (IsKnown cluster.now place.now dir.now stamp index bytes.now) }
{
    if let Err(spoil) = check_asked(cluster, place, stamp, index, bytes) {
        return Some(Reply::Spoiled(spoil));
    }
    if let Some(floor) = covering(dir, stamp) {
        return Some(Reply::Superseded(floor));
    }
    if dir.entry(stamp, index).is_some() {
        return Some(Reply::Synced);
    }
    None
}
