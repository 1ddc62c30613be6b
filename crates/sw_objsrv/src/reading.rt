//! Telling what a folder has.

ghost use Rattle.std.specs.Prelude.{◌⊎◌, ◌≤◌, length, ⊤};
ghost use Rattle.sw_hashpath.specs.Place.{folder_of};
ghost use Rattle.sw_diskfile.specs.Changes.{Keeps};
ghost use Rattle.sw_message.specs.Table.{HandlesAsk, HandlesFetch};
ghost use Rattle.sw_message.specs.declared.message.Msg.TheVariants as message;
ghost use Rattle.sw_objsrv.specs.Handling.{Handles, StopsReading};
ghost use Rattle.sw_objsrv.specs.Reading.{IsReplied};

use crate::looking::look_at;
use std::alloc::Global;
use sw_archive::ArchiveBytes;
use sw_disk::{Disk, DiskRefusal};
use sw_diskfile::fetch as fetch_entry;
use sw_hashpath::Place;
use sw_message::{Reply, check_asked};
use sw_ring::Cluster;
use sw_types::Stamp;

/// Lists the folder of a place.
pub(crate) fn ask<D: Disk>(alloc: Global, disk: &mut D, place: &Place) -> Result<Reply, DiskRefusal>
    requires { length (folder_of place.now) ≤ 64 }
    ensures handles { Handles D.seen D.left_since (folder_of place.now) (HandlesAsk place.now) result disk.old disk.new }
    ensures kept { Keeps D.seen D.left_since (λ name. ⊤) disk.old disk.new }
{
    let looked = look_at(alloc, disk, place)?;
    Ok(Reply::Held(looked.dir.listing(alloc)?))
}

/// Reads an entry, if it is there and its file is its archive.
pub(crate) fn fetch<D: Disk>(
    alloc: Global,
    disk: &mut D,
    cluster: &Cluster,
    place: &Place,
    stamp: Stamp,
    index: u32,
) -> Result<Reply, DiskRefusal>
    requires { length (folder_of place.now) ≤ 64 }
    ensures handles { Handles D.seen D.left_since (folder_of place.now) (HandlesFetch cluster.now place.now stamp index) result disk.old disk.new ⊎ StopsReading D.seen D.left_since (message.Fetch place.now stamp index) result disk.old disk.new }
    ensures kept { Keeps D.seen D.left_since (λ name. ⊤) disk.old disk.new }
{
    let looked = look_at(alloc, disk, place)?;
    let Some(entry) = looked.dir.entry(stamp, index) else {
        return Ok(Reply::Gone(looked.dir.listing(alloc)?));
    };
    let bytes = fetch_entry(alloc, disk, &looked.folder, entry)?;
    Ok(reply_of(cluster, place, stamp, index, ArchiveBytes::new(bytes)))
}

// The reply to bytes that were read. It takes no memory, so a spoiled archive is told.
fn reply_of(
    cluster: &Cluster,
    place: &Place,
    stamp: Stamp,
    index: u32,
    bytes: ArchiveBytes,
) -> Reply
    ensures { IsReplied cluster.now place.now stamp index bytes result }
{
    match check_asked(cluster, place, stamp, index, &bytes) {
        Ok(_archive) => Reply::Fragment(bytes.into_checked()),
        Err(spoil) => Reply::Spoiled(spoil),
    }
}
