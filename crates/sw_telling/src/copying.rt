//! Copies of messages and replies.

ghost use Rattle.std.specs.Prelude.{◌≡◌, IfOk};

use std::alloc::Global;
use sw_hashdir::Listing;
use sw_message::{Msg, Reply};
use sw_types::{Items, NoMemory};

/// A copy of a message.
pub(crate) fn copy_message(msg: &Msg) -> Result<Msg, NoMemory>
    ensures { IfOk result (λ copy. copy ≡ msg.now) }
{
    Ok(match msg {
        Msg::PutFrag {
            place,
            stamp,
            index,
            bytes,
        } => Msg::PutFrag {
            place: *place,
            stamp: *stamp,
            index: *index,
            bytes: bytes.clone()?,
        },
        Msg::Commit {
            place,
            stamp,
            index,
        } => Msg::Commit {
            place: *place,
            stamp: *stamp,
            index: *index,
        },
        Msg::Delete { place, stamp } => Msg::Delete {
            place: *place,
            stamp: *stamp,
        },
        Msg::Ask { place } => Msg::Ask { place: *place },
        Msg::Fetch {
            place,
            stamp,
            index,
        } => Msg::Fetch {
            place: *place,
            stamp: *stamp,
            index: *index,
        },
        Msg::Remove {
            place,
            stamp,
            index,
        } => Msg::Remove {
            place: *place,
            stamp: *stamp,
            index: *index,
        },
        Msg::Parts => Msg::Parts,
        Msg::Suffixes { part } => Msg::Suffixes { part: *part },
        Msg::Places { part } => Msg::Places { part: *part },
    })
}

/// A copy of a reply.
pub(crate) fn copy_reply(alloc: Global, reply: &Reply) -> Result<Reply, NoMemory>
    ensures { IfOk result (λ copy. copy ≡ reply.now) }
{
    Ok(match reply {
        Reply::Synced => Reply::Synced,
        Reply::Committed => Reply::Committed,
        Reply::Deleted { existed } => Reply::Deleted { existed: *existed },
        Reply::Superseded(floor) => Reply::Superseded(*floor),
        Reply::Missing => Reply::Missing,
        Reply::Held(listing) => Reply::Held(copy_listing(alloc, listing)?),
        Reply::Fragment(bytes) => Reply::Fragment(bytes.clone()?),
        Reply::Gone(listing) => Reply::Gone(copy_listing(alloc, listing)?),
        Reply::Spoiled(spoil) => Reply::Spoiled(*spoil),
        Reply::Kept => Reply::Kept,
        Reply::Removed => Reply::Removed,
        Reply::PartList(parts) => Reply::PartList(copy_items(alloc, parts)?),
        Reply::SuffixList(suffixes) => Reply::SuffixList(copy_items(alloc, suffixes)?),
        Reply::PlaceList(places) => Reply::PlaceList(copy_items(alloc, places)?),
        Reply::DiskFault => Reply::DiskFault,
        Reply::NoSpace { need, free } => Reply::NoSpace {
            need: *need,
            free: *free,
        },
        Reply::NoMemory => Reply::NoMemory,
    })
}

fn copy_listing(alloc: Global, listing: &Listing) -> Result<Listing, NoMemory>
    ensures { IfOk result (λ copy. copy ≡ listing.now) }
{
    let entries = Vec::from_slice(alloc, listing.entries())?;
    let tombstones = Vec::from_slice(alloc, listing.tombstones())?;
    Ok(Listing::new(entries, tombstones))
}

fn copy_items<T: Copy>(alloc: Global, items: &Items<T>) -> Result<Items<T>, NoMemory>
    ensures { IfOk result (λ copy. copy ≡ items.now) }
{
    let copies = Vec::from_slice(alloc, items.as_slice())?;
    Ok(Items::from(copies))
}
