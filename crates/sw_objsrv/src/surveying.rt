//! Telling partitions, places and suffixes.

ghost use Rattle.std.specs.Prelude.{◌≡◌, ◌≤◌, ◌↔◌, Contains, IfOk, ⊤};
ghost use Rattle.sw_disk.specs.Answers.{texts_of};
ghost use Rattle.sw_hashpath.specs.Place.{IsPlace, PlaceModel, folder_of};
ghost use Rattle.sw_diskfile.specs.Changes.{Keeps};
ghost use Rattle.sw_message.specs.Survey.{AreParts, ArePlaces};
ghost use Rattle.sw_message.specs.declared.message.Msg.TheVariants as message;
ghost use Rattle.sw_objsrv.specs.Handling.{HandlesSurvey};

use std::alloc::Global;
use sw_disk::{Disk, DiskRefusal};
use sw_hashpath::{Place, read_folder};
use sw_message::Reply;
use sw_suffix::SuffixTable;
use sw_types::{Items, NoMemory};

/// The partitions of places that have a file.
pub(crate) fn parts<D: Disk>(
    alloc: Global,
    disk: &mut D,
    floors: &SuffixTable,
) -> Result<Reply, DiskRefusal>
    requires { floors.now.power ≤ 16 }
    ensures handles { HandlesSurvey D.seen D.left_since floors.now.power floors.now.floors message.Parts result disk.old disk.new }
    ensures kept { Keeps D.seen D.left_since (λ name. ⊤) disk.old disk.new }
{
    let folders = disk.folders(alloc)?;
    let parts = parts_in(alloc, &folders, floors.power())?;
    Ok(Reply::PartList(Items::from(parts)))
}

/// The places of a partition that have a file, ascending by hash.
pub(crate) fn places<D: Disk>(
    alloc: Global,
    disk: &mut D,
    floors: &SuffixTable,
    part: u32,
) -> Result<Reply, DiskRefusal>
    requires { floors.now.power ≤ 16 }
    ensures handles { HandlesSurvey D.seen D.left_since floors.now.power floors.now.floors (message.Places part) result disk.old disk.new }
    ensures kept { Keeps D.seen D.left_since (λ name. ⊤) disk.old disk.new }
{
    let folders = disk.folders(alloc)?;
    let places = places_of_part(alloc, &folders, floors.power(), part)?;
    Ok(Reply::PlaceList(Items::from(places)))
}

/// The suffixes of a partition with a floor, and their hashes.
pub(crate) fn suffixes<D: Disk>(
    alloc: Global,
    disk: &mut D,
    floors: &mut SuffixTable,
    part: u32,
) -> Result<Reply, DiskRefusal>
    ensures handles { HandlesSurvey D.seen D.left_since floors.old.power floors.old.floors (message.Suffixes part) result disk.old disk.new }
    ensures disk { disk.new ≡ disk.old }
    ensures floors { floors.new ≡ floors.old }
{
    let hashes = floors.hashes(alloc, part)?;
    Ok(Reply::SuffixList(Items::from(hashes)))
}

// The partitions of the places whose folders these are, ascending, each once.
fn parts_in(alloc: Global, folders: &[String], power: u32) -> Result<Vec<u32>, NoMemory>
    requires { power ≤ 16 }
    ensures { IfOk result (λ parts. AreParts power (Contains (texts_of folders.now)) parts.items) }
{
    let places = places_in(alloc, folders, power)?;
    let mut parts = Vec::new(alloc);
    for place in &places {
        parts.push(place.part())?;
    }
    parts.sort_unstable();
    parts.dedup();
    Ok(parts)
}

// The places of a partition whose folders these are, ascending by hash, each once.
fn places_of_part(
    alloc: Global,
    folders: &[String],
    power: u32,
    part: u32,
) -> Result<Vec<Place>, NoMemory>
    requires { power ≤ 16 }
    ensures { IfOk result (λ places. ArePlaces power part (Contains (texts_of folders.now)) places.items) }
{
    let mut places = places_in(alloc, folders, power)?;
    places.retain(|place| place.part() == part);
    places.sort_unstable_by_key(
        |place: &Place| -> [u8; 16]
            ensures { result ≡ place.now.hash }
        { place.hash() },
    );
    places.dedup();
    Ok(places)
}

// The places whose folders these are.
fn places_in(alloc: Global, folders: &[String], power: u32) -> Result<Vec<Place>, NoMemory>
    requires { power ≤ 16 }
    ensures { IfOk result (λ places. (place : PlaceModel) → Contains places.items place ↔ (IsPlace power place × Contains (texts_of folders.now) (folder_of place))) }
{
    let mut places = Vec::new(alloc);
    for folder in folders {
        if let Some(place) = read_folder(folder.as_str(), power) {
            places.push(place)?;
        }
    }
    Ok(places)
}
