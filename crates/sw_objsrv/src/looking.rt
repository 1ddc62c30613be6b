//! What a node sees of a place.

ghost use Rattle.std.specs.Prelude.{◌≡◌, ◌<◌, ◌≤◌, ◌↔◌, [], ◌∷◌, ℕ, Bool, Contains, IfOk, IfErr, IsTrue, MatchOption, length, string_bytes, ⊤};
ghost use Rattle.sw_types.specs.Policy.{greatest_total};
ghost use Rattle.sw_disk.specs.Answers.{IsNotFull};
ghost use Rattle.sw_disk.specs.Calls.{ListNames};
ghost use Rattle.sw_disk.specs.Runs.{IfTold, KeepsRoom, refusal_of};
ghost use Rattle.sw_hashpath.specs.Place.{folder_of};
ghost use Rattle.sw_hashpath.specs.declared.file_name.FileName.TheVariants.{Data};
ghost use Rattle.sw_hashdir.specs.Directory.{StandsAbove};
ghost use Rattle.sw_diskfile.specs.Changes.{Keeps};
ghost use Rattle.sw_diskfile.specs.Names.{IsDirectoryOf, RunsUnlessMemory};
ghost use Rattle.sw_message.specs.Table.{IsCovered, IsUncovered};

use std::alloc::Global;
use sw_disk::{Disk, DiskRefusal};
use sw_diskfile::look;
use sw_hashdir::{Floor, HashDir};
use sw_hashpath::Place;
use sw_types::Stamp;

/// The folder of a place, and its directory.
#[derive(Debug, Drop)]
pub(crate) struct Looked {
    pub(crate) folder: String,
    pub(crate) dir: HashDir,
    ghost indexes: { (stamp index : ℕ) (durable : Bool) → Contains dir (Data stamp index durable) → index < greatest_total },
}

/// Looks at the folder of a place.
pub(crate) fn look_at<D: Disk>(
    alloc: Global,
    disk: &mut D,
    place: &Place,
) -> Result<Looked, DiskRefusal>
    requires { length (folder_of place.now) ≤ 64 }
    ensures folder { IfOk result (λ looked. string_bytes looked.folder ≡ folder_of place.now) }
    ensures directory { IfOk result (λ looked. IfTold (D.seen disk.old).told (λ state. IsDirectoryOf (state.folder (folder_of place.now)) looked.dir)) }
    ensures runs { RunsUnlessMemory D.seen D.left_since (ListNames (folder_of place.now) ∷ []) (refusal_of result) disk.old disk.new }
    ensures kept { Keeps D.seen D.left_since (λ name. ⊤) disk.old disk.new }
    ensures room { KeepsRoom (D.seen disk.old) (D.seen disk.new) }
    ensures never_full { IfErr result IsNotFull }
{
    let folder = place.folder(alloc)?;
    let dir = look(alloc, disk, &folder)?;
    Ok(Looked { folder, dir })
}

/// The floor, where it stands above a stamp.
pub(crate) fn covering(dir: &HashDir, stamp: Stamp) -> Option<Floor>
    ensures { MatchOption result (IsUncovered dir.now stamp) (IsCovered dir.now stamp) }
{
    let floor = dir.floor()?;
    if stands_above(&floor, stamp) {
        Some(floor)
    } else {
        None
    }
}

// Whether a floor stands above a stamp.
fn stands_above(floor: &Floor, stamp: Stamp) -> bool
    ensures { IsTrue result ↔ StandsAbove floor.now stamp }
{
    floor.stands_above(stamp)
}
