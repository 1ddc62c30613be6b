//! Mounting the places of a disk.

ghost use Rattle.std.specs.Prelude.{◌≡◌, [], ◌∷◌, IfOk, OnOk};
ghost use Rattle.sw_disk.specs.Runs.{IfTold};
ghost use Rattle.sw_disk.specs.Used.{IsAccounted};
ghost use Rattle.sw_hashpath.specs.Place.{PlaceModel};
ghost use Rattle.sw_suffix.specs.Table.{floor_at};
ghost use Rattle.sw_ring.specs.Cluster.{KeepsRules};
ghost use Rattle.sw_message.specs.Message.{is_primary};
ghost use Rattle.sw_objsrv.specs.Folder.{AreInOrder, IsInOrder};
ghost use Rattle.sw_objsrv.specs.Mounting.{IsFolderOf, Mounts, TidiesEach, fault_of};

use crate::fault::MountFault;
use std::alloc::Global;
use sw_disk::Disk;
use sw_diskfile::tidy;
use sw_hashpath::read_folder;
use sw_message::is_primary;
use sw_ring::Cluster;
use sw_suffix::SuffixTable;

/// Brings the folder of each place to normal form, with nothing pending, and gives the floors.
pub(crate) fn mount_places<D: Disk>(
    alloc: Global,
    disk: &mut D,
    cluster: &Cluster,
    device: u16,
) -> Result<SuffixTable, MountFault>
    ensures mounts { Mounts D.seen D.left_since cluster.now device (fault_of result) disk.old disk.new }
    ensures order { IfOk result (λ floors. IfTold (D.seen disk.new).told (AreInOrder cluster.now device floors.floors)) }
    ensures accounted { OnOk result (IfTold (D.seen disk.new).told IsAccounted) }
    ensures power { IfOk result (λ floors. floors.power ≡ cluster.now.part_power) }
    ensures rules { KeepsRules cluster.now }
{
    let power = cluster.part_power();
    let mut floors = SuffixTable::new(alloc, power);
    let folders = disk.folders(alloc)?;
    for folder in &folders {
        mount_folder(alloc, disk, &mut floors, cluster, device, folder.as_str())?;
    }
    Ok(floors)
}

// Brings a folder to normal form and keeps its floor, if it is that of a place.
fn mount_folder<D: Disk>(
    alloc: Global,
    disk: &mut D,
    floors: &mut SuffixTable,
    cluster: &Cluster,
    device: u16,
    folder: &str,
) -> Result<(), MountFault>
    requires { floors.old.power ≡ cluster.now.part_power }
    ensures tidies { TidiesEach D.seen D.left_since cluster.now device (folder.now ∷ []) (fault_of result) disk.old disk.new }
    ensures order { OnOk result ((place : PlaceModel) → IsFolderOf cluster.now place folder.now →
        IfTold (D.seen disk.new).told (λ state. IsInOrder (is_primary cluster.now device place) (floor_at place floors.new.floors) (state.folder folder.now))) }
    ensures others { OnOk result ((place : PlaceModel) → (IsFolderOf cluster.now place folder.now → ⊥) → floor_at place floors.new.floors ≡ floor_at place floors.old.floors) }
    ensures power { OnOk result (floors.new.power ≡ floors.old.power) }
{
    let power = cluster.part_power();
    let Some(place) = read_folder(folder, power) else {
        return Ok(());
    };
    let is_primary = is_primary(cluster, device, &place);
    let dir = tidy(alloc, disk, folder, is_primary)?;
    floors.set(place, dir.floor())?;
    Ok(())
}
