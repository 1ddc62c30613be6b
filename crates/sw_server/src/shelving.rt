//! Disks of a shelf, one for each device of a cluster, and their way back.

ghost use Rattle.std.specs.Prelude.{◌≡◌, ◌≤◌, ℕ, IfOk, IsErrOf, OnErr, length};
ghost use Rattle.sw_words.specs.Counts.{one_more};
ghost use Rattle.sw_shelf.specs.Shelf.{with_all};
ghost use Rattle.sw_shelf.specs.declared.fault.ShelfFault.TheVariants.{Failed, NoMemory as WantOfMemory};
ghost use Rattle.sw_server.specs.Shelving.{AreHanded, CameBack, with_devices, with_faults};

use std::alloc::Global;
use std::collections::VecDeque;
use sw_ring::{Cluster, Device};
use sw_shelf::{Shelf, ShelfFault};

/// A disk of the shelf for each device of a cluster. At `Err` each is back.
pub(crate) fn take_disks<F: Shelf>(
    alloc: Global,
    cluster: &Cluster,
    shelf: &mut F,
) -> Result<Vec<F::Disk>, ShelfFault>
    requires { F.out shelf.old ≡ 0 }
    ensures handed { IfOk result (λ disks. AreHanded F.Disk.seen F.hands cluster.now.devices disks.items) }
    ensures out { IfOk result (λ disks. F.out shelf.new ≡ length cluster.now.devices) }
    ensures returned { IfOk result (λ disks. F.returned shelf.new ≡ F.returned shelf.old) }
    ensures quiet { IfOk result (λ disks. F.faults shelf.new ≡ F.faults shelf.old) }
    ensures came_back { OnErr result (CameBack (record { hands = F.hands; out = F.out; returned = F.returned; faults = F.faults; seen = F.Disk.seen; left_since = F.Disk.left_since }) cluster.now shelf.old shelf.new) }
    ensures failed { IsErrOf result Failed → F.faults shelf.new ≡ one_more (F.faults shelf.old) }
    ensures no_memory { IsErrOf result WantOfMemory → F.faults shelf.new ≡ F.faults shelf.old }
{
    let Ok(mut disks) = Vec::with_capacity(alloc, cluster.devices().len()) else {
        return Err(ShelfFault::NoMemory);
    };
    'each: for device in cluster.devices() {
        match shelf.disk(alloc, device.id, device.capacity) {
            Ok(disk) => disks.push(disk).unwrap(),
            Err(fault) => {
                put_back(shelf, cluster.devices(), disks);
                return Err(fault);
            }
        }
    }
    Ok(disks)
}

/// Puts the disks of the first of these devices back on the shelf.
pub(crate) fn put_back<F: Shelf>(shelf: &mut F, devices: &[Device], disks: Vec<F::Disk>)
    requires few { length disks.items ≤ length devices.now }
    requires out { F.out shelf.old ≡ length disks.items }
    ensures out { F.out shelf.new ≡ 0 }
    ensures back { F.returned shelf.new ≡ with_all (F.returned shelf.old) (with_devices devices.now disks.items) }
    ensures faults { F.faults shelf.new ≡ with_faults F.Disk.seen (F.faults shelf.old) (with_devices devices.now disks.items) }
{
    let mut left = VecDeque::from(disks);
    'each: for device in devices {
        let Some(disk) = left.pop_front() else {
            return;
        };
        shelf.back(device.id, disk);
    }
}

/// Puts disks back on the shelf, each with its device.
pub(crate) fn put_back_each<F: Shelf>(shelf: &mut F, disks: Vec<(u16, F::Disk)>)
    requires out { F.out shelf.old ≡ length disks.items }
    ensures out { F.out shelf.new ≡ 0 }
    ensures back { F.returned shelf.new ≡ with_all (F.returned shelf.old) disks.items }
    ensures faults { F.faults shelf.new ≡ with_faults F.Disk.seen (F.faults shelf.old) disks.items }
{
    'each: for (device, disk) in disks {
        shelf.back(device, disk);
    }
}
