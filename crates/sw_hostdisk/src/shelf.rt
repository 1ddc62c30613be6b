//! The shelf of disks over folders of the host.

ghost use Rattle.std.specs.Prelude.{◌≡◌, ◌≤◌, IfOk, length};

use crate::disk::HostDisk;
use crate::fault::HostFault;
use crate::files::{make_folder, sync_folder};
use crate::host::Host;
use crate::path::{HostPath, below};
use std::alloc::Global;
use std::fs::File;
use sw_disk::Disk;
use sw_shelf::{Shelf, ShelfFault};

/// Disks over the folders `data/DEVICE` below a folder of the host. The first disk locks `data/lock` for as long as the shelf
/// lives: where another process has it, the shelf fails. A device's disk is not to be asked for again before it is back.
#[derive(Drop)]
pub struct HostShelf<R> {
    host: R,
    root: HostPath,
    lock: Option<File>,
    faults: u64,
    out: u64,
}

impl<R: Host + Send + Sync> HostShelf<R> {
    /// A shelf below a folder that is there, as `.` for the current one.
    pub fn new(host: R, root: &str) -> HostShelf<R>
        requires { length root.now ≤ 512 }
        ensures faults { ⟦<HostShelf<R> as Shelf>⟧.faults result ≡ 0 }
        ensures out { ⟦<HostShelf<R> as Shelf>⟧.out result ≡ 0 }
    {
        HostShelf {
            host,
            root: host_path(root),
            lock: None,
            faults: 0,
            out: 0,
        }
    }
}

impl<R: Host> HostShelf<R> {
    // The disk of a device, whose folder is made where it is missing.
    fn open(&mut self, alloc: Global, device: u16, capacity: u64) -> Result<HostDisk<R>, HostFault>
        ensures new { IfOk result (λ disk. disk.faults ≡ 0) }
        ensures capacity { IfOk result (λ disk. disk.capacity ≡ capacity) }
        ensures faults { self.new.faults ≡ self.old.faults }
        ensures out { self.new.out ≡ self.old.out }
    {
        let (data, _) = make_folder(&self.host, &self.root, "data")?;
        if self.lock.is_none() {
            self.lock = Some(locked(&self.host, &data)?);
        }
        let device = device.to_string(alloc)?;
        let (base, _) = make_folder(&self.host, &data, &device)?;
        sync_folder(&self.host, &self.root)?;
        sync_folder(&self.host, &data)?;
        HostDisk::open(self.host.clone()?, base, capacity)
    }
}

// A short text as a path.
fn host_path(text: &str) -> HostPath
    requires { length text.now ≤ 512 }
{
    let mut path = HostPath::new();
    path.push_str(text);
    path
}

// The lock on a folder, which another open file must not hold.
fn locked<R: Host>(host: &R, data: &HostPath) -> Result<File, HostFault> {
    let file = File::create(host, below(data, "lock")?.as_str())?;
    match file.try_lock() {
        Ok(()) => Ok(file),
        Err(_) => Err(HostFault::Failed),
    }
}

impl<R: Host + Send + Sync> Shelf for HostShelf<R> {
    ghost use Rattle.std.specs.Prelude.{◌≡◌, None, IfOk};

    type Disk = HostDisk<R>;

    ghost hands = { λ before device capacity result after. IfOk result (λ disk. disk.capacity ≡ capacity) };

    ghost faults = { λ shelf. shelf.faults };

    ghost out = { λ shelf. shelf.out };

    ghost returned = { λ shelf. None };

    fn disk(
        &mut self,
        alloc: Global,
        device: u16,
        capacity: u64,
    ) -> Result<HostDisk<R>, ShelfFault> {
        match self.open(alloc, device, capacity) {
            Ok(disk) => {
                self.out = self.out.saturating_add(1);
                Ok(disk)
            }
            Err(HostFault::Failed) => {
                self.faults = self.faults.saturating_add(1);
                Err(ShelfFault::Failed)
            }
            Err(HostFault::NoMemory) => Err(ShelfFault::NoMemory),
        }
    }

    fn back(&mut self, _device: u16, disk: HostDisk<R>) {
        if disk.faults > 0 {
            self.faults = self.faults.saturating_add(1);
        }
        self.out -= 1;
    }
}
