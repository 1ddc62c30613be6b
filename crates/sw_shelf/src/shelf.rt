//! Where disks come from and where they go back.

ghost use Rattle.std.specs.Prelude.{◌≡◌, ℕ, ◌-◌, ◌<◌, List, Option, Result, IfOk, OnErr, OnOk, IsErrOf};
ghost use Rattle.sw_words.specs.Counts.{one_more};
ghost use Rattle.sw_shelf.specs.Shelf.{IsNew, after_back, with_one};
ghost use Rattle.sw_shelf.specs.declared.fault.ShelfFault.{ShelfFault as AFault};

use crate::ShelfFault;
use std::alloc::Global;
use sw_disk::Disk;

/// Where a program's disks come from, one for a device, and where they go back.
pub trait Shelf {
    /// A disk of the shelf.
    type Disk: Disk + Send + Sync + Drop;

    /// What a request for a device's disk of so many bytes may answer, and leave.
    ghost hands: { Self → ℕ → ℕ → Result Self.Disk AFault → Self → Type 0 };

    /// How often the shelf has failed: each disk that it could not hand out, and each that came back after a failure.
    ghost faults: { Self → ℕ };

    /// How many disks were handed out and are not back, where that is below the count's last value.
    ghost out: { Self → ℕ };

    /// The disks that are back, each with its device, the last of them last, where the shelf tells.
    ghost returned: { Self → Option (List (ℕ × Self.Disk)) };

    /// A disk for a device, of so many bytes. Where it tells what it holds, it holds nothing.
    fn disk(&mut self, alloc: Global, device: u16, capacity: u64) -> Result<Self::Disk, ShelfFault>
        ensures hands { hands self.old device capacity result self.new }
        ensures new { IfOk result (λ disk. IsNew capacity (Self.Disk.seen disk)) }
        ensures out { OnOk result (out self.new ≡ one_more (out self.old)) }
        ensures kept { OnErr result (out self.new ≡ out self.old) }
        ensures returned { returned self.new ≡ returned self.old }
        ensures failed { IsErrOf result ShelfFault.Failed → faults self.new ≡ one_more (faults self.old) }
        ensures no_memory { IsErrOf result ShelfFault.NoMemory → faults self.new ≡ faults self.old }
        ensures quiet { OnOk result (faults self.new ≡ faults self.old) };

    /// Takes a disk back. That is a fault where the disk has failed since it was handed out. It takes no memory.
    fn back(&mut self, device: u16, disk: Self::Disk)
        requires { 0 < out self.old }
        ensures faults { faults self.new ≡ after_back (Self.Disk.seen disk).faults (faults self.old) }
        ensures out { out self.new ≡ out self.old - 1 }
        ensures returned { returned self.new ≡ with_one (returned self.old) (device, disk) };
}
