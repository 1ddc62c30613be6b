//! A shelf of disks in memory.

ghost use Rattle.std.specs.Prelude.{◌≡◌, ◌+◌, ◌≤◌, ◌<◌, [], None, Some, OnErr, OnOk, vec_capacity, vec_len};
ghost use Rattle.sw_memshelf.specs.Memory.{failing_of, without};

use std::alloc::Global;
use std::marker::Model;
use sw_memdisk::MemDisk;
use sw_shelf::{Shelf, ShelfFault};
use sw_types::NoMemory;

/// A shelf of empty disks in memory.
#[derive(Drop)]
pub struct MemShelf {
    refusing: Option<u16>,
    failing: Option<(u16, Vec<u64>)>,
    refused: u64,
    out: u64,
    // There is room for those that are out.
    back: Vec<(u16, MemDisk)>,
}

impl Model for MemShelf {
    ghost use Rattle.std.specs.Prelude.{◌+◌, ◌≤◌, option_map, vec_capacity, vec_len};
    ghost use Rattle.sw_memshelf.specs.Memory.{ShelfModel};

    ghost Value = { ShelfModel };

    ghost view = { λ s. record { refusing = s.refusing; failing = option_map (λ one. (one.0, one.1.items)) s.failing; refused = s.refused; out = s.out; back = s.back.items } };

    ghost invariant = { λ s. vec_len s.back + s.out ≤ vec_capacity s.back };
}

impl MemShelf {
    /// A shelf none of whose disks fails.
    pub fn new(alloc: Global) -> MemShelf
        ensures { result ≡ record { refusing = None; failing = None; refused = 0; out = 0; back = [] } }
    {
        MemShelf {
            refusing: None,
            failing: None,
            refused: 0,
            out: 0,
            back: Vec::new(alloc),
        }
    }

    /// The disk of this device is refused from now on.
    pub fn refuse(&mut self, device: u16)
        ensures { self.new ≡ record self.old { refusing = Some device } }
    {
        self.refusing = Some(device);
    }

    /// The device calls of these numbers, counted from 1, fail at the next disk of this device, and of no other.
    pub fn fail_at(&mut self, device: u16, calls: Vec<u64>)
        ensures { self.new ≡ record self.old { failing = Some (device, calls.items) } }
    {
        self.failing = Some((device, calls));
    }

    /// The disks that are back, each with its device.
    pub fn returned(&self) -> &[(u16, MemDisk)]
        ensures { result.now ≡ self.now.back }
    {
        &self.back
    }

    // Takes the list of the calls that fail at a device's disk.
    fn take_failing(&mut self, alloc: Global, device: u16) -> Vec<u64>
        ensures calls { result.items ≡ failing_of self.old.failing device }
        ensures left { self.new ≡ record self.old { failing = without self.old.failing device } }
    {
        match self.failing.take() {
            Some((other, calls)) if other == device => calls,
            others => {
                self.failing = others;
                Vec::new(alloc)
            }
        }
    }

    // Makes room for one more that is out.
    fn make_room(&mut self) -> Result<(), NoMemory>
        ensures room { OnOk result (self.new ≡ record self.old { out = self.old.out + 1 }) }
        ensures refused { OnErr result (self.new ≡ self.old) }
    {
        let out = self.out.checked_add(1).ok_or(NoMemory)?;
        let room = usize::try_from(out).ok().ok_or(NoMemory)?;
        self.back.reserve(room)?;
        self.out = out;
        Ok(())
    }
}

impl Shelf for MemShelf {
    ghost use Rattle.sw_memshelf.specs.Memory.{Hands, faults_of};

    type Disk = MemDisk;

    ghost hands = { Hands };

    ghost faults = { faults_of };

    ghost out = { λ s. s.out };

    ghost returned = { λ s. Some s.back };

    fn disk(&mut self, alloc: Global, device: u16, capacity: u64) -> Result<MemDisk, ShelfFault> {
        if self.refusing == Some(device) {
            self.refused = self.refused.saturating_add(1);
            return Err(ShelfFault::Failed);
        }
        self.make_room()?;
        let failing = self.take_failing(alloc, device);
        Ok(MemDisk::new(alloc, capacity, failing))
    }

    fn back(&mut self, device: u16, disk: MemDisk) {
        let is_back = self.back.push((device, disk)).is_ok();
        prove!(is_back == true);
        self.out -= 1;
    }
}
