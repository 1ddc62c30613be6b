//! A disk in memory is a disk: each call is counted first, and then done.

ghost use Rattle.std.specs.Prelude.{◌≡◌, IfOk, true};

use crate::change::NameChange;
use crate::disk::MemDisk;
use crate::held::MemContent;
use std::alloc::Global;
use sw_disk::{Disk, DiskRefusal};
use sw_types::{Bytes, NoMemory};

impl Disk for MemDisk {
    ghost use Rattle.sw_memdisk.specs.Laws.{earlier, now, only_now, telling, within};
    ghost use Rattle.sw_memdisk.specs.Memory.{LeftBy, seen_of};

    ghost seen = { seen_of };

    ghost left_since = { LeftBy };

    ghost tells = { true };

    fn folders(&mut self, alloc: Global) -> Result<Vec<String>, DiskRefusal> {
        self.count()?;
        Ok(self.busy(alloc)?)
    }

    fn list(&mut self, alloc: Global, folder: &str) -> Result<Vec<String>, DiskRefusal> {
        self.count()?;
        Ok(self.names(alloc, folder)?)
    }

    fn read(&mut self, alloc: Global, folder: &str, name: &str) -> Result<Bytes, DiskRefusal> {
        self.count()?;
        let bytes = self.file(folder, name).unwrap();
        Ok(Bytes::from_slice(alloc, bytes)?)
    }

    fn ready(&mut self, alloc: Global, folder: &str, changes: usize) -> Result<(), DiskRefusal> {
        Ok(self.reserve(alloc, folder, changes)?)
    }

    fn write_tmp(&mut self, alloc: Global, bytes: &[u8]) -> Result<(), DiskRefusal> {
        self.count()?;
        let need = bytes.len() as u64;
        let free = self.free();
        if need > free {
            return Err(DiskRefusal::Full { need, free });
        }
        let bytes = copied(alloc, bytes)?;
        self.set_temporary(MemContent {
            bytes,
            synced: false,
        });
        Ok(())
    }

    fn sync_tmp(&mut self) -> Result<(), DiskRefusal> {
        self.count()?;
        self.sync_temporary();
        Ok(())
    }

    fn publish(&mut self, folder: &str, name: &str) -> Result<(), DiskRefusal> {
        self.count()?;
        let content = self.take_temporary().unwrap();
        self.change(folder, NameChange::Publish(name, content));
        Ok(())
    }

    fn rename(&mut self, folder: &str, from: &str, to: &str) -> Result<(), DiskRefusal> {
        self.count()?;
        self.change(folder, NameChange::Rename(from, to));
        Ok(())
    }

    fn remove(&mut self, folder: &str, name: &str) -> Result<(), DiskRefusal> {
        self.count()?;
        self.change(folder, NameChange::Remove(name));
        Ok(())
    }

    fn sync_dir(&mut self, folder: &str) -> Result<(), DiskRefusal> {
        self.count()?;
        self.settle(folder);
        Ok(())
    }

    ghost telling = { telling };

    ghost within = { within };

    ghost now = { now };

    ghost only_now = { only_now };

    ghost earlier = { earlier };
}

// A copy of bytes.
fn copied(alloc: Global, bytes: &[u8]) -> Result<Vec<u8>, NoMemory>
    ensures { IfOk result (λ copy. copy.items ≡ bytes.now) }
{
    Ok(Vec::from_slice(alloc, bytes)?)
}
