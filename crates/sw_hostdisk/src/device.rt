//! A folder of the host is a disk that tells nothing: each call that goes wrong is counted.

ghost use Rattle.std.specs.Prelude.{false};

use crate::disk::HostDisk;
use crate::host::Host;
use std::alloc::Global;
use sw_disk::{Disk, DiskRefusal};
use sw_types::Bytes;

impl<R: Host> Disk for HostDisk<R> {
    ghost use Rattle.std.specs.Prelude.{refl, ⊤};
    ghost use Rattle.sw_hostdisk.specs.Silent.{silent};

    ghost seen = { λ disk. silent disk.faults };

    ghost left_since = { λ disk since folder image. ⊤ };

    ghost tells = { false };

    fn folders(&mut self, alloc: Global) -> Result<Vec<String>, DiskRefusal> {
        match self.folder_names(alloc) {
            Ok(names) => Ok(names),
            Err(fault) => Err(self.refuse(fault)),
        }
    }

    fn list(&mut self, _alloc: Global, folder: &str) -> Result<Vec<String>, DiskRefusal> {
        match self.file_names(folder) {
            Ok(names) => Ok(names),
            Err(fault) => Err(self.refuse(fault)),
        }
    }

    fn read(&mut self, alloc: Global, folder: &str, name: &str) -> Result<Bytes, DiskRefusal> {
        match self.file_bytes(alloc, folder, name) {
            Ok(bytes) => Ok(bytes),
            Err(fault) => Err(self.refuse(fault)),
        }
    }

    // No change of names takes memory.
    fn ready(&mut self, _alloc: Global, _folder: &str, _changes: usize) -> Result<(), DiskRefusal> {
        Ok(())
    }

    fn write_tmp(&mut self, _alloc: Global, bytes: &[u8]) -> Result<(), DiskRefusal> {
        let need = bytes.len() as u64;
        let free = self.free();
        if need > free {
            return Err(DiskRefusal::Full { need, free });
        }
        match self.write_temporary(bytes) {
            Ok(()) => Ok(()),
            Err(fault) => Err(self.refuse(fault)),
        }
    }

    fn sync_tmp(&mut self) -> Result<(), DiskRefusal> {
        match self.sync_temporary() {
            Ok(()) => Ok(()),
            Err(_) => Err(self.fail()),
        }
    }

    fn publish(&mut self, folder: &str, name: &str) -> Result<(), DiskRefusal> {
        match self.publish_temporary(folder, name) {
            Ok(()) => Ok(()),
            Err(_) => Err(self.fail()),
        }
    }

    fn rename(&mut self, folder: &str, from: &str, to: &str) -> Result<(), DiskRefusal> {
        match self.rename_file(folder, from, to) {
            Ok(()) => Ok(()),
            Err(_) => Err(self.fail()),
        }
    }

    fn remove(&mut self, folder: &str, name: &str) -> Result<(), DiskRefusal> {
        match self.remove_file(folder, name) {
            Ok(()) => Ok(()),
            Err(_) => Err(self.fail()),
        }
    }

    fn sync_dir(&mut self, folder: &str) -> Result<(), DiskRefusal> {
        match self.sync_names(folder) {
            Ok(()) => Ok(()),
            Err(_) => Err(self.fail()),
        }
    }

    ghost telling = { λ disk. refl };

    ghost within = { λ disk folder. tt };

    ghost now = { λ disk folder image. tt };

    ghost only_now = { λ disk folder image left. tt };

    ghost earlier = { λ disk since later folder image before left. tt };
}
