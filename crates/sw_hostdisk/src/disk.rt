//! A disk over a folder of the host.

ghost use Rattle.std.specs.Prelude.{◌≡◌, ◌-◌, IfOk};
ghost use Rattle.std.specs.Cmp.Lexicographic.{slice_cmp};
ghost use Rattle.std.specs.List.Sorted.{IsSorted};
ghost use Rattle.std.specs.Ordering.{nat_cmp};
ghost use Rattle.sw_disk.specs.Answers.{IsNotFull, texts_of};
ghost use Rattle.sw_disk.specs.declared.refusal.DiskRefusal.TheVariants.{Failed};
ghost use Rattle.sw_hostdisk.specs.Silent.{after_refusal, refusal_for};

use crate::fault::HostFault;
use crate::files::{
    Unsettled, clear_file, make_folders, move_file, read_file, size_of, sync_folder,
};
use crate::host::Host;
use crate::identity::Identity;
use crate::known::KnownFolders;
use crate::path::{HostPath, below, folder_below};
use crate::walk::{Walk, files_in, in_order, is_place};
use std::alloc::Global;
use std::fs;
use std::fs::File;
use std::io::Write;
use sw_disk::DiskRefusal;
use sw_types::Bytes;

// The name of the temporary file.
const TEMPORARY: &str = "tmp";

/// A disk over a folder of the host. Files lie at `FOLDER/NAME` within it, the temporary file is `tmp`.
///
/// It tells nothing of what it holds: nobody can know what a file of the host holds. It counts its failures, and the bytes
/// of its files. It looks at all that it has when it is made, and again after a failure or where memory was wanted, and knows the
/// rest by its own changes. What is no file of a disk it leaves alone: it neither lists, moves, nor removes it. It fails where
/// its folder is gone, or another one is in its place.
#[derive(Drop)]
pub struct HostDisk<R> {
    host: R,
    base: HostPath,
    // The folder that the disk is over, for as long as it lives.
    identity: Identity,
    pub(crate) capacity: u64,
    used: u64,
    pub(crate) faults: u64,
    temporary: Option<Temporary>,
    // The folders with a file, unless they are to be looked for again.
    known: Option<KnownFolders>,
    // Folders in which a folder was made whose name is not stable yet.
    unsettled: Unsettled,
}

// The temporary file, as long as it is open, and its length.
#[derive(Drop)]
struct Temporary {
    file: File,
    size: u64,
}

impl<R: Host> HostDisk<R> {
    /// A disk over a folder that is there. A temporary file that a crash left goes, the files are counted, and the folders
    /// above them are made stable.
    pub(crate) fn open(host: R, base: HostPath, capacity: u64) -> Result<HostDisk<R>, HostFault>
        ensures faults { IfOk result (λ disk. disk.faults ≡ 0) }
        ensures capacity { IfOk result (λ disk. disk.capacity ≡ capacity) }
    {
        clear_file(&host, &below(&base, TEMPORARY)?)?;
        let identity = Identity::of(&host, &base)?;
        let mut disk = HostDisk {
            host,
            base,
            identity,
            capacity,
            used: 0,
            faults: 0,
            temporary: None,
            known: None,
            unsettled: Unsettled::new(),
        };
        let known = disk.look()?;
        disk.known = Some(known);
        Ok(disk)
    }

    // Counts a refusal, and says it as the disk does.
    pub(crate) fn refuse(&mut self, fault: HostFault) -> DiskRefusal
        ensures refusal { result ≡ refusal_for fault }
        ensures not_full { IsNotFull result }
        ensures counted { self.new.faults ≡ after_refusal result self.old.faults }
    {
        match fault {
            HostFault::Failed => self.fail(),
            HostFault::NoMemory => DiskRefusal::NoMemory,
        }
    }

    // Counts a failure. What is known of the folders may be false then.
    pub(crate) fn fail(&mut self) -> DiskRefusal
        ensures refusal { result ≡ Failed }
        ensures counted { self.new.faults ≡ after_refusal result self.old.faults }
    {
        self.known = None;
        self.faults = self.faults.saturating_add(1);
        DiskRefusal::Failed
    }

    // How many bytes are free.
    pub(crate) fn free(&self) -> u64
        ensures { result ≡ self.now.capacity - self.now.used }
    {
        self.capacity.saturating_sub(self.used)
    }

    // The folders that have the form of an object's, and a file, ascending.
    pub(crate) fn folder_names(&mut self, alloc: Global) -> Result<Vec<String>, HostFault>
        ensures sorted { IfOk result (λ names. IsSorted (slice_cmp nat_cmp) (texts_of names.items)) }
        ensures faults { self.new.faults ≡ self.old.faults }
    {
        let known = match self.known.take() {
            Some(known) => known,
            None => self.look()?,
        };
        let texts = known.texts(alloc);
        self.known = Some(known);
        in_order(texts?)
    }

    // Looks at all that the disk has: its folders, and how many bytes their files have. What may not be stable of them is made so.
    fn look(&mut self) -> Result<KnownFolders, HostFault>
        ensures faults { self.new.faults ≡ self.old.faults }
        ensures capacity { self.new.capacity ≡ self.old.capacity }
    {
        self.check_there()?;
        let walk = Walk {
            host: &self.host,
            base: &self.base,
        };
        let found = walk.folders()?;
        let used = walk.used(&found)?;
        sync_folder(&self.host, &self.base)?;
        let known = KnownFolders::of(self.host.alloc(), found)?;
        self.used = used;
        self.unsettled.clear();
        Ok(known)
    }

    // Fails where the folder of the disk is gone, or another one is in its place.
    fn check_there(&self) -> Result<(), HostFault> {
        if Identity::of(&self.host, &self.base)? == self.identity {
            Ok(())
        } else {
            Err(HostFault::Failed)
        }
    }

    // The names of the files of a folder, ascending. There are none in one that is missing.
    pub(crate) fn file_names(&self, folder: &str) -> Result<Vec<String>, HostFault>
        ensures { IfOk result (λ names. IsSorted (slice_cmp nat_cmp) (texts_of names.items)) }
    {
        self.check_there()?;
        files_in(&self.host, &folder_below(&self.base, folder)?)
    }

    // The bytes of a file.
    pub(crate) fn file_bytes(
        &self,
        alloc: Global,
        folder: &str,
        name: &str,
    ) -> Result<Bytes, HostFault> {
        let bytes = read_file(&self.host, alloc, &self.path(folder, name)?)?;
        Ok(Bytes::from(bytes))
    }

    // Replaces the temporary file.
    pub(crate) fn write_temporary(&mut self, bytes: &[u8]) -> Result<(), HostFault>
        ensures faults { self.new.faults ≡ self.old.faults }
    {
        self.temporary = None;
        self.check_there()?;
        let mut file = File::create(&self.host, below(&self.base, TEMPORARY)?.as_str())?;
        file.write_all(bytes)?;
        let size = bytes.len() as u64;
        self.temporary = Some(Temporary { file, size });
        Ok(())
    }

    // Makes the bytes of the temporary file stable. Where that fails nobody knows what became of them, and the file is given up.
    pub(crate) fn sync_temporary(&mut self) -> Result<(), HostFault>
        ensures faults { self.new.faults ≡ self.old.faults }
    {
        let Some(temporary) = self.temporary.take() else {
            return Err(HostFault::Failed);
        };
        temporary.file.sync_all()?;
        self.temporary = Some(temporary);
        Ok(())
    }

    // Moves the temporary file to a name that is not there, in a folder that is made where it is missing.
    pub(crate) fn publish_temporary(&mut self, folder: &str, name: &str) -> Result<(), HostFault>
        ensures faults { self.new.faults ≡ self.old.faults }
    {
        let Some(temporary) = &self.temporary else {
            return Err(HostFault::Failed);
        };
        let size = temporary.size;
        let path = self.make_way(folder)?;
        move_file(
            &self.host,
            &below(&self.base, TEMPORARY)?,
            &below(&path, name)?,
        )?;
        self.temporary = None;
        self.used = self.used.saturating_add(size);
        self.learn(folder);
        Ok(())
    }

    // Makes the folders of a place, one within the other, where they are missing.
    fn make_way(&mut self, folder: &str) -> Result<HostPath, HostFault>
        ensures faults { self.new.faults ≡ self.old.faults }
    {
        if !is_place(folder) {
            return Err(HostFault::Failed);
        }
        self.check_there()?;
        self.settle()?;
        make_folders(&self.host, &self.base, folder, &mut self.unsettled)
    }

    // Makes the names of new folders stable. Those that can't be are tried again before the next one is made.
    fn settle(&mut self) -> Result<(), HostFault>
        ensures faults { self.new.faults ≡ self.old.faults }
    {
        for folder in &self.unsettled {
            sync_folder(&self.host, folder)?;
        }
        self.unsettled.clear();
        Ok(())
    }

    // A folder has a file. Where memory is wanted for that, the folders are looked for again.
    fn learn(&mut self, folder: &str)
        ensures faults { self.new.faults ≡ self.old.faults }
    {
        if let Some(known) = &mut self.known {
            if known.add(self.host.alloc(), folder).is_err() {
                self.known = None;
            }
        }
    }

    // Gives a file another name of its folder, which is not there.
    pub(crate) fn rename_file(&self, folder: &str, from: &str, to: &str) -> Result<(), HostFault> {
        move_file(
            &self.host,
            &self.path(folder, from)?,
            &self.path(folder, to)?,
        )
    }

    // Removes a file. Its folder stays, also where it is empty then.
    pub(crate) fn remove_file(&mut self, folder: &str, name: &str) -> Result<(), HostFault>
        ensures faults { self.new.faults ≡ self.old.faults }
    {
        let path = self.path(folder, name)?;
        let size = size_of(&self.host, &path)?;
        fs::remove_file(&self.host, path.as_str())?;
        self.used = self.used.saturating_sub(size);
        self.unlearn(folder);
        Ok(())
    }

    // A folder may have no file any more. Where that can't be seen, the folders are looked for again.
    fn unlearn(&mut self, folder: &str)
        ensures faults { self.new.faults ≡ self.old.faults }
    {
        match self.file_names(folder) {
            Ok(names) if !names.is_empty() => {}
            Ok(_) => self.forget(folder),
            Err(_) => self.known = None,
        }
    }

    // A folder has no file.
    fn forget(&mut self, folder: &str)
        ensures faults { self.new.faults ≡ self.old.faults }
    {
        if let Some(known) = &mut self.known {
            known.forget(folder);
        }
    }

    // Makes the names in a folder stable, and its own.
    pub(crate) fn sync_names(&mut self, folder: &str) -> Result<(), HostFault>
        ensures faults { self.new.faults ≡ self.old.faults }
    {
        self.check_there()?;
        sync_folder(&self.host, &folder_below(&self.base, folder)?)?;
        self.settle()
    }

    // The path of a file, if the disk is there.
    fn path(&self, folder: &str, name: &str) -> Result<HostPath, HostFault> {
        self.check_there()?;
        below(&folder_below(&self.base, folder)?, name)
    }
}
