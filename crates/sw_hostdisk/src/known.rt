//! The folders of a disk that have a file.

use crate::fault::HostFault;
use std::alloc::Global;
use std::collections::BTreeSet;

/// The folders of a disk that have a file, as they were found once and as the disk changed them since. Nobody else makes names
/// there, so that they need not be looked for again.
#[derive(Drop)]
pub(crate) struct KnownFolders {
    folders: BTreeSet<String>,
}

impl KnownFolders {
    /// These folders.
    pub(crate) fn of(alloc: Global, found: Vec<String>) -> Result<KnownFolders, HostFault> {
        let mut folders = BTreeSet::new(alloc);
        for folder in found {
            folders.insert(folder)?;
        }
        Ok(KnownFolders { folders })
    }

    /// Their texts.
    pub(crate) fn texts(&self, alloc: Global) -> Result<Vec<String>, HostFault> {
        let mut texts = Vec::with_capacity(alloc, self.folders.len())?;
        for folder in &self.folders {
            texts.push(folder.clone()?)?;
        }
        Ok(texts)
    }

    /// Adds a folder, where it is not there.
    pub(crate) fn add(&mut self, alloc: Global, folder: &str) -> Result<(), HostFault> {
        if !self.folders.contains(folder) {
            self.folders.insert(String::from_str(alloc, folder)?)?;
        }
        Ok(())
    }

    /// Takes a folder out.
    pub(crate) fn forget(&mut self, folder: &str) {
        self.folders.remove(folder);
    }
}
