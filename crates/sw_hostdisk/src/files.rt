//! Files and folders of the host by their paths.

use crate::fault::HostFault;
use crate::host::Host;
use crate::path::{HostPath, below};
use arrayvec::ArrayVec;
use std::alloc::Global;
use std::fs;
use std::fs::File;
use std::io::{ErrorKind, Read};

/// Makes the names in a folder stable. The system lets a folder be opened and synced as a file is.
pub(crate) fn sync_folder<R: Host>(host: &R, folder: &HostPath) -> Result<(), HostFault> {
    File::open(host, folder.as_str())?.sync_all()?;
    Ok(())
}

/// Folders in which a folder was made whose name is not stable yet.
pub(crate) type Unsettled = ArrayVec<HostPath, 4>;

/// Makes the folders that a text names, one within the other, where they are missing. What is there and no folder, as a link, is
/// somebody else's.
pub(crate) fn make_folders<R: Host>(
    host: &R,
    base: &HostPath,
    folder: &str,
    unsettled: &mut Unsettled,
) -> Result<HostPath, HostFault> {
    let mut path = *base;
    for name in folder.split('/') {
        let (next, is_new) = make_folder(host, &path, name)?;
        if !is_new {
            require_folder(host, &next)?;
        } else if unsettled.try_push(path).is_err() {
            sync_folder(host, &path)?;
        }
        path = next;
    }
    Ok(path)
}

// Fails where there is no folder, but a link to one, say.
fn require_folder<R: Host>(host: &R, path: &HostPath) -> Result<(), HostFault> {
    if fs::symlink_metadata(host, path.as_str())?.is_dir() {
        Ok(())
    } else {
        Err(HostFault::Failed)
    }
}

/// Makes a folder within another, where it is missing, and tells whether it was. Its name is not stable by that.
pub(crate) fn make_folder<R: Host>(
    host: &R,
    parent: &HostPath,
    name: &str,
) -> Result<(HostPath, bool), HostFault> {
    let path = below(parent, name)?;
    match fs::create_dir(host, path.as_str()) {
        Ok(()) => Ok((path, true)),
        Err(error) if error.kind() == ErrorKind::AlreadyExists => Ok((path, false)),
        Err(error) => Err(error.into()),
    }
}

/// How many bytes a plain file has. Anything else, as a link, is no file of a disk.
pub(crate) fn size_of<R: Host>(host: &R, path: &HostPath) -> Result<u64, HostFault> {
    let metadata = fs::symlink_metadata(host, path.as_str())?;
    if metadata.is_file() {
        Ok(metadata.len())
    } else {
        Err(HostFault::Failed)
    }
}

/// The bytes of a plain file.
pub(crate) fn read_file<R: Host>(
    host: &R,
    alloc: Global,
    path: &HostPath,
) -> Result<Vec<u8>, HostFault> {
    let size = size_of(host, path)? as usize;
    // With room for one byte more, the end is found without another room.
    let mut bytes = Vec::with_capacity(alloc, size.saturating_add(1))?;
    File::open(host, path.as_str())?.read_to_end(&mut bytes)?;
    Ok(bytes)
}

/// Moves a plain file to a path at which there is nothing. The system's own call would replace what is there, so that is
/// looked at first: nobody else makes names below a folder that is locked. One call of the system makes the change, so a
/// crash leaves the file at the one path or at the other.
pub(crate) fn move_file<R: Host>(
    host: &R,
    from: &HostPath,
    to: &HostPath,
) -> Result<(), HostFault> {
    size_of(host, from)?;
    match fs::symlink_metadata(host, to.as_str()) {
        Ok(_) => Err(HostFault::Failed),
        Err(error) if error.kind() == ErrorKind::NotFound => {
            fs::rename(host, from.as_str(), to.as_str())?;
            Ok(())
        }
        Err(error) => Err(error.into()),
    }
}

/// Removes a file or a link, where there is one.
pub(crate) fn clear_file<R: Host>(host: &R, path: &HostPath) -> Result<(), HostFault> {
    match fs::remove_file(host, path.as_str()) {
        Ok(()) => Ok(()),
        Err(error) if error.kind() == ErrorKind::NotFound => Ok(()),
        Err(error) => Err(error.into()),
    }
}
