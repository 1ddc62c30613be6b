//! Which folder stands at a path.

use crate::fault::HostFault;
use crate::host::Host;
use crate::path::HostPath;
use std::fs;
use std::os::unix::fs::MetadataExt;

/// The folder that stands at a path, as the system tells folders apart: another one may come in its place, as that below a mount
/// point does when a file system goes.
#[derive(Clone, Copy, Debug, PartialEq, Eq)]
pub(crate) struct Identity {
    device: u64,
    inode: u64,
}

impl Identity {
    pub(crate) fn of<R: Host>(host: &R, path: &HostPath) -> Result<Identity, HostFault> {
        let metadata = fs::metadata(host, path.as_str())?;
        Ok(Identity {
            device: metadata.dev(),
            inode: metadata.ino(),
        })
    }
}
