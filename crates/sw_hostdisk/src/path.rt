//! Paths of the host, which take no memory.

use crate::fault::HostFault;
use arrayvec::ArrayString;

/// A path of the host.
pub(crate) type HostPath = ArrayString<1024>;

/// The path of a name in a folder. A text that would lead elsewhere is no name, and a path that is too long is none.
pub(crate) fn below(folder: &HostPath, name: &str) -> Result<HostPath, HostFault> {
    if !is_name(name) {
        return Err(HostFault::Failed);
    }
    let mut path = *folder;
    if path.try_push('/').is_err() || path.try_push_str(name).is_err() {
        return Err(HostFault::Failed);
    }
    Ok(path)
}

// Whether a text names something in a folder. A NUL is refused with the path.
fn is_name(text: &str) -> bool {
    !text.is_empty() && text != "." && text != ".." && !text.contains('/')
}

/// The path of a folder by its text: names with slashes between them.
pub(crate) fn folder_below(base: &HostPath, folder: &str) -> Result<HostPath, HostFault> {
    let mut path = *base;
    for name in folder.split('/') {
        path = below(&path, name)?;
    }
    Ok(path)
}
