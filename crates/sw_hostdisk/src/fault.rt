//! Why a call of the host went wrong.

ghost use Rattle.std.specs.Prelude.{◌≡◌};
ghost use Rattle.sw_hostdisk.specs.declared.fault.HostFault.TheVariants.{NoMemory as WantOfMemory};

use std::alloc::{AllocError, AllocFailed};
use std::io;
use std::io::ErrorKind;

/// Why a call of the host went wrong.
#[derive(Clone, Copy, Debug, PartialEq, Eq)]
pub(crate) enum HostFault {
    /// The host failed, or found there what should not be there.
    Failed,
    NoMemory,
}

impl From<io::Error> for HostFault {
    fn from(error: io::Error) -> HostFault {
        if error.kind() == ErrorKind::OutOfMemory {
            HostFault::NoMemory
        } else {
            HostFault::Failed
        }
    }
}

impl From<AllocError> for HostFault {
    ghost from_gives = { λ _ fault. fault ≡ WantOfMemory };

    fn from(_refused: AllocError) -> HostFault {
        HostFault::NoMemory
    }
}

impl<T: Drop> From<AllocFailed<T>> for HostFault {
    ghost from_gives = { λ _ fault. fault ≡ WantOfMemory };

    fn from(_refused: AllocFailed<T>) -> HostFault {
        HostFault::NoMemory
    }
}
