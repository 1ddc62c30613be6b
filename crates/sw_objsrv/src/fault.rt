//! Why a node's disk is not mounted.

ghost use Rattle.std.specs.Prelude.{◌≡◌};
ghost use Rattle.sw_objsrv.specs.Mounting.{mount_fault};
ghost use Rattle.sw_objsrv.specs.declared.fault.MountFault.TheVariants.{NoMemory as WantOfMemory};

use sw_disk::DiskRefusal;
use sw_types::NoMemory;
use thiserror::Error;

/// Why a node's disk is not mounted.
#[derive(Clone, Copy, Debug, PartialEq, Eq, Error)]
pub enum MountFault {
    /// The disk failed, and its count of faults rose.
    #[error("the disk failed")]
    Failed,
    #[error("out of memory")]
    NoMemory,
}

impl From<NoMemory> for MountFault {
    ghost from_gives = { λ _ fault. fault ≡ WantOfMemory };

    fn from(_refused: NoMemory) -> MountFault {
        MountFault::NoMemory
    }
}

impl From<DiskRefusal> for MountFault {
    ghost from_gives = { λ refusal fault. fault ≡ mount_fault refusal };

    // Mounting writes no bytes, so that the disk is not full.
    fn from(refusal: DiskRefusal) -> MountFault {
        match refusal {
            DiskRefusal::Failed => MountFault::Failed,
            DiskRefusal::NoMemory | DiskRefusal::Full { .. } => MountFault::NoMemory,
        }
    }
}
