//! Why a disk refuses a call.

ghost use Rattle.std.specs.Prelude.{◌≡◌};
ghost use Rattle.sw_disk.specs.declared.refusal.DiskRefusal.TheVariants.{NoMemory as WantOfMemory};

use sw_types::NoMemory;
use thiserror::Error;

/// Why a disk refuses a call.
#[derive(Clone, Copy, Debug, PartialEq, Eq, Error)]
pub enum DiskRefusal {
    /// The disk failed, and its count of faults rose.
    #[error("the disk failed")]
    Failed,
    /// So many bytes were wanted, and fewer were free.
    #[error("the disk is full")]
    Full { need: u64, free: u64 },
    #[error("out of memory")]
    NoMemory,
}

impl From<NoMemory> for DiskRefusal {
    ghost from_gives = { λ _ refusal. refusal ≡ WantOfMemory };

    fn from(_refused: NoMemory) -> DiskRefusal {
        DiskRefusal::NoMemory
    }
}
