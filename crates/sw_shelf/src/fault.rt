//! Why a shelf hands out no disk.

ghost use Rattle.std.specs.Prelude.{◌≡◌};
ghost use Rattle.sw_shelf.specs.declared.fault.ShelfFault.TheVariants.{NoMemory as WantOfMemory};

use sw_types::NoMemory;
use thiserror::Error;

/// Why a shelf hands out no disk.
#[derive(Clone, Copy, Debug, PartialEq, Eq, Error)]
pub enum ShelfFault {
    /// There is no such disk to be had, and the shelf's count of faults rose.
    #[error("the shelf failed")]
    Failed,
    #[error("out of memory")]
    NoMemory,
}

impl From<NoMemory> for ShelfFault {
    ghost from_gives = { λ _ fault. fault ≡ WantOfMemory };

    fn from(_refused: NoMemory) -> ShelfFault {
        ShelfFault::NoMemory
    }
}
