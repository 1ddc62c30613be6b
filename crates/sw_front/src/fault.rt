//! Why an operation over a link did not end.

ghost use Rattle.std.specs.Prelude.{◌≡◌};
ghost use Rattle.sw_front.specs.declared.fault.FrontFault.TheVariants.{NoMemory as WantOfMemory, StampsSpent as Spent};

use sw_message::DrawFault;
use sw_types::NoMemory;
use thiserror::Error;

/// Why an operation did not come to its end.
#[derive(Clone, Copy, Debug, PartialEq, Eq, Error)]
pub enum FrontFault {
    /// The last stamp was drawn before. Nothing was sent.
    #[error("stamps spent")]
    StampsSpent,
    #[error("out of memory")]
    NoMemory,
}

impl From<NoMemory> for FrontFault {
    ghost from_gives = { λ _ fault. fault ≡ WantOfMemory };

    fn from(_refused: NoMemory) -> FrontFault {
        FrontFault::NoMemory
    }
}

impl From<DrawFault> for FrontFault {
    ghost from_gives = { λ _ fault. fault ≡ Spent };

    fn from(fault: DrawFault) -> FrontFault {
        match fault {
            DrawFault::StampsSpent => FrontFault::StampsSpent,
        }
    }
}
