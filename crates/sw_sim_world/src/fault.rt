//! Why a world does not do an event.

ghost use Rattle.std.specs.Prelude.{◌≡◌};
ghost use Rattle.sw_sim_world.specs.declared.fault.StepFault.TheVariants.{NoMemory as WantOfMemory};

use sw_types::NoMemory;
use thiserror::Error;

/// Why a world does not do an event. After each of these but want of memory it is as before.
#[derive(Clone, Copy, Debug, PartialEq, Eq, Error)]
pub enum StepFault {
    /// No message has that number; for a crash, no request.
    #[error("no such message")]
    NoSuchMessage,
    /// The ring has no device of that number.
    #[error("no such device")]
    NoSuchDevice,
    /// No operation has that number.
    #[error("no such operation")]
    NoSuchOperation,
    /// A put or a delete was to draw a stamp, and the last one there is was drawn before.
    #[error("stamps spent")]
    StampsSpent,
    #[error("out of memory")]
    NoMemory,
}

impl From<NoMemory> for StepFault {
    ghost from_gives = { λ _ fault. fault ≡ WantOfMemory };

    fn from(_refused: NoMemory) -> StepFault {
        StepFault::NoMemory
    }
}
