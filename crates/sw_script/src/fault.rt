//! Why a line tells nothing.

ghost use Rattle.std.specs.Prelude.{◌≡◌};
ghost use Rattle.sw_script.specs.Line.{line_fault_number};
ghost use Rattle.sw_script.specs.declared.fault.LineFault.TheVariants.{NoMemory as WantOfMemory};

use std::alloc::AllocError;
use sw_types::NoMemory;
use thiserror::Error;

/// The first fault of a line, in the order in which they are tried. Those of messages, devices and operations are found in a world.
#[derive(Clone, Copy, Debug, PartialEq, Eq, Error)]
pub enum LineFault {
    /// It has more than 65,536 bytes.
    #[error("too long")]
    TooLong,
    /// Its words are none of the forms, or a timestamp is none.
    #[error("no form of a line")]
    Form,
    /// A number is no decimal below 2^64.
    #[error("not a number")]
    BadNumber,
    /// A name is none.
    #[error("not a name")]
    BadName,
    /// A body is no hex text.
    #[error("not hex")]
    BadHex,
    /// No message has a number; for a crash, no request.
    #[error("no such message")]
    NoMessage,
    /// The ring has no device of a number.
    #[error("no such device")]
    NoDevice,
    /// No operation has a number.
    #[error("no such operation")]
    NoOperation,
    #[error("out of memory")]
    NoMemory,
}

impl LineFault {
    /// The number that is printed. Want of memory has none, and answers 0.
    pub fn number(self) -> u8
        ensures { result ≡ line_fault_number self }
    {
        match self {
            LineFault::Form => 1,
            LineFault::BadNumber => 2,
            LineFault::BadHex => 3,
            LineFault::BadName => 4,
            LineFault::TooLong => 5,
            LineFault::NoMessage => 6,
            LineFault::NoDevice => 7,
            LineFault::NoOperation => 8,
            LineFault::NoMemory => 0,
        }
    }
}

impl From<NoMemory> for LineFault {
    ghost from_gives = { λ _ fault. fault ≡ WantOfMemory };

    fn from(_refused: NoMemory) -> LineFault {
        LineFault::NoMemory
    }
}

impl From<AllocError> for LineFault {
    ghost from_gives = { λ _ fault. fault ≡ WantOfMemory };

    fn from(_refused: AllocError) -> LineFault {
        LineFault::NoMemory
    }
}
