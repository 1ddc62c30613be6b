//! What is wrong with a ring's text.

ghost use Rattle.std.specs.Prelude.{◌≡◌};
ghost use Rattle.sw_ring.specs.declared.fault.RingFault.TheVariants.{NoMemory as WantOfMemory, Policy as BrokenPolicy};

use std::alloc::{AllocError, AllocFailed};
use sw_types::{NoMemory, PolicyFault};
use thiserror::Error;

/// A member of a ring's object, or the object.
#[derive(Clone, Copy, Debug, PartialEq, Eq)]
pub enum Member {
    Ring,
    PartPower,
    HashPrefix,
    HashSuffix,
    K,
    M,
    Q,
    C,
    Segment,
    Devices,
    Rows,
}

/// The first rule that a ring's text breaks, in the order of the variants.
#[derive(Clone, Copy, Debug, PartialEq, Eq, Error)]
pub enum RingFault {
    /// The text is not JSON, or not UTF-8.
    #[error("not JSON")]
    NotJson,
    /// The value is not an object, or this member is missing, of another kind, or out of its range.
    #[error("a faulty member")]
    Field(Member),
    /// The partition power is above 16.
    #[error("a partition power of {0}")]
    PartPower(u64),
    /// The policy breaks a bound.
    #[error("a faulty policy")]
    Policy(PolicyFault),
    /// There are more than 64 devices.
    #[error("{0} devices")]
    TooManyDevices(usize),
    /// Two devices have this id.
    #[error("two devices {0}")]
    DuplicateDevice(u16),
    /// There is not one row for each fragment.
    #[error("{0} rows")]
    RowCount(usize),
    /// This row has not one device for each partition.
    #[error("the length of row {0}")]
    RowLength(usize),
    /// A row names a device that is not there.
    #[error("no device {0}")]
    UnknownDevice(u16),
    /// Two rows name this device for one partition.
    #[error("twice in partition {0} device {1}")]
    SameDeviceTwice(usize, u16),
    #[error("out of memory")]
    NoMemory,
}

impl RingFault {
    ghost use Rattle.sw_ring.specs.Numbered.{ring_fault_number};

    /// The number by which an answer names this fault: 0 for want of memory, and 1 to 10 for what is wrong with the text.
    pub fn number(&self) -> u8
        ensures { result ≡ ring_fault_number self.now }
    {
        match self {
            RingFault::NoMemory => 0,
            RingFault::NotJson => 1,
            RingFault::Field(_) => 2,
            RingFault::Policy(_) => 3,
            RingFault::RowCount(_) => 4,
            RingFault::RowLength(_) => 5,
            RingFault::UnknownDevice(_) => 6,
            RingFault::SameDeviceTwice(_, _) => 7,
            RingFault::PartPower(_) => 8,
            RingFault::TooManyDevices(_) => 9,
            RingFault::DuplicateDevice(_) => 10,
        }
    }
}

impl From<PolicyFault> for RingFault {
    ghost from_gives = { λ fault broken. broken ≡ BrokenPolicy fault };

    fn from(fault: PolicyFault) -> RingFault {
        RingFault::Policy(fault)
    }
}

impl From<AllocError> for RingFault {
    ghost from_gives = { λ _ fault. fault ≡ WantOfMemory };

    fn from(_refused: AllocError) -> RingFault {
        RingFault::NoMemory
    }
}

impl<T: Drop> From<AllocFailed<T>> for RingFault {
    ghost from_gives = { λ _ fault. fault ≡ WantOfMemory };

    fn from(_refused: AllocFailed<T>) -> RingFault {
        RingFault::NoMemory
    }
}

impl From<NoMemory> for RingFault {
    ghost from_gives = { λ _ fault. fault ≡ WantOfMemory };

    fn from(_refused: NoMemory) -> RingFault {
        RingFault::NoMemory
    }
}
