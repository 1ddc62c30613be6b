//! Which doors stand behind the lock of a server.

use std::marker::Brand;

/// Which doors they are, what contracts saw of them when they were opened, which times the clock may show, and whether the disks tell what they
/// hold. Each call of a program picks it: of what stands behind a lock nothing is known but what its type says.
pub(crate) trait Opening {
    ghost use Rattle.std.specs.Prelude.{ℕ, Bool};
    ghost use Rattle.sw_server.specs.Visits.{DoorsSeen};

    /// The borrow of the doors.
    ghost borrow: { ℕ };

    ghost began: { DoorsSeen };

    ghost times: { ℕ → Type 0 };

    ghost tells: { Bool };
}

impl Opening for Brand {
    ghost use Rattle.std.specs.Prelude.{[], None, ⊤, false};

    ghost borrow = { 0 };

    ghost began = { record { ports = []; handed = 0; faults = 0; back = None; left = None } };

    ghost times = { λ time. ⊤ };

    ghost tells = { false };
}
