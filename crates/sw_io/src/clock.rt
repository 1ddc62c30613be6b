//! Clocks.

ghost use Rattle.std.specs.Prelude.{◌≡◌, ℕ};

use std::marker::Model;
use sw_types::Stamp;

/// What tells the time.
pub trait Clock {
    /// Whether the clock may tell this timestamp.
    ghost shows: { Self → ℕ → Type 0 };

    /// The time, as a timestamp.
    fn now(&self) -> Stamp
        ensures { shows self.now result };
}

/// A clock that stands at one timestamp, for tests.
#[derive(Debug, Drop)]
pub struct MemClock {
    stamp: Stamp,
}

impl Model for MemClock {
    ghost use Rattle.std.specs.Prelude.{ℕ};

    ghost Value = { ℕ };

    ghost view = { λ clock. clock.stamp };
}

impl MemClock {
    /// A clock that stands at this timestamp.
    pub fn new(stamp: Stamp) -> Self
        ensures { result ≡ stamp }
    {
        MemClock { stamp }
    }
}

impl Clock for MemClock {
    ghost shows = { λ clock stamp. stamp ≡ clock };

    fn now(&self) -> Stamp
        ensures { result ≡ self.now }
    {
        self.stamp
    }
}
