//! How fast bytes are worked on.

ghost use Rattle.std.specs.Prelude.{◌≡◌};
ghost use Rattle.std.specs.Duration.{as_nanos};
ghost use Rattle.measuring.specs.Rate.{tenths_of};

use std::fmt;
use std::time::Duration;

/// How many bytes are worked on in a second, in tenths of 10^6.
#[derive(Clone, Copy, Debug)]
pub struct Rate {
    pub tenths: u128,
}

impl Rate {
    /// The rate of so many bytes in this time.
    pub fn of(bytes: u32, time: Duration) -> Rate
        ensures { result.tenths ≡ tenths_of bytes (as_nanos time) }
    {
        let tenths = u128::from(bytes) * 10_000 / time.as_nanos().max(1);
        Rate { tenths }
    }
}

impl fmt::Display for Rate {
    ghost use Rattle.std.specs.Prelude.{Some};
    ghost use Rattle.measuring.specs.Rate.{rate_text};

    ghost output = { λ rate. Some (rate_text rate.tenths) };

    fn fmt<W: fmt::Write>(&self, f: &mut fmt::Formatter<W>) -> fmt::Result {
        write!(f, "{}.{}", self.tenths / 10, self.tenths % 10)
    }
}
