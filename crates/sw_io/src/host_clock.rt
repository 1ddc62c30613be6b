//! The host's clock.

ghost use Rattle.std.specs.Prelude.{◌≡◌, ◌≤◌, ◌/◌, min};
ghost use Rattle.std.specs.Duration.{as_nanos};
ghost use Rattle.sw_types.specs.Stamp.{greatest_stamp};

use crate::Clock;
use std::time::{Clock as HostTime, Duration, SystemTime, UNIX_EPOCH};
use sw_types::Stamp;

/// The host's clock. It may tell each timestamp: 0 where the time can't be read or is before 1970, and the last one where it
/// is later than that. It may go back.
#[derive(Clone, Copy, Debug, Drop)]
pub struct HostClock<R> {
    host: R,
}

impl<R: HostTime> HostClock<R> {
    /// The clock of this host.
    pub fn new(host: R) -> Self {
        HostClock { host }
    }
}

impl<R: HostTime> Clock for HostClock<R> {
    ghost shows = { λ _ stamp. stamp ≤ greatest_stamp };

    fn now(&self) -> Stamp {
        let since = match SystemTime::now(&self.host) {
            Ok(time) => time.duration_since(UNIX_EPOCH).unwrap_or(Duration::ZERO),
            Err(_) => Duration::ZERO,
        };
        stamp_after(since)
    }
}

// The timestamp of a time since 1970, in units of ten microseconds, or the last one where it is later than that.
fn stamp_after(since: Duration) -> Stamp
    ensures { result ≡ min (as_nanos since / 10_000) greatest_stamp }
{
    let units = since.as_nanos() / 10_000;
    let units = units.min(u128::from(Stamp::GREATEST_UNITS)) as u64;
    Stamp::make(units).unwrap()
}
