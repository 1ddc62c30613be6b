//! How long some work takes.

use anyhow::{Result, bail};
use std::time::{CpuClock, Duration};

/// The processor time that some work took on average: it is done again and again, until all together took so many seconds,
/// and once at least. Other programs' work beside it doesn't count.
pub fn mean_time<T: Drop, F: Fn() -> Result<T>>(
    clock: &impl CpuClock,
    seconds: u64,
    work: F,
) -> Result<Duration>
    requires { F.IsAlwaysCallable work }
{
    let time = Duration::from_secs(seconds);
    let start = clock.thread_cpu_time()?;
    for runs in 1..u32::MAX {
        let _ = work()?;
        let taken = clock.thread_cpu_time()?.saturating_sub(start);
        if taken >= time {
            return Ok(taken / runs);
        }
    }
    bail!("the clock stands still")
}
