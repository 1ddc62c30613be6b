//! What a step costs.

ghost use Rattle.std.specs.Prelude.{◌≡◌, ◌+◌, min};
ghost use Rattle.std.specs.Duration.{as_nanos, max_nanos};
ghost use Rattle.archive_bench.specs.Cost.{percent_of, rest_of};

use anyhow::Result;
use measuring::Rate;
use std::time::Duration;
use sw_cauchy::Code;

/// The time of a step, and the times that MD5 and the code's products alone take for it.
#[derive(Clone, Copy, Debug)]
pub struct Cost {
    pub whole: Duration,
    pub hashing: Duration,
    pub field: Duration,
}

impl Cost {
    /// The cost of this step and another.
    pub fn with(self, other: Cost) -> Cost
        ensures whole { as_nanos result.whole ≡ min (as_nanos self.whole + as_nanos other.whole) max_nanos }
        ensures hashing { as_nanos result.hashing ≡ min (as_nanos self.hashing + as_nanos other.hashing) max_nanos }
        ensures field { as_nanos result.field ≡ min (as_nanos self.field + as_nanos other.field) max_nanos }
    {
        Cost {
            whole: self.whole.saturating_add(other.whole),
            hashing: self.hashing.saturating_add(other.hashing),
            field: self.field.saturating_add(other.field),
        }
    }

    /// The time that is neither MD5 nor products.
    pub fn rest(self) -> Duration
        ensures { as_nanos result ≡ rest_of (as_nanos self.whole) (as_nanos self.hashing) (as_nanos self.field) }
    {
        self.whole
            .saturating_sub(self.hashing)
            .saturating_sub(self.field)
    }

    /// That time in hundredths of the whole.
    pub fn percent(self) -> u128
        ensures { result ≡ percent_of (rest_of (as_nanos self.whole) (as_nanos self.hashing) (as_nanos self.field)) (as_nanos self.whole) }
    {
        self.rest().as_nanos() * 100 / self.whole.as_nanos().max(1)
    }
}

/// Prints the names of a row's numbers.
pub fn print_header(rt: &impl Print) -> Result<()> {
    println!(rt; "    body  k  m step             MB/s  micros     md5   field    rest")?;
    Ok(())
}

/// Prints a row: the bytes of the body, the code and the step, how fast it goes, how many microseconds it takes, MD5 and
/// the products alone take, and are neither, and these in hundredths of the whole.
pub fn print_row(rt: &impl Print, code: Code, length: u32, step: &str, cost: Cost) -> Result<()> {
    let rate = Rate::of(length, cost.whole);
    println!(rt;
        "{length:>8} {:>2} {:>2} {step:<13} {:>6}.{} {:>7} {:>7} {:>7} {:>7} {:>3}%",
        code.k,
        code.m,
        rate.tenths / 10,
        rate.tenths % 10,
        cost.whole.as_micros(),
        cost.hashing.as_micros(),
        cost.field.as_micros(),
        cost.rest().as_micros(),
        cost.percent()
    )?;
    Ok(())
}
