//! One body's archives, made as a put makes them.

ghost use Rattle.std.specs.Prelude.{◌≤◌};
ghost use Rattle.sw_types.specs.Object.{greatest_body};

use crate::measure::SEGMENT;
use crate::put::Put;
use anyhow::Result;
use sw_cauchy::Code;

/// Makes all archives of one body of so many bytes as a put does, and prints a line with the length of each. Of the process
/// it shows what memory that takes.
pub fn print_lengths(rt: &(impl Print + AllocGlobal), code: Code, length: usize) -> Result<()>
    requires { length ≤ greatest_body }
{
    let put = Put::of(rt.alloc(), code, SEGMENT, length)?;
    let lengths = put.make_each(rt.alloc())?;
    for (index, bytes) in lengths.iter().enumerate() {
        println!(rt; "{index} {bytes}")?;
    }
    Ok(())
}
