//! Fields of answers.

ghost use Rattle.std.specs.Prelude.{◌≡◌, IfOk};
ghost use Rattle.std.specs.Fmt.{decimal};

use std::alloc::Global;
use sw_types::{Bytes, NoMemory};

/// The field of a name and a value.
pub fn field(alloc: Global, name: &[u8], value: &[u8]) -> Result<(Bytes, Bytes), NoMemory>
    ensures { IfOk result (λ field. field ≡ (name.now, value.now)) }
{
    Ok((
        Bytes::from_slice(alloc, name)?,
        Bytes::from_slice(alloc, value)?,
    ))
}

/// The field of a name and a decimal number.
pub fn number_field(alloc: Global, name: &[u8], number: u64) -> Result<(Bytes, Bytes), NoMemory>
    ensures { IfOk result (λ field. field ≡ (name.now, decimal number)) }
{
    let digits = format!(in alloc; "{number}")?;
    Ok((
        Bytes::from_slice(alloc, name)?,
        Bytes::from(digits.into_bytes()),
    ))
}
