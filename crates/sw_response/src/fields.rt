//! Fields that tell of an object.

ghost use Rattle.std.specs.Prelude.{◌≡◌, IfOk, length};
ghost use Rattle.sw_types.specs.Head.{Pair};
ghost use Rattle.sw_response.specs.Response.{pair_field, stamp_field, tag_field};

use std::alloc::Global;
use sw_httpwrite::field;
use sw_types::{Bytes, NoMemory, Stamp};

/// The MD5 of a body, as its entity tag.
pub(crate) fn tag_field(alloc: Global, digest: [u8; 16]) -> Result<(Bytes, Bytes), NoMemory>
    ensures { IfOk result (λ field. field ≡ tag_field digest) }
{
    let mut digits = [0; 32];
    hex::encode_to_slice(&digest, &mut digits).unwrap();
    field(alloc, b"ETag", &digits)
}

/// The stamp of an object.
pub(crate) fn stamp_field(alloc: Global, stamp: Stamp) -> Result<(Bytes, Bytes), NoMemory>
    ensures { IfOk result (λ field. field ≡ stamp_field stamp) }
{
    field(alloc, b"X-Timestamp", &stamp.print())
}

/// A pair of an object's head.
pub(crate) fn pair_field(alloc: Global, pair: &(Bytes, Bytes)) -> Result<(Bytes, Bytes), NoMemory>
    ensures { IfOk result (λ field. field ≡ pair_field pair.now) }
{
    let mut name = Bytes::from_slice(alloc, b"X-Object-Meta-")?;
    name.extend_from_slice(pair.0.as_slice())?;
    Ok((name, pair.1.clone()?))
}
