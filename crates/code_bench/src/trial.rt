//! A code, tried on a short segment.

ghost use Rattle.std.specs.Prelude.{◌≡◌, ◌+◌, ◌↔◌, IfOk, IsTrue};
ghost use Rattle.sw_cauchy.specs.Stripe.{segment_fragments};

use crate::plain::encode_plainly;
use anyhow::{Result, ensure};
use measuring::{gather_from, pattern};
use std::alloc::Global;
use sw_cauchy::Code;
use sw_types::{Bytes, NoMemory};

/// Tries a code, and prints a line for it. The contracts of the calls say that it is right; a run shows it of the
/// program as it was built.
pub fn try_code(rt: &(impl Print + AllocGlobal), code: Code) -> Result<()> {
    let right = is_right(rt.alloc(), code)?;
    ensure!(right, "{} {} is wrong", code.k, code.m);
    println!(rt; "{} {} ok", code.k, code.m)?;
    Ok(())
}

// Whether the fragments of a segment of 1,000 bytes are those of the definition, and the last k give it back. They are
// and do, so every answer is yes.
fn is_right(alloc: Global, code: Code) -> Result<bool, NoMemory>
    ensures { IfOk result (λ right. IsTrue right) }
{
    let segment = pattern(alloc, 1_000)?;
    let fragments = code.encode_stripe(alloc, &segment)?;
    let plain = encode_plainly(alloc, code, &segment)?;
    let decoded = decode_last(alloc, code, &segment, &fragments)?;
    Ok(agrees(&fragments, &plain, &segment, decoded.as_slice()))
}

// The segment, decoded from its last k fragments.
fn decode_last(
    alloc: Global,
    code: Code,
    segment: &[u8],
    fragments: &[Bytes],
) -> Result<Bytes, NoMemory>
    requires { fragments.now ≡ segment_fragments code.k (code.k + code.m) segment.now }
    ensures { IfOk result (λ decoded. decoded ≡ segment.now) }
{
    let gather = gather_from(alloc, code, segment, fragments, code.m)?;
    gather.finish(alloc, segment.len())
}

// Whether two ways to encode give the same fragments, and the segment was decoded.
fn agrees(fragments: &[Bytes], plain: &[Bytes], segment: &[u8], decoded: &[u8]) -> bool
    ensures { IsTrue result ↔ ((fragments.now ≡ plain.now) × (segment.now ≡ decoded.now)) }
{
    fragments == plain && segment == decoded
}
