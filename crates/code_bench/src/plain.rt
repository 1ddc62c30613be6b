//! The fragments of a segment, as their definition says.

ghost use Rattle.std.specs.Prelude.{◌≡◌, ◌+◌, ◌<◌, ◌≤◌, IfOk, length, slice_index};
ghost use Rattle.sw_cauchy.specs.Stripe.{fragment_width, segment_fragment, segment_fragments};
ghost use Rattle.sw_types.specs.Policy.{greatest_segment};

use std::alloc::Global;
use sw_cauchy::Code;
use sw_gf256::mul;
use sw_types::{Bytes, NoMemory};

/// The `k + m` fragments of a segment, the data fragments first, each byte computed on its own.
pub fn encode_plainly(alloc: Global, code: Code, segment: &[u8]) -> Result<Vec<Bytes>, NoMemory>
    requires { length segment.now ≤ greatest_segment }
    ensures { IfOk result (λ fragments. fragments.items ≡ segment_fragments code.k (code.k + code.m) segment.now) }
{
    let mut fragments = Vec::new(alloc);
    for i in 0..code.k + code.m {
        fragments.push(plain_fragment(alloc, code, segment, i)?)?;
    }
    Ok(fragments)
}

// Fragment `i` of a segment.
fn plain_fragment(alloc: Global, code: Code, segment: &[u8], i: u32) -> Result<Bytes, NoMemory>
    requires index { i < code.k + code.m }
    requires within { length segment.now ≤ greatest_segment }
    ensures { IfOk result (λ bytes. bytes ≡ segment_fragment code.k segment.now i) }
{
    let width = code.fragment_width(segment.len());
    let mut bytes = Vec::with_capacity(alloc, width)?;
    for position in 0..width {
        bytes.push(fragment_byte(code, segment, i, position))?;
    }
    Ok(Bytes::from(bytes))
}

// The byte at a position of fragment `i`: the sum over the pieces of an entry's product with the byte at that position
// of the piece.
fn fragment_byte(code: Code, segment: &[u8], i: u32, position: usize) -> u8
    requires index { i < code.k + code.m }
    requires within { length segment.now ≤ greatest_segment }
    requires position { position < fragment_width code.k (length segment.now) }
    ensures { result ≡ slice_index (segment_fragment code.k segment.now i) position }
{
    let width = code.fragment_width(segment.len());
    let mut sum = 0;
    for j in 0..code.k {
        let at = j as usize * width + position;
        let byte = segment.get(at).copied().unwrap_or(0);
        sum ^= mul(code.coefficient(i, j), byte);
    }
    sum
}
