//! MD5 and the code's products alone, as archives need them.

ghost use Rattle.std.specs.Prelude.{◌≡◌, ◌+◌, ◌-◌, ◌<◌, ◌≤◌, IfOk, length, map};
ghost use Rattle.md5.specs.Md5.{md5};
ghost use Rattle.measuring.specs.Gathered.{gathered_from};
ghost use Rattle.sw_cauchy.specs.Stripe.{fragment_width, segment_fragment};

use md5::{Digest, Md5};
use measuring::gather_from;
use std::alloc::Global;
use sw_cauchy::{Code, Gather};
use sw_types::{Bytes, NoMemory};

/// The MD5 of each of some bytes.
pub fn digests(alloc: Global, pieces: &[Bytes]) -> Result<Vec<[u8; 16]>, NoMemory>
    ensures { IfOk result (λ digests. digests.items ≡ map md5 pieces.now) }
{
    let mut digests = Vec::with_capacity(alloc, pieces.len())?;
    for piece in pieces {
        digests.push(Md5::digest(piece.as_slice()))?;
    }
    Ok(digests)
}

/// Computes the fragments of all segments of a body, and keeps none.
pub fn encode(alloc: Global, code: Code, body: &[u8], size: usize) -> Result<(), NoMemory>
    requires { 0 < size }
{
    for segment in body.chunks(size) {
        let _ = last_fragment(alloc, code, segment)?;
    }
    Ok(())
}

// The last fragment of a segment, written over all others.
fn last_fragment(alloc: Global, code: Code, segment: &[u8]) -> Result<Bytes, NoMemory>
    ensures { IfOk result (λ fragment. fragment ≡ segment_fragment code.k segment.now (code.k + code.m - 1)) }
{
    let mut fragment = vec![in alloc; 0; code.fragment_width(segment.len())]?;
    for index in 0..code.k + code.m {
        code.write_fragment(&mut fragment, segment, index);
    }
    Ok(Bytes::from(fragment))
}

/// Enough fragments of a segment, gathered, and how many bytes it has.
#[derive(Debug, Drop)]
pub struct Gathered {
    gather: Gather,
    count: usize,
    ghost enough: { length gather.shares ≡ gather.k },
    ghost fits: { fragment_width gather.k count ≡ gather.width },
}

impl Gathered {
    // The k fragments of a segment from an index on.
    fn of(alloc: Global, code: Code, segment: &[u8], first: u32) -> Result<Gathered, NoMemory>
        requires { first ≤ code.m }
        ensures gather { IfOk result (λ gathered. gathered.gather ≡ gathered_from code.k code.m segment.now first code.k) }
        ensures count { IfOk result (λ gathered. gathered.count ≡ length segment.now) }
    {
        let fragments = code.encode_stripe(alloc, segment)?;
        let gather = gather_from(alloc, code, segment, &fragments, first)?;
        let count = segment.len();
        Ok(Gathered { gather, count })
    }
}

/// The k fragments from an index on of each segment of a body.
pub fn gather_all(
    alloc: Global,
    code: Code,
    body: &[u8],
    size: usize,
    first: u32,
) -> Result<Vec<Gathered>, NoMemory>
    requires size { 0 < size }
    requires first { first ≤ code.m }
{
    let mut all = Vec::new(alloc);
    for segment in body.chunks(size) {
        all.push(Gathered::of(alloc, code, segment, first)?)?;
    }
    Ok(all)
}

/// Decodes all segments, and keeps none.
pub fn decode(alloc: Global, all: &[Gathered]) -> Result<(), NoMemory> {
    for gathered in all {
        let _ = gathered.gather.finish(alloc, gathered.count)?;
    }
    Ok(())
}
