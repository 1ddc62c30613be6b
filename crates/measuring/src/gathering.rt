//! Fragments of a segment, gathered to decode it.

ghost use Rattle.std.specs.Prelude.{◌≡◌, ◌+◌, ◌≤◌, IfOk, length};
ghost use Rattle.sw_cauchy.specs.Stripe.{segment_fragments};
ghost use Rattle.measuring.specs.Gathered.{gathered_from};

use std::alloc::Global;
use sw_cauchy::{Code, Gather};
use sw_types::{Bytes, NoMemory};

/// The k of a segment's fragments from an index on, gathered in this order.
pub fn gather_from(
    alloc: Global,
    code: Code,
    segment: &[u8],
    fragments: &[Bytes],
    first: u32,
) -> Result<Gather, NoMemory>
    requires fragments { fragments.now ≡ segment_fragments code.k (code.k + code.m) segment.now }
    requires first { first ≤ code.m }
    ensures from { IfOk result (λ gather. gather ≡ gathered_from code.k code.m segment.now first code.k) }
    ensures enough { IfOk result (λ gather. length gather.shares ≡ gather.k) }
{
    let mut gather = Gather::new(alloc, code, code.fragment_width(segment.len()))?;
    for index in first..first + code.k {
        gather.add(index, fragments[index as usize].as_slice());
    }
    Ok(gather)
}
