//! The parity fragments of a segment alone.

ghost use Rattle.std.specs.Prelude.{◌≡◌, IfOk, map};
ghost use Rattle.std.specs.List.{range_with_len};
ghost use Rattle.sw_cauchy.specs.Stripe.{segment_fragment};

use std::alloc::Global;
use sw_cauchy::Code;
use sw_types::{Bytes, NoMemory};

/// The `m` parity fragments of a segment, made as `Code::encode_stripe` makes them behind the data fragments.
pub fn encode_parity(alloc: Global, code: Code, segment: &[u8]) -> Result<Vec<Bytes>, NoMemory>
    ensures { IfOk result (λ fragments. fragments.items ≡ map (segment_fragment code.k segment.now) (range_with_len code.k code.m)) }
{
    let width = code.fragment_width(segment.len());
    let mut fragments = Vec::with_capacity(alloc, code.m as usize)?;
    for index in code.k..code.k + code.m {
        let mut fragment = vec![in alloc; 0; width]?;
        code.write_fragment(&mut fragment, segment, index);
        fragments.push(Bytes::from(fragment))?;
    }
    Ok(fragments)
}
