//! Bytes of a fixed pattern.

ghost use Rattle.std.specs.Prelude.{◌≡◌, IfOk, length};
ghost use Rattle.measuring.specs.Pattern.{pattern_bytes};

use std::alloc::Global;
use sw_types::NoMemory;

/// So many bytes, which count up to 250 and begin again.
#[tactic(auto, unfolding(crate::specs::Pattern::pattern_bytes))]
pub fn pattern(alloc: Global, count: usize) -> Result<Vec<u8>, NoMemory>
    ensures bytes { IfOk result (λ bytes. bytes.items ≡ pattern_bytes count) }
    ensures length { IfOk result (λ bytes. length bytes.items ≡ count) }
{
    let bytes = (0..count).map(|index| (index % 251) as u8);
    Ok(bytes.collect(alloc)?)
}
