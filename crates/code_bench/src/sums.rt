//! A multiple of some bytes, added again and again.

ghost use Rattle.std.specs.Prelude.{◌≡◌, IfOk, length};

use std::alloc::Global;
use sw_gf256::mul_acc;
use sw_types::NoMemory;

/// A multiple of some bytes, added to zeros so many times.
pub fn add_often(alloc: Global, bytes: &[u8], factor: u8, times: u32) -> Result<Vec<u8>, NoMemory>
    ensures { IfOk result (λ sum. length sum.items ≡ length bytes.now) }
{
    let mut sum = vec![in alloc; 0; bytes.len()]?;
    for _ in 0..times {
        mul_acc(&mut sum, bytes, factor);
    }
    Ok(sum)
}
