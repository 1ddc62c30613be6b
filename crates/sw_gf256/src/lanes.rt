//! Multiples of an element, 64 bytes at a time: the product with a byte is the sum of the products with its low and its
//! high half, and each of those is looked up in a table of 16 that fits a vector.

ghost use Rattle.std.specs.Prelude.{◌≡◌, ◌+◌, ◌*◌, ◌/◌, ◌%◌, ◌<◌, ◌≤◌, ℕ, length, map, slice_index, bit_xor};
ghost use Rattle.std.specs.Simd.Lanes.{zip2, chunk, put_chunk};
ghost use Rattle.sw_gf256.specs.Field.{product, plus_multiple};
ghost use Rattle.sw_gf256.specs.Lanes.{HasLanes};

use crate::field::mul;
use std::simd::prelude::*;

// The bytes of a block.
const BLOCK: usize = 64;

/// An element, and its products with each low and each high half of a byte.
#[derive(Clone, Copy)]
pub(crate) struct Multiples {
    factor: u8,
    low: [u8; 16],
    high: [u8; 16],
    ghost low_products: { (half : ℕ) → half < 16 → slice_index low half ≡ product factor half },
    ghost high_products: { (half : ℕ) → half < 16 → slice_index high half ≡ product factor (half * 16) },
}

impl Multiples {
    /// The multiples of an element.
    pub(crate) fn of(factor: u8) -> Multiples
        ensures { result.factor ≡ factor }
    {
        let mut low = [0; 16];
        let mut high = [0; 16];
        for half in 0..16u8 {
            low[half as usize] = mul(factor, half);
            high[half as usize] = mul(factor, half * 16);
        }
        Multiples { factor, low, high }
    }

    /// Adds the element times each element of `src` to the element of `dst` at the same index.
    pub(crate) fn add(&self, dst: &mut [u8], src: &[u8])
        requires { length dst.old ≡ length src.now }
        ensures { dst.new ≡ plus_multiple dst.old src.now self.now.factor }
    {
        let blocks = src.len() / BLOCK;
        for block in 0..blocks {
            self.add_block(dst, src, block * BLOCK);
        }
        for index in blocks * BLOCK..src.len() {
            dst[index] ^= self.times(src[index]);
        }
    }

    // The same for the elements of one block.
    #[inline(always)]
    fn add_block(&self, dst: &mut [u8], src: &[u8], at: usize)
        requires src { at + 64 ≤ length src.now }
        requires dst { at + 64 ≤ length dst.old }
        ensures { dst.new ≡ put_chunk at dst.old (zip2 bit_xor (chunk at 64 dst.old) (map (product self.now.factor) (chunk at 64 src.now))) }
    {
        let products = self.times_lanes(u8x64::from_slice(&src[at..]));
        let sums = u8x64::from_slice(&dst[at..]) ^ products;
        sums.copy_to_slice(&mut dst[at..]);
    }

    // The product with one byte.
    #[inline(always)]
    fn times(&self, byte: u8) -> u8
        ensures { result ≡ product self.now.factor byte }
    {
        self.low[(byte % 16) as usize] ^ self.high[(byte / 16) as usize]
    }

    // The product with each byte of a block.
    #[inline(always)]
    fn times_lanes(&self, bytes: u8x64) -> u8x64
        ensures { HasLanes result (λ lane. product self.now.factor (slice_index bytes lane)) }
    {
        by_low_half(&self.low, bytes) ^ by_high_half(&self.high, bytes)
    }
}

// Looks up the low half of each byte.
#[inline(always)]
fn by_low_half(table: &[u8; 16], bytes: u8x64) -> u8x64
    ensures { HasLanes result (λ lane. slice_index table.now (slice_index bytes lane % 16)) }
{
    four_times(table).swizzle_dyn_within::<16>(bytes & u8x64::splat(15))
}

// Looks up the high half of each byte.
#[inline(always)]
fn by_high_half(table: &[u8; 16], bytes: u8x64) -> u8x64
    ensures { HasLanes result (λ lane. slice_index table.now (slice_index bytes lane / 16)) }
{
    four_times(table).swizzle_dyn_within::<16>(bytes >> u8x64::splat(4))
}

// A table in each quarter of a vector.
#[inline(always)]
fn four_times(table: &[u8; 16]) -> u8x64
    ensures { HasLanes result (λ lane. slice_index table.now (lane % 16)) }
{
    u8x16::from_slice(table).swizzle([
        0, 1, 2, 3, 4, 5, 6, 7, 8, 9, 10, 11, 12, 13, 14, 15, 0, 1, 2, 3, 4, 5, 6, 7, 8, 9, 10, 11,
        12, 13, 14, 15, 0, 1, 2, 3, 4, 5, 6, 7, 8, 9, 10, 11, 12, 13, 14, 15, 0, 1, 2, 3, 4, 5, 6,
        7, 8, 9, 10, 11, 12, 13, 14, 15,
    ])
}
