//! Four lanes.

ghost use Rattle.std.specs.Prelude.{◌≡◌, ℕ, slice_index};

use crate::lanes::Lanes;
use std::simd::prelude::*;

impl Lanes for u32x4 {
    ghost width = { 4 };

    ghost lane = { λ vector j. slice_index vector j };

    fn width() -> usize {
        4
    }

    #[inline(always)]
    fn from_words(words: [u32; 8]) -> u32x4 {
        u32x4::from_array([words[0], words[1], words[2], words[3]])
    }

    #[inline(always)]
    fn to_words(self) -> [u32; 8] {
        let [a, b, c, d] = self.to_array();
        [a, b, c, d, 0, 0, 0, 0]
    }

    #[inline(always)]
    fn same(word: u32) -> u32x4 {
        u32x4::splat(word)
    }

    #[inline(always)]
    fn apply_f(x: u32x4, y: u32x4, z: u32x4) -> u32x4 {
        (x & y) | (!x & z)
    }

    #[inline(always)]
    fn apply_g(x: u32x4, y: u32x4, z: u32x4) -> u32x4 {
        (x & z) | (y & !z)
    }

    #[inline(always)]
    fn apply_h(x: u32x4, y: u32x4, z: u32x4) -> u32x4 {
        x ^ y ^ z
    }

    #[inline(always)]
    fn apply_i(x: u32x4, y: u32x4, z: u32x4) -> u32x4 {
        y ^ (x | !z)
    }

    #[inline(always)]
    fn plus(self, other: u32x4) -> u32x4 {
        self + other
    }

    #[inline(always)]
    fn rotated(self, bits: u32) -> u32x4 {
        (self << u32x4::splat(bits)) | (self >> u32x4::splat(32 - bits))
    }
}
