//! Eight lanes.

ghost use Rattle.std.specs.Prelude.{◌≡◌, ℕ, slice_index};

use crate::lanes::Lanes;
use std::simd::prelude::*;

impl Lanes for u32x8 {
    ghost width = { 8 };

    ghost lane = { λ vector j. slice_index vector j };

    fn width() -> usize {
        8
    }

    #[inline(always)]
    fn from_words(words: [u32; 8]) -> u32x8 {
        u32x8::from_array(words)
    }

    #[inline(always)]
    fn to_words(self) -> [u32; 8] {
        self.to_array()
    }

    #[inline(always)]
    fn same(word: u32) -> u32x8 {
        u32x8::splat(word)
    }

    #[inline(always)]
    fn apply_f(x: u32x8, y: u32x8, z: u32x8) -> u32x8 {
        (x & y) | (!x & z)
    }

    #[inline(always)]
    fn apply_g(x: u32x8, y: u32x8, z: u32x8) -> u32x8 {
        (x & z) | (y & !z)
    }

    #[inline(always)]
    fn apply_h(x: u32x8, y: u32x8, z: u32x8) -> u32x8 {
        x ^ y ^ z
    }

    #[inline(always)]
    fn apply_i(x: u32x8, y: u32x8, z: u32x8) -> u32x8 {
        y ^ (x | !z)
    }

    #[inline(always)]
    fn plus(self, other: u32x8) -> u32x8 {
        self + other
    }

    #[inline(always)]
    fn rotated(self, bits: u32) -> u32x8 {
        (self << u32x8::splat(bits)) | (self >> u32x8::splat(32 - bits))
    }
}
