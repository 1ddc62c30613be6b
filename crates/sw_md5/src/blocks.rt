//! Blocks of several messages, added to their states.

ghost use Rattle.std.specs.Prelude.{◌≡◌, ℕ, ◌+◌, ◌*◌, ◌^◌, ◌<◌, ◌≤◌, [], length, map, slice_index_or};
ghost use Rattle.std.specs.Simd.Lanes.{chunk};
ghost use Rattle.md5.specs.Md5.{compress};
ghost use Rattle.sw_md5.specs.Side.{lane_of, AllReach, blocks_from};

use crate::compress::{State, compress_lanes};
use crate::lanes::Lanes;
use crate::loading::{column, row};
use crate::piece::Piece;
use std::simd::prelude::*;

// Adds the block at byte `at` of each message of the group from `first` on.
#[inline(always)]
fn add_block<V: Lanes + Copy, P: Piece>(state: &mut State<V>, pieces: &[P], first: usize, at: usize)
    requires some { 0 < length pieces.now }
    requires few { first ≤ 2 ^ 31 }
    requires end { at + 64 < 2 ^ 64 }
    requires reach { AllReach (map P.content pieces.now) (at + 64) }
    ensures { (j : ℕ) → j < V.width → first + j < length pieces.now → lane_of V.lane state.new j ≡ compress (lane_of V.lane state.old j) (chunk at 64 (slice_index_or (map P.content pieces.now) (first + j) [])) }
{
    let mut words = [[0; 8]; 16];
    for k in 0..16usize {
        words[k] = row::<V, P>(pieces, first, at + 4 * k);
    }
    compress_lanes(state, &words);
}

// The states of the group from `first` on, each in its lane.
#[inline(always)]
fn load<V: Lanes>(states: &[[u32; 4]; 32], first: usize) -> State<V>
    requires { first ≤ 2 ^ 31 }
    ensures { (j : ℕ) → j < V.width → first + j < 32 → lane_of V.lane result j ≡ slice_index_or states.now (first + j) [] }
{
    State {
        a: V::from_words(column::<V>(states, first, 0)),
        b: V::from_words(column::<V>(states, first, 1)),
        c: V::from_words(column::<V>(states, first, 2)),
        d: V::from_words(column::<V>(states, first, 3)),
    }
}

// Puts the states of the group from `first` on back, those of the first `count` messages.
#[inline(always)]
fn store<V: Lanes + Copy>(states: &mut [[u32; 4]; 32], state: &State<V>, first: usize, count: usize)
    requires some { first ≤ count }
    requires most { count ≤ 32 }
    ensures within { (j : ℕ) → j < V.width → first + j < count → slice_index_or states.new (first + j) [] ≡ lane_of V.lane state.now j }
    ensures before { (i : ℕ) → i < first → slice_index_or states.new i [] ≡ slice_index_or states.old i [] }
    ensures behind { (i : ℕ) → first + V.width ≤ i → slice_index_or states.new i [] ≡ slice_index_or states.old i [] }
{
    let a = state.a.to_words();
    let b = state.b.to_words();
    let c = state.c.to_words();
    let d = state.d.to_words();
    for lane in 0..V::width().min(count - first) {
        states[first + lane] = [a[lane], b[lane], c[lane], d[lane]];
    }
}

// Adds blocks from byte `at` on of each message of the group from `first` on.
fn add_group<V: Lanes + Copy, P: Piece>(
    states: &mut [[u32; 4]; 32],
    pieces: &[P],
    first: usize,
    at: usize,
    blocks: usize,
)
    requires some { first < length pieces.now }
    requires most { length pieces.now ≤ 32 }
    requires end { at + 64 * blocks < 2 ^ 64 }
    requires reach { AllReach (map P.content pieces.now) (at + 64 * blocks) }
    ensures within { (j : ℕ) → j < V.width → first + j < length pieces.now → slice_index_or states.new (first + j) [] ≡ blocks_from (slice_index_or states.old (first + j) []) (slice_index_or (map P.content pieces.now) (first + j) []) at blocks }
    ensures before { (i : ℕ) → i < first → slice_index_or states.new i [] ≡ slice_index_or states.old i [] }
    ensures behind { (i : ℕ) → first + V.width ≤ i → slice_index_or states.new i [] ≡ slice_index_or states.old i [] }
{
    let mut state = load::<V>(states, first);
    for block in 0..blocks {
        add_block(&mut state, pieces, first, at + 64 * block);
    }
    store(states, &state, first, pieces.len());
}

// Adds blocks of the next eight messages from `first` on, or of those that are left.
fn add_next<P: Piece>(
    states: &mut [[u32; 4]; 32],
    pieces: &[P],
    first: usize,
    at: usize,
    blocks: usize,
)
    requires some { first < length pieces.now }
    requires most { length pieces.now ≤ 32 }
    requires end { at + 64 * blocks < 2 ^ 64 }
    requires reach { AllReach (map P.content pieces.now) (at + 64 * blocks) }
    ensures within { (i : ℕ) → first ≤ i → i < first + 8 → i < length pieces.now → slice_index_or states.new i [] ≡ blocks_from (slice_index_or states.old i []) (slice_index_or (map P.content pieces.now) i []) at blocks }
    ensures before { (i : ℕ) → i < first → slice_index_or states.new i [] ≡ slice_index_or states.old i [] }
    ensures behind { (i : ℕ) → first + 8 ≤ i → slice_index_or states.new i [] ≡ slice_index_or states.old i [] }
{
    if pieces.len() - first <= 4 {
        add_group::<u32x4, P>(states, pieces, first, at, blocks);
    } else {
        add_group::<u32x8, P>(states, pieces, first, at, blocks);
    }
}

/// Adds so many blocks of each message, from byte `at` of its piece on.
pub(crate) fn add_blocks<P: Piece>(
    states: &mut [[u32; 4]; 32],
    pieces: &[P],
    at: usize,
    blocks: usize,
)
    requires most { length pieces.now ≤ 32 }
    requires end { at + 64 * blocks < 2 ^ 64 }
    requires reach { AllReach (map P.content pieces.now) (at + 64 * blocks) }
    ensures { (i : ℕ) → i < length pieces.now → slice_index_or states.new i [] ≡ blocks_from (slice_index_or states.old i []) (slice_index_or (map P.content pieces.now) i []) at blocks }
{
    for group in 0..pieces.len().div_ceil(8) {
        add_next(states, pieces, 8 * group, at, blocks);
    }
}
