//! The words that go into the lanes of a group: those of the messages from `first` on, and of the last one again where there
//! are fewer.

ghost use Rattle.std.specs.Prelude.{◌≡◌, ℕ, ◌+◌, ◌^◌, ◌<◌, ◌≤◌, [], length, map, slice_index, slice_index_or};
ghost use Rattle.md5.specs.Md5.{word_at};
ghost use Rattle.sw_md5.specs.Side.{AllReach};

use crate::lanes::Lanes;
use crate::piece::Piece;

#[inline(always)]
fn load_le(block: &[u8], at: usize) -> u32
    requires { at + 4 ≤ length block.now }
    ensures { result ≡ word_at block.now at }
{
    u32::from_le_bytes([block[at], block[at + 1], block[at + 2], block[at + 3]])
}

// The word at byte `at` of one message.
#[inline(always)]
fn word<P: Piece>(pieces: &[P], index: usize, at: usize) -> u32
    requires some { 0 < length pieces.now }
    requires reach { AllReach (map P.content pieces.now) (at + 4) }
    ensures { index < length pieces.now → result ≡ word_at (slice_index_or (map P.content pieces.now) index []) at }
{
    load_le(pieces[index.min(pieces.len() - 1)].bytes(), at)
}

// The word at byte `at` of four messages.
#[inline(always)]
fn four_words<P: Piece>(pieces: &[P], first: usize, at: usize) -> [u32; 4]
    requires some { 0 < length pieces.now }
    requires few { first ≤ 2 ^ 32 }
    requires reach { AllReach (map P.content pieces.now) (at + 4) }
    ensures { (j : ℕ) → j < 4 → first + j < length pieces.now → slice_index result j ≡ word_at (slice_index_or (map P.content pieces.now) (first + j) []) at }
{
    [
        word(pieces, first, at),
        word(pieces, first + 1, at),
        word(pieces, first + 2, at),
        word(pieces, first + 3, at),
    ]
}

/// The word at byte `at` of each message, for each lane.
#[inline(always)]
pub(crate) fn row<V: Lanes, P: Piece>(pieces: &[P], first: usize, at: usize) -> [u32; 8]
    requires some { 0 < length pieces.now }
    requires few { first ≤ 2 ^ 31 }
    requires reach { AllReach (map P.content pieces.now) (at + 4) }
    ensures { (j : ℕ) → j < V.width → first + j < length pieces.now → slice_index result j ≡ word_at (slice_index_or (map P.content pieces.now) (first + j) []) at }
{
    let [a, b, c, d] = four_words(pieces, first, at);
    if V::width() <= 4 {
        return [a, b, c, d, 0, 0, 0, 0];
    }
    let [e, f, g, h] = four_words(pieces, first + 4, at);
    [a, b, c, d, e, f, g, h]
}

// One message's state.
#[inline(always)]
fn state_at(states: &[[u32; 4]; 32], index: usize) -> [u32; 4]
    ensures { index < 32 → result ≡ slice_index_or states.now index [] }
{
    states[index.min(31)]
}

// A word of one message's state.
#[inline(always)]
fn state_word(states: &[[u32; 4]; 32], index: usize, register: usize) -> u32
    requires { register < 4 }
    ensures word { index < 32 → result ≡ slice_index (slice_index_or states.now index []) register }
    ensures long { index < 32 → length (slice_index_or states.now index []) ≡ 4 }
{
    let state = state_at(states, index);
    state[register]
}

// A word of the states of four messages.
#[inline(always)]
fn four_state_words(states: &[[u32; 4]; 32], first: usize, register: usize) -> [u32; 4]
    requires few { first ≤ 2 ^ 32 }
    requires register { register < 4 }
    ensures words { (j : ℕ) → j < 4 → first + j < 32 → slice_index result j ≡ slice_index (slice_index_or states.now (first + j) []) register }
    ensures long { (j : ℕ) → j < 4 → first + j < 32 → length (slice_index_or states.now (first + j) []) ≡ 4 }
{
    [
        state_word(states, first, register),
        state_word(states, first + 1, register),
        state_word(states, first + 2, register),
        state_word(states, first + 3, register),
    ]
}

/// A word of each message's state, for each lane.
#[inline(always)]
pub(crate) fn column<V: Lanes>(states: &[[u32; 4]; 32], first: usize, register: usize) -> [u32; 8]
    requires few { first ≤ 2 ^ 31 }
    requires register { register < 4 }
    ensures words { (j : ℕ) → j < V.width → first + j < 32 → slice_index result j ≡ slice_index (slice_index_or states.now (first + j) []) register }
    ensures long { (j : ℕ) → j < V.width → first + j < 32 → length (slice_index_or states.now (first + j) []) ≡ 4 }
{
    let [a, b, c, d] = four_state_words(states, first, register);
    if V::width() <= 4 {
        return [a, b, c, d, 0, 0, 0, 0];
    }
    let [e, f, g, h] = four_state_words(states, first + 4, register);
    [a, b, c, d, e, f, g, h]
}
