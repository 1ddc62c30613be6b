//! Vectors of words with a lane for each message.

ghost use Rattle.std.specs.Prelude.{◌≡◌, ◌<◌, ◌≤◌, ℕ, slice_index};
ghost use Rattle.std.specs.Int.{w32, rotate_left};
ghost use Rattle.md5.specs.Md5.{add32, f_fn, g_fn, h_fn, i_fn};

/// A vector of words with a lane for each of a few messages.
pub(crate) trait Lanes {
    // How many lanes there are.
    ghost width: { ℕ };

    // The word in a lane.
    ghost lane: { Self → ℕ → ℕ };

    /// How many lanes there are.
    fn width() -> usize
        ensures value { result ≡ width }
        ensures some { 0 < result }
        ensures most { result ≤ 8 };

    /// The first of these words, one in each lane.
    fn from_words(words: [u32; 8]) -> Self
        ensures { (j : ℕ) → j < width → lane result j ≡ slice_index words j };

    /// The words of the lanes, and any words behind them.
    fn to_words(self) -> [u32; 8]
        ensures { (j : ℕ) → j < width → slice_index result j ≡ lane self j };

    /// One word in all lanes.
    fn same(word: u32) -> Self
        ensures { (j : ℕ) → j < width → lane result j ≡ word };

    /// F of RFC 1321, section 3.4.
    fn apply_f(x: Self, y: Self, z: Self) -> Self
        ensures { (j : ℕ) → j < width → lane result j ≡ f_fn (lane x j) (lane y j) (lane z j) };

    /// G of RFC 1321, section 3.4.
    fn apply_g(x: Self, y: Self, z: Self) -> Self
        ensures { (j : ℕ) → j < width → lane result j ≡ g_fn (lane x j) (lane y j) (lane z j) };

    /// H of RFC 1321, section 3.4.
    fn apply_h(x: Self, y: Self, z: Self) -> Self
        ensures { (j : ℕ) → j < width → lane result j ≡ h_fn (lane x j) (lane y j) (lane z j) };

    /// I of RFC 1321, section 3.4.
    fn apply_i(x: Self, y: Self, z: Self) -> Self
        ensures { (j : ℕ) → j < width → lane result j ≡ i_fn (lane x j) (lane y j) (lane z j) };

    /// The sum in each lane, modulo 2^32.
    fn plus(self, other: Self) -> Self
        ensures { (j : ℕ) → j < width → lane result j ≡ add32 (lane self j) (lane other j) };

    /// Each lane rotated to the left.
    fn rotated(self, bits: u32) -> Self
        requires some { 0 < bits }
        requires most { bits < 32 }
        ensures { (j : ℕ) → j < width → lane result j ≡ rotate_left w32 (lane self j) bits };
}
