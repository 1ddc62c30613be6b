//! The blocks of messages that are not finished.

ghost use Rattle.std.specs.Prelude.{◌≡◌, ℕ, ◌+◌, ◌-◌, ◌<◌, ◌≤◌, ◌++◌, length, take, map};
ghost use Rattle.std.specs.Simd.Lanes.{chunk};
ghost use Rattle.sw_md5.specs.Side.{AllReach, item};

use crate::piece::Piece;

// A block with these bytes from byte `used` on.
fn with_bytes(mut rest: [u8; 64], used: usize, bytes: &[u8]) -> [u8; 64]
    requires { used + length bytes.now ≤ 64 }
    ensures { take (used + length bytes.now) result ≡ take used rest ++ bytes.now }
{
    rest[used..used + bytes.len()].copy_from_slice(bytes);
    rest
}

/// Writes bytes of each piece into its message's block, from byte `used` on.
pub(crate) fn keep_all<P: Piece>(
    rests: &mut [[u8; 64]; 32],
    used: usize,
    pieces: &[P],
    from: usize,
    to: usize,
)
    requires most { length pieces.now ≤ 32 }
    requires order { from ≤ to }
    requires room { used + (to - from) ≤ 64 }
    requires reach { AllReach (map P.content pieces.now) to }
    ensures kept { (i : ℕ) → i < length pieces.now → take (used + (to - from)) (item rests.new i) ≡ take used (item rests.old i) ++ chunk from (to - from) (item (map P.content pieces.now) i) }
    ensures long { (i : ℕ) → i < length pieces.now → length (item rests.new i) ≡ 64 }
{
    for index in 0..pieces.len() {
        let bytes = &pieces[index].bytes()[from..to];
        rests[index] = with_bytes(rests[index], used, bytes);
    }
}
