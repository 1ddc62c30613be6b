//! How messages go on by pieces of one length.

ghost use Rattle.std.specs.Prelude.{◌≡◌, ℕ, ◌+◌, ◌-◌, ◌%◌, ◌<◌, ◌≤◌, List, ◌++◌, length, take, map};
ghost use Rattle.md5.specs.Md5.{IsAbsorbed};
ghost use Rattle.sw_md5.specs.Side.{AllReach, AreLong, HaveOneLength, item};

use crate::blocks::add_blocks;
use crate::keeping::keep_all;
use crate::piece::Piece;

// Finishes the blocks that have `used` bytes, and adds them.
fn fill<P: Piece>(
    states: &mut [[u32; 4]; 32],
    rests: &mut [[u8; 64]; 32],
    used: usize,
    pieces: &[P],
)
    requires used { used < 64 }
    requires most { length pieces.now ≤ 32 }
    requires reach { AllReach (map P.content pieces.now) (64 - used) }
    ensures { (i : ℕ) (m : List ℕ) → i < length pieces.now → length m % 64 ≡ used → IsAbsorbed (item states.old i) (item rests.old i) m → IsAbsorbed (item states.new i) (item rests.new i) (m ++ take (64 - used) (item (map P.content pieces.now) i)) }
{
    keep_all(rests, used, pieces, 0, 64 - used);
    add_blocks(states, &rests[..pieces.len()], 0, 1);
}

// Adds the whole blocks of the pieces from byte `from` on, and keeps the rest.
fn take_blocks<P: Piece>(
    states: &mut [[u32; 4]; 32],
    rests: &mut [[u8; 64]; 32],
    pieces: &[P],
    from: usize,
    to: usize,
)
    requires most { length pieces.now ≤ 32 }
    requires order { from ≤ to }
    requires long { AreLong (map P.content pieces.now) to }
    ensures { (i : ℕ) (m : List ℕ) → i < length pieces.now → (length m + from) % 64 ≡ 0 → IsAbsorbed (item states.old i) (item rests.old i) (m ++ take from (item (map P.content pieces.now) i)) → IsAbsorbed (item states.new i) (item rests.new i) (m ++ item (map P.content pieces.now) i) }
{
    let blocks = (to - from) / 64;
    add_blocks(states, pieces, from, blocks);
    keep_all(rests, 0, pieces, from + 64 * blocks, to);
}

/// Has each message, of which `used` bytes are in its block, go on by its piece.
pub(crate) fn absorb<P: Piece>(
    states: &mut [[u32; 4]; 32],
    rests: &mut [[u8; 64]; 32],
    used: usize,
    pieces: &[P],
)
    requires used { used < 64 }
    requires some { 0 < length pieces.now }
    requires most { length pieces.now ≤ 32 }
    requires alike { HaveOneLength (map P.content pieces.now) }
    ensures { (i : ℕ) (m : List ℕ) → i < length pieces.now → length m % 64 ≡ used → IsAbsorbed (item states.old i) (item rests.old i) m → IsAbsorbed (item states.new i) (item rests.new i) (m ++ item (map P.content pieces.now) i) }
{
    let bytes = pieces[0].bytes().len();
    let room = 64 - used;
    if bytes < room {
        keep_all(rests, used, pieces, 0, bytes);
    } else if used == 0 {
        take_blocks(states, rests, pieces, 0, bytes);
    } else {
        fill(states, rests, used, pieces);
        take_blocks(states, rests, pieces, room, bytes);
    }
}
