//! Connections.

ghost use Rattle.std.specs.Prelude.{◌≡◌, ℕ, ◌<◌, ◌≤◌, Bool, true, false, List, Option, IfOk, length};
ghost use Rattle.std.specs.Io.KnownBytes.{ReadConsumes, WriteAppends};
ghost use Rattle.sw_words.specs.Counts.{CountsFailure, FailsByCount};

use crate::{ReadFailed, WriteFailed};

/// A connection to a peer: bytes come from it and go to it.
pub trait Conn {
    /// The bytes that are left to come, where the connection tells.
    ghost remaining: { Self → Option (List ℕ) };

    /// The bytes that were written, where the connection tells.
    ghost written: { Self → Option (List ℕ) };

    /// How often reading or writing has failed.
    ghost faults: { Self → ℕ };

    /// Whether it was ended for the peer.
    ghost closed: { Self → Bool };

    /// Reads into the front of `room`, and answers how many bytes came. None come only where the peer sends no more, and
    /// none are lost at `Err`.
    fn read(&mut self, room: &mut [u8]) -> Result<usize, ReadFailed>
        requires room { 0 < length room.old }
        requires not_closed { closed self.old ≡ false }
        ensures count { IfOk result (λ n. n ≤ length room.new) }
        ensures bytes { ReadConsumes (remaining self.old) (remaining self.new) result room.new }
        ensures written { written self.new ≡ written self.old }
        ensures closed { closed self.new ≡ closed self.old }
        ensures cause { FailsByCount (faults self.old) (faults self.new) result }
        ensures counted { CountsFailure (faults self.old) (faults self.new) result };

    /// Writes a front of `piece`, at least one byte, and answers how many.
    fn write(&mut self, piece: &[u8]) -> Result<usize, WriteFailed>
        requires piece { 0 < length piece.now }
        requires not_closed { closed self.old ≡ false }
        ensures count { IfOk result (λ n. (0 < n) × (n ≤ length piece.now)) }
        ensures bytes { WriteAppends (written self.old) (written self.new) result piece.now }
        ensures remaining { remaining self.new ≡ remaining self.old }
        ensures closed { closed self.new ≡ closed self.old }
        ensures cause { FailsByCount (faults self.old) (faults self.new) result }
        ensures counted { CountsFailure (faults self.old) (faults self.new) result };

    /// Ends the connection for the peer. What was read and written stays, and so does the count.
    fn close(&mut self)
        requires { closed self.old ≡ false }
        ensures remaining { remaining self.new ≡ remaining self.old }
        ensures written { written self.new ≡ written self.old }
        ensures faults { faults self.new ≡ faults self.old }
        ensures closed { closed self.new ≡ true };
}
