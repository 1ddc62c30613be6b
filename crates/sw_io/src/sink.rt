//! Where bytes go.

ghost use Rattle.std.specs.Prelude.{◌≡◌, ℕ, ◌<◌, ◌≤◌, List, Option, IfOk, OnOk, OnErr, length};
ghost use Rattle.std.specs.Io.KnownBytes.{Appends, WriteAppends};
ghost use Rattle.sw_io.specs.Whole.{AppendsProperFront};
ghost use Rattle.sw_words.specs.Counts.{CountsFailure, FailsByCount};

use thiserror::Error;

/// The sink failed, and its count of faults rose.
#[derive(Clone, Copy, Debug, PartialEq, Eq, Error)]
#[error("writing failed")]
pub struct WriteFailed;

/// Where bytes go.
pub trait Sink {
    /// The bytes that were written, where the sink tells.
    ghost written: { Self → Option (List ℕ) };

    /// How often writing has failed.
    ghost faults: { Self → ℕ };

    /// Writes a front of `piece`, at least one byte, and answers how many.
    fn write(&mut self, piece: &[u8]) -> Result<usize, WriteFailed>
        requires { 0 < length piece.now }
        ensures count { IfOk result (λ n. (0 < n) × (n ≤ length piece.now)) }
        ensures bytes { WriteAppends (written self.old) (written self.new) result piece.now }
        ensures cause { FailsByCount (faults self.old) (faults self.new) result }
        ensures counted { CountsFailure (faults self.old) (faults self.new) result };
}

/// Writes all of the bytes, in as many pieces as the sink wants. At `Err` a front of them was written, and not all.
pub fn write_all<O: Sink>(sink: &mut O, bytes: &[u8]) -> Result<(), WriteFailed>
    ensures whole { OnOk result (Appends (O.written sink.old) (O.written sink.new) bytes.now) }
    ensures front { OnErr result (AppendsProperFront (O.written sink.old) (O.written sink.new) bytes.now) }
    ensures cause { FailsByCount (O.faults sink.old) (O.faults sink.new) result }
    ensures counted { CountsFailure (O.faults sink.old) (O.faults sink.new) result }
{
    let mut rest = bytes;
    while !rest.is_empty() {
        let count = sink.write(rest)?;
        rest = &rest[count..];
    }
    Ok(())
}
