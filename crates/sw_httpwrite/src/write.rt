//! Responses are written.

ghost use Rattle.std.specs.Prelude.{◌≡◌, ◌≤◌, ◌++◌, IsErrOf, OnErr, OnOk, false};
ghost use Rattle.std.specs.Io.KnownBytes.{Appends};
ghost use Rattle.sw_words.specs.Counts.{CountsFailure, FailsByCount, Rose, one_more};
ghost use Rattle.sw_io.specs.Whole.{AppendsProperFront};
ghost use Rattle.sw_httpwrite.specs.Response.{continue_bytes, response_bytes};
ghost use Rattle.sw_httpwrite.specs.declared.write.WriteEnd.TheVariants.{WriteFault, NoMemory as WantOfMemory};

use crate::answer::Answer;
use crate::head::head_of;
use std::alloc::Global;
use sw_io::{Conn, WriteFailed};
use sw_types::NoMemory;
use thiserror::Error;

// A body of at most so many bytes is written at once with the head.
const GREATEST_JOINED: usize = 16_384;

/// Why a response was not written whole.
#[derive(Clone, Copy, Debug, PartialEq, Eq, Error)]
pub enum WriteEnd {
    /// Writing failed, and the count of faults rose.
    #[error("writing failed")]
    WriteFault,
    /// There was no memory for the head, or for a short body behind it.
    #[error("out of memory")]
    NoMemory,
}

impl From<WriteFailed> for WriteEnd {
    ghost from_gives = { λ _ end. end ≡ WriteFault };

    fn from(_failed: WriteFailed) -> WriteEnd {
        WriteEnd::WriteFault
    }
}

impl From<NoMemory> for WriteEnd {
    ghost from_gives = { λ _ end. end ≡ WantOfMemory };

    fn from(_refused: NoMemory) -> WriteEnd {
        WriteEnd::NoMemory
    }
}

/// Writes a response, in as many pieces as the connection wants. At `WriteFault` a front of it was written, and not all;
/// at `NoMemory` the connection was not touched.
pub fn write_response<N: Conn>(
    alloc: Global,
    conn: &mut N,
    response: &Answer,
) -> Result<(), WriteEnd>
    requires not_closed { N.closed conn.old ≡ false }
    ensures whole { OnOk result (Appends (N.written conn.old) (N.written conn.new) (response_bytes response.now)) }
    ensures front { IsErrOf result WriteEnd.WriteFault → AppendsProperFront (N.written conn.old) (N.written conn.new) (response_bytes response.now) }
    ensures untouched { IsErrOf result WriteEnd.NoMemory → conn.new ≡ conn.old }
    ensures remaining { N.remaining conn.new ≡ N.remaining conn.old }
    ensures closed { N.closed conn.new ≡ N.closed conn.old }

    ensures never_falls { N.faults conn.old ≤ N.faults conn.new }
    ensures failed { IsErrOf result WriteEnd.WriteFault → Rose (N.faults conn.old) (N.faults conn.new) }
    ensures counted { IsErrOf result WriteEnd.WriteFault → N.faults conn.new ≡ one_more (N.faults conn.old) }
    ensures quiet { OnOk result (N.faults conn.new ≡ N.faults conn.old) }
{
    let mut head = head_of(alloc, response)?;
    let body = response.body();
    if body.len() > GREATEST_JOINED {
        write_both(conn, head.as_slice(), body)?;
    } else {
        head.extend_from_slice(body)?;
        write_all(conn, head.as_slice())?;
    }
    Ok(())
}

/// Writes the interim response that tells a client to send a request's body. At `Err` a front of it was written, and not
/// all.
#[tactic(auto, unfolding(crate::specs::Response::phrase_of))]
pub fn write_continue<N: Conn>(conn: &mut N) -> Result<(), WriteFailed>
    requires not_closed { N.closed conn.old ≡ false }
    ensures whole { OnOk result (Appends (N.written conn.old) (N.written conn.new) continue_bytes) }
    ensures front { OnErr result (AppendsProperFront (N.written conn.old) (N.written conn.new) continue_bytes) }
    ensures remaining { N.remaining conn.new ≡ N.remaining conn.old }
    ensures closed { N.closed conn.new ≡ N.closed conn.old }
    ensures cause { FailsByCount (N.faults conn.old) (N.faults conn.new) result }
    ensures counted { CountsFailure (N.faults conn.old) (N.faults conn.new) result }
{
    write_all(conn, b"HTTP/1.1 100 Continue\r\n\r\n")
}

// Writes all of some bytes, and then all of some others.
fn write_both<N: Conn>(conn: &mut N, first: &[u8], second: &[u8]) -> Result<(), WriteFailed>
    requires not_closed { N.closed conn.old ≡ false }
    ensures whole { OnOk result (Appends (N.written conn.old) (N.written conn.new) (first.now ++ second.now)) }
    ensures front { OnErr result (AppendsProperFront (N.written conn.old) (N.written conn.new) (first.now ++ second.now)) }
    ensures remaining { N.remaining conn.new ≡ N.remaining conn.old }
    ensures closed { N.closed conn.new ≡ N.closed conn.old }
    ensures cause { FailsByCount (N.faults conn.old) (N.faults conn.new) result }
    ensures counted { CountsFailure (N.faults conn.old) (N.faults conn.new) result }
{
    write_all(conn, first)?;
    write_all(conn, second)
}

// Writes all of the bytes.
fn write_all<N: Conn>(conn: &mut N, bytes: &[u8]) -> Result<(), WriteFailed>
    requires not_closed { N.closed conn.old ≡ false }
    ensures whole { OnOk result (Appends (N.written conn.old) (N.written conn.new) bytes.now) }
    ensures front { OnErr result (AppendsProperFront (N.written conn.old) (N.written conn.new) bytes.now) }
    ensures remaining { N.remaining conn.new ≡ N.remaining conn.old }
    ensures closed { N.closed conn.new ≡ N.closed conn.old }
    ensures cause { FailsByCount (N.faults conn.old) (N.faults conn.new) result }
    ensures counted { CountsFailure (N.faults conn.old) (N.faults conn.new) result }
{
    let mut rest = bytes;
    while !rest.is_empty() {
        let count = conn.write(rest)?;
        rest = &rest[count..];
    }
    Ok(())
}
