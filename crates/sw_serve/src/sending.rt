//! Answers are sent.

ghost use Rattle.std.specs.Prelude.{◌≡◌, ◌⊎◌, ◌≤◌, List, ℕ, OnErr, OnOk, true, false};
ghost use Rattle.std.specs.Io.KnownBytes.{Appends};
ghost use Rattle.sw_words.specs.Counts.{CountsFailure, FailsByCount, one_more};
ghost use Rattle.sw_io.specs.Whole.{AppendsProperFront};
ghost use Rattle.sw_httpwrite.specs.Response.{continue_bytes, response_bytes};
ghost use Rattle.sw_request.specs.Refusal.{refusal_of};
ghost use Rattle.sw_request.specs.Response.{refusal_answer};
ghost use Rattle.sw_response.specs.Response.{wanting_answer};
ghost use Rattle.sw_serve.specs.Serving.{IsFront, leave_bytes};
ghost use Rattle.sw_serve.specs.Turns.{CountsTurn, IsSent};

use crate::end::ConnEnd;
use crate::turn::Turn;
use std::alloc::Global;
use sw_httpwrite::{Answer, WriteEnd, write_continue, write_response};
use sw_io::{Conn, WriteFailed};
use sw_request::{BadInput, refused};
use sw_response::wanting_answer;

/// Writes leave to send a body, where the client waits for it.
pub(crate) fn give_leave<N: Conn>(conn: &mut N, waits: bool) -> Result<(), WriteFailed>
    requires not_closed { N.closed conn.old ≡ false }
    ensures whole { OnOk result (Appends (N.written conn.old) (N.written conn.new) (leave_bytes waits)) }
    ensures front { OnErr result ((waits ≡ true) × AppendsProperFront (N.written conn.old) (N.written conn.new) continue_bytes) }
    ensures remaining { N.remaining conn.new ≡ N.remaining conn.old }
    ensures closed { N.closed conn.new ≡ N.closed conn.old }
    ensures cause { FailsByCount (N.faults conn.old) (N.faults conn.new) result }
    ensures counted { CountsFailure (N.faults conn.old) (N.faults conn.new) result }
{
    if waits {
        return write_continue(conn);
    }
    Ok(())
}

/// Writes an answer.
pub(crate) fn send<N: Conn>(alloc: Global, conn: &mut N, to_head: bool, answer: &Answer) -> Turn
    requires not_closed { N.closed conn.old ≡ false }
    ensures sent { (told : List ℕ) × Appends (N.written conn.old) (N.written conn.new) told × IsSent answer.now to_head result (N.faults conn.old) (N.faults conn.new) told }
    ensures remaining { N.remaining conn.new ≡ N.remaining conn.old }
    ensures closed { N.closed conn.new ≡ N.closed conn.old }
    ensures counts { CountsTurn result (N.faults conn.old) (N.faults conn.new) }
{
    match write_response(alloc, conn, answer) {
        Ok(()) => Turn::Answered {
            closes: answer.close(),
        },
        Err(WriteEnd::WriteFault) => Turn::Over(ConnEnd::WriteFault),
        Err(WriteEnd::NoMemory) => want(alloc, conn, to_head),
    }
}

/// Answers what is no head, or no body.
pub(crate) fn refuse<N: Conn>(alloc: Global, conn: &mut N, to_head: bool, input: BadInput) -> Turn
    requires not_closed { N.closed conn.old ≡ false }
    ensures sent { (told : List ℕ) × Appends (N.written conn.old) (N.written conn.new) told × IsSent (refusal_answer to_head true (refusal_of input)) to_head result (N.faults conn.old) (N.faults conn.new) told }
    ensures remaining { N.remaining conn.new ≡ N.remaining conn.old }
    ensures closed { N.closed conn.new ≡ N.closed conn.old }
    ensures counts { CountsTurn result (N.faults conn.old) (N.faults conn.new) }
{
    match refused(alloc, to_head, input) {
        Ok(answer) => send(alloc, conn, to_head, &answer),
        Err(_) => want(alloc, conn, to_head),
    }
}

/// The connection is over for want of memory. That is written, as far as memory and the connection allow.
pub(crate) fn want<N: Conn>(alloc: Global, conn: &mut N, to_head: bool) -> Turn
    requires not_closed { N.closed conn.old ≡ false }
    ensures over { result ≡ Turn.Over ConnEnd.NoMemory }
    ensures told { (front : List ℕ) × Appends (N.written conn.old) (N.written conn.new) front × IsFront (N.faults conn.old) (N.faults conn.new) front (response_bytes (wanting_answer to_head)) }
    ensures remaining { N.remaining conn.new ≡ N.remaining conn.old }
    ensures closed { N.closed conn.new ≡ N.closed conn.old }
    ensures never_falls { N.faults conn.old ≤ N.faults conn.new }
    ensures once { (N.faults conn.new ≡ N.faults conn.old) ⊎ (N.faults conn.new ≡ one_more (N.faults conn.old)) }
{
    if let Ok(answer) = wanting_answer(alloc, to_head) {
        // The connection ends behind it, however much of it was written.
        let _written = write_response(alloc, conn, &answer);
    }
    Turn::Over(ConnEnd::NoMemory)
}
