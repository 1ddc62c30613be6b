//! Heads of requests are judged.

ghost use Rattle.std.specs.Prelude.{◌≡◌, IfOk};
ghost use Rattle.std.specs.Option.{option_or};
ghost use Rattle.sw_request.specs.Framing.{framing_of};
ghost use Rattle.sw_request.specs.Refusal.{framing_refusal, head_refusal, host_refusal, later_refusal, length_refusal, method_refusal};
ghost use Rattle.sw_request.specs.Response.{IsVerdict};

use crate::fields::{Values, is_current, values_of};
use crate::framing::{framing_of, is_waiting};
use crate::metadata::metadata_refusal;
use crate::method::{Method, is_head, is_put};
use crate::refusal::Refusal;
use crate::response::refusal_answer;
use crate::target::target_refusal;
use std::alloc::Global;
use sw_httpread::{Framing, RequestHead};
use sw_httpwrite::Answer;
use sw_types::NoMemory;

// The greatest number of bytes of a body.
const LIMIT: u64 = 16_777_216;

/// What is said of a head.
#[derive(Debug, Drop)]
pub enum Verdict {
    /// It has a defect, and this is the answer.
    Refuse(Answer),
    /// It has none. `waits`: 100 Continue is due before the body (RFC 9110, section 10.1.1).
    Read { framing: Framing, waits: bool },
}

/// Judges a head: the answer to the first of its defects, or how its body is read.
pub fn judge(alloc: Global, head: &RequestHead) -> Result<Verdict, NoMemory>
    ensures { IfOk result (λ verdict. IsVerdict head.now verdict) }
{
    if let Some(why) = first_refusal(alloc, head)? {
        let answer = refusal_answer(alloc, is_head(head), true, why)?;
        return Ok(Verdict::Refuse(answer));
    }
    match framing_of(head) {
        Some(framing) => Ok(Verdict::Read {
            framing,
            waits: is_waiting(head, framing),
        }),
        None => unreachable!(),
    }
}

// The first defect of a head. It takes memory for the decoded path and for the metadata.
fn first_refusal(alloc: Global, head: &RequestHead) -> Result<Option<Refusal>, NoMemory>
    ensures { IfOk result (λ why. why ≡ head_refusal head.now) }
{
    match form_refusal(head) {
        Some(why) => Ok(Some(why)),
        None => later_refusal(alloc, head),
    }
}

// What is refused from the target on.
fn later_refusal(alloc: Global, head: &RequestHead) -> Result<Option<Refusal>, NoMemory>
    ensures { IfOk result (λ why. why ≡ later_refusal head.now) }
{
    if let Some(why) = target_refusal(alloc, head.target())? {
        return Ok(Some(why));
    }
    if let Some(why) = length_refusal(is_put(head), framing_of(head)) {
        return Ok(Some(why));
    }
    metadata_refusal(alloc, head)
}

// What is refused before the target is looked at.
fn form_refusal(head: &RequestHead) -> Option<Refusal>
    ensures { result ≡ option_or (host_refusal head.now) (option_or (framing_refusal head.now) (method_refusal head.now)) }
{
    host_refusal(head)
        .or(framing_refusal(head))
        .or(method_refusal(head))
}

fn host_refusal(head: &RequestHead) -> Option<Refusal>
    ensures { result ≡ host_refusal head.now }
{
    if !is_current(head) {
        return None;
    }
    match values_of(b"host", head.fields()) {
        Values::One(_) => None,
        _ => Some(Refusal::BadHost),
    }
}

fn framing_refusal(head: &RequestHead) -> Option<Refusal>
    ensures { result ≡ framing_refusal head.now }
{
    match framing_of(head) {
        Some(_) => None,
        None => Some(Refusal::BadFraming),
    }
}

fn method_refusal(head: &RequestHead) -> Option<Refusal>
    ensures { result ≡ method_refusal head.now }
{
    match Method::read(head.method()) {
        Some(_) => None,
        None => Some(Refusal::Method),
    }
}

fn length_refusal(put: bool, framing: Option<Framing>) -> Option<Refusal>
    ensures { result ≡ length_refusal put framing }
{
    match framing {
        Some(Framing::None) if put => Some(Refusal::LengthRequired),
        Some(Framing::Length(size)) if size > LIMIT => Some(Refusal::TooLarge),
        _ => None,
    }
}
