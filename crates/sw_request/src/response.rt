//! The answers to what is refused.

ghost use Rattle.std.specs.Prelude.{◌≡◌, ◌∷◌, IfOk, codes, if◌then◌else◌, true};
ghost use Rattle.std.specs.Fmt.{decimal};
ghost use Rattle.sw_httpwrite.specs.Answer.{AreInLines, HasPhrase};
ghost use Rattle.sw_request.specs.Refusal.{refusal_of};
ghost use Rattle.sw_request.specs.Response.{allow_fields, is_closing, refusal_answer, type_field, word_answer, word_body};

use crate::refusal::{BadInput, Refusal};
use std::alloc::Global;
use sw_httpwrite::{Answer, field, number_field};
use sw_types::{Bytes, NoMemory};

/// An answer whose body is a word and a line feed. To a HEAD it has the fields of one to a GET, and no body (RFC 9110, section
/// 9.3.2).
pub fn word_answer(
    alloc: Global,
    to_head: bool,
    status: u16,
    word: &[u8],
    further: Vec<(Bytes, Bytes)>,
    close: bool,
) -> Result<Answer, NoMemory>
    requires phrase { HasPhrase status }
    requires lines { AreInLines further.items }
    ensures { IfOk result (λ answer. answer ≡ word_answer to_head status word.now further.items close) }
{
    let body = word_body(alloc, word)?;
    let fields = word_fields(alloc, body.len(), further)?;
    let body = if to_head { Bytes::new(alloc) } else { body };
    Ok(Answer::new(status, fields, body, close))
}

// A word and a line feed.
fn word_body(alloc: Global, word: &[u8]) -> Result<Bytes, NoMemory>
    ensures { IfOk result (λ body. body ≡ word_body word.now) }
{
    let mut body = Bytes::from_slice(alloc, word)?;
    body.extend_from_slice(b"\n")?;
    Ok(body)
}

// The fields of an answer whose body is a text of so many bytes.
fn word_fields(
    alloc: Global,
    size: usize,
    further: Vec<(Bytes, Bytes)>,
) -> Result<Vec<(Bytes, Bytes)>, NoMemory>
    ensures { IfOk result (λ fields. fields.items ≡ (codes "Content-Length", decimal size) ∷ type_field (codes "text/plain") ∷ further.items) }
{
    let mut further = further;
    let mut fields = Vec::with_capacity(alloc, 2 + further.len())?;
    fields.push(number_field(alloc, b"Content-Length", size as u64)?)?;
    fields.push(field(alloc, b"Content-Type", b"text/plain")?)?;
    fields.append(&mut further)?;
    Ok(fields)
}

/// The answer to what is refused. The connection is closed behind it where the refusal wants that, or where `close` does.
pub fn refusal_answer(
    alloc: Global,
    to_head: bool,
    close: bool,
    why: Refusal,
) -> Result<Answer, NoMemory>
    ensures { IfOk result (λ answer. answer ≡ refusal_answer to_head close why) }
{
    let further = allow_fields(alloc, why)?;
    word_answer(
        alloc,
        to_head,
        why.status(),
        why.word().as_bytes(),
        further,
        closes(why, close),
    )
}

// Whether the connection is closed behind a refusal, where it may be for another reason.
fn closes(why: Refusal, close: bool) -> bool
    ensures { result ≡ (if is_closing why then true else close) }
{
    why.is_closing() || close
}

// The methods that there are, where the method was refused (RFC 9110, section 10.2.1).
fn allow_fields(alloc: Global, why: Refusal) -> Result<Vec<(Bytes, Bytes)>, NoMemory>
    ensures { IfOk result (λ fields. fields.items ≡ allow_fields why) }
{
    let mut fields = Vec::new(alloc);
    if why == Refusal::Method {
        fields.push(field(alloc, b"Allow", b"DELETE, GET, HEAD, PUT")?)?;
    }
    Ok(fields)
}

/// The answer to a head that is none, or to a body that is none. The connection is closed behind it.
pub fn refused(alloc: Global, to_head: bool, input: BadInput) -> Result<Answer, NoMemory>
    ensures { IfOk result (λ answer. answer ≡ refusal_answer to_head true (refusal_of input)) }
{
    refusal_answer(alloc, to_head, true, Refusal::from(input))
}
