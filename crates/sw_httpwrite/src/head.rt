//! Heads of responses.

ghost use Rattle.std.specs.Prelude.{◌≡◌, ◌++◌, map, All, IfOk, OnOk};
ghost use Rattle.std.specs.List.{flat_map};
ghost use Rattle.sw_httpwrite.specs.Answer.{AnswerModel, AreInLines, HasPhrase, IsFullLine};
ghost use Rattle.sw_httpwrite.specs.Response.{close_lines, ended, field_line, head_bytes, head_lines, phrase_of, status_line};

use crate::answer::Answer;
use http::StatusCode;
use std::alloc::Global;
use sw_types::{Bytes, NoMemory};

/// All that stands before the body.
#[tactic(auto, unfolding(crate::specs::Response::head_bytes))]
pub(crate) fn head_of(alloc: Global, answer: &Answer) -> Result<Bytes, NoMemory>
    ensures { IfOk result (λ head. head ≡ head_bytes answer.now) }
{
    let mut head = Bytes::new(alloc);
    push_status(&mut head, answer.status)?;
    push_fields(&mut head, &answer.fields)?;
    push_close(&mut head, answer.close)?;
    head.extend_from_slice(b"\r\n")?;
    Ok(head)
}

// Adds the status line.
fn push_status(head: &mut Bytes, status: StatusCode) -> Result<(), NoMemory>
    requires { HasPhrase status }
    ensures { OnOk result (head.new ≡ head.old ++ ended (status_line status)) }
{
    head.extend_from_slice(b"HTTP/1.1 ")?;
    head.extend_from_slice(status.as_str().as_bytes())?;
    head.extend_from_slice(b" ")?;
    head.extend_from_slice(phrase_of(status).as_bytes())?;
    head.extend_from_slice(b"\r\n")
}

// The phrase of a status that has one.
#[tactic(auto, unfolding(crate::specs::Response::phrase_of))]
fn phrase_of(status: StatusCode) -> &'static str
    requires { HasPhrase status }
    ensures { result.now ≡ phrase_of status }
{
    status.canonical_reason().unwrap()
}

// Adds the lines of the fields.
fn push_fields(head: &mut Bytes, fields: &[(Bytes, Bytes)]) -> Result<(), NoMemory>
    ensures { OnOk result (head.new ≡ head.old ++ flat_map ended (map field_line fields.now)) }
{
    for field in fields {
        push_field(head, field)?;
    }
    Ok(())
}

// Adds the line of a field.
fn push_field(head: &mut Bytes, field: &(Bytes, Bytes)) -> Result<(), NoMemory>
    ensures { OnOk result (head.new ≡ head.old ++ ended (field_line field.now)) }
{
    head.extend_from_slice(field.0.as_slice())?;
    head.extend_from_slice(b": ")?;
    head.extend_from_slice(field.1.as_slice())?;
    head.extend_from_slice(b"\r\n")
}

// Adds the line that says that the connection is closed, where it is.
fn push_close(head: &mut Bytes, close: bool) -> Result<(), NoMemory>
    ensures { OnOk result (head.new ≡ head.old ++ flat_map ended (close_lines close)) }
{
    if close {
        head.extend_from_slice(b"Connection: close\r\n")?;
    }
    Ok(())
}

/// A field adds no line of its own: no line of a head is empty, or holds the end of one.
pub fn lines_law()
    ensures { (answer : AnswerModel) → HasPhrase answer.status → AreInLines answer.fields → All IsFullLine (head_lines answer) }
{}
