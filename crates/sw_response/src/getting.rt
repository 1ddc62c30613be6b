//! Answers to gets.

ghost use Rattle.std.specs.Prelude.{◌≡◌, ◌∷◌, ◌++◌, [], IfOk, codes, length, map};
ghost use Rattle.sw_types.specs.Object.{IsObject, ObjectModel};
ghost use Rattle.sw_request.specs.Response.{length_field, sent_body, type_field};
ghost use Rattle.sw_response.specs.Response.{found, get_answer, pair_field, stamp_field, tag_field};

use crate::fields::{pair_field, stamp_field, tag_field};
use crate::words::{plain, stamped, unable};
use std::alloc::Global;
use sw_get::GetEnd;
use sw_httpwrite::{Answer, field, number_field};
use sw_types::{Bytes, NoMemory, Object, Stamp};

/// The answer to how a get ended, or to a HEAD, which has the same fields and no body (RFC 9110, section 9.3.2). The body is
/// moved, not copied.
pub fn get_answer(
    alloc: Global,
    to_head: bool,
    close: bool,
    end: GetEnd,
) -> Result<Answer, NoMemory>
    ensures { IfOk result (λ answer. answer ≡ get_answer to_head close end) }
{
    match end {
        GetEnd::Found { stamp, object, .. } => found(alloc, to_head, close, stamp, object),
        GetEnd::Absent => plain(alloc, to_head, close, 404, b"Absent"),
        GetEnd::Buried { stamp } => stamped(alloc, to_head, close, 404, b"Buried", stamp),
        GetEnd::Unanswered { misses } => {
            unable(alloc, to_head, close, b"Unanswered", misses.as_slice())
        }
        GetEnd::TooFew { .. } => unable(alloc, to_head, close, b"TooFew", &[]),
        GetEnd::Overtaken { .. } => unable(alloc, to_head, close, b"Overtaken", &[]),
    }
}

// The answer where an object was found.
fn found(
    alloc: Global,
    to_head: bool,
    close: bool,
    stamp: Stamp,
    object: Object,
) -> Result<Answer, NoMemory>
    ensures { IfOk result (λ answer. answer ≡ found to_head close stamp object) }
{
    let fields = found_fields(alloc, stamp, &object)?;
    let (_, body) = object.into_parts();
    let body = if to_head { Bytes::new(alloc) } else { body };
    Ok(Answer::new(200, fields, body, close))
}

// The fields that tell of an object.
fn found_fields(
    alloc: Global,
    stamp: Stamp,
    object: &Object,
) -> Result<Vec<(Bytes, Bytes)>, NoMemory>
    ensures fields { IfOk result (λ fields. fields.items ≡ length_field object.now.body ∷ type_field object.now.head.content_type ∷ tag_field object.now.body_md5 ∷ stamp_field stamp ∷ map pair_field object.now.head.pairs) }
    ensures sound { IfOk result (λ _. IsObject object.now) }
{
    let mut fields = Vec::with_capacity(alloc, 4 + object.head().pairs().len())?;
    let size = object.body().len() as u64;
    fields.push(number_field(alloc, b"Content-Length", size)?)?;
    fields.push(field(alloc, b"Content-Type", object.head().content_type())?)?;
    fields.push(tag_field(alloc, object.body_md5())?)?;
    fields.push(stamp_field(alloc, stamp)?)?;
    push_pairs(alloc, &mut fields, object.head().pairs())?;
    Ok(fields)
}

// Adds a field for each pair.
fn push_pairs(
    alloc: Global,
    fields: &mut Vec<(Bytes, Bytes)>,
    pairs: &[(Bytes, Bytes)],
) -> Result<(), NoMemory>
    ensures { IfOk result (λ _. fields.new.items ≡ fields.old.items ++ map pair_field pairs.now) }
{
    for pair in pairs {
        fields.push(pair_field(alloc, pair)?)?;
    }
    Ok(())
}
