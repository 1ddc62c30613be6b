//! Answers to puts.

ghost use Rattle.std.specs.Prelude.{◌≡◌, ◌∷◌, [], IfOk};
ghost use Rattle.sw_request.specs.Response.{length_field};
ghost use Rattle.sw_response.specs.Response.{commits_field, created, put_answer, stamp_field, tag_field};

use crate::fields::{stamp_field, tag_field};
use crate::words::{stamped, unable};
use std::alloc::Global;
use sw_httpwrite::{Answer, number_field};
use sw_put::PutEnd;
use sw_types::{Bytes, NoMemory, Stamp};

/// The answer to how a put of a body of this MD5 ended.
pub fn put_answer(
    alloc: Global,
    close: bool,
    digest: [u8; 16],
    end: &PutEnd,
) -> Result<Answer, NoMemory>
    ensures { IfOk result (λ answer. answer ≡ put_answer close digest end.now) }
{
    match end {
        PutEnd::Created { stamp, commits } => created(alloc, close, digest, *stamp, *commits),
        PutEnd::Superseded { floor } => {
            stamped(alloc, false, close, 202, b"Superseded", floor.stamp)
        }
        PutEnd::TooFewSynced { misses, .. } => {
            unable(alloc, false, close, b"TooFewSynced", misses.as_slice())
        }
        PutEnd::TooFewCommits { misses, .. } => {
            unable(alloc, false, close, b"TooFewCommits", misses.as_slice())
        }
    }
}

// The answer where so many devices have made its archives durable.
fn created(
    alloc: Global,
    close: bool,
    digest: [u8; 16],
    stamp: Stamp,
    commits: u32,
) -> Result<Answer, NoMemory>
    ensures { IfOk result (λ answer. answer ≡ created close digest stamp commits) }
{
    let fields = created_fields(alloc, digest, stamp, commits)?;
    Ok(Answer::new(201, fields, Bytes::new(alloc), close))
}

// The fields that tell of what was put.
fn created_fields(
    alloc: Global,
    digest: [u8; 16],
    stamp: Stamp,
    commits: u32,
) -> Result<Vec<(Bytes, Bytes)>, NoMemory>
    ensures { IfOk result (λ fields. fields.items ≡ length_field [] ∷ tag_field digest ∷ stamp_field stamp ∷ commits_field commits ∷ []) }
{
    let mut fields = Vec::with_capacity(alloc, 4)?;
    fields.push(number_field(alloc, b"Content-Length", 0)?)?;
    fields.push(tag_field(alloc, digest)?)?;
    fields.push(stamp_field(alloc, stamp)?)?;
    fields.push(number_field(alloc, b"X-Commits", u64::from(commits))?)?;
    Ok(fields)
}
