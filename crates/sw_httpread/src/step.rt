//! What stands where a chunk of a chunked body would begin.

ghost use Rattle.std.specs.Prelude.{◌≡◌, ◌≤◌, ◌+◌, ◌<◌, ◌↔◌, ◌/◌, length, take, drop, IfOk, IsTrue, MatchOption};
ghost use Rattle.sw_httpread.specs.Chunks.{IsDataAt, IsLineAt, IsNoChunkLine, IsSized, IsTrailer, IsTrailerAt, Stands, greatest_body};
ghost use Rattle.sw_httpread.specs.Ends.{HasWhole, greatest_length};
ghost use Rattle.sw_httpread.specs.Lines.{IsWholeLine};
ghost use Rattle.sw_httpread.specs.Steps.{IsStep, IsStop};

use crate::ending::{Ending, ending_of};
use crate::lines::{LineForm, SectionForm};
use crate::parse::room_for;
use httparse::spans::{HeaderSpan, parse_headers};
use httparse::{Status, parse_chunk_size};
use std::alloc::Global;
use sw_types::NoMemory;

// The greatest number of bytes of a body.
const LIMIT: usize = 16_777_216;

/// What stands where a chunk would begin.
#[derive(Debug)]
pub(crate) enum Step {
    /// A chunk: how long its line is, and how much data it has.
    Chunk { start: usize, size: usize },
    Over(Stop),
}

/// What stands there in place of a chunk.
#[derive(Debug)]
pub(crate) enum Stop {
    /// The last chunk and the trailer section, of so many bytes together.
    Last(usize),
    /// A line, a chunk's end or a trailer section out of form.
    Bad,
    /// A chunk with which the body would have too many bytes.
    TooLarge,
    /// Less than decides it.
    Open,
}

/// What stands at the front of the bytes, in a body that has so many bytes so far.
pub(crate) fn step_of(alloc: Global, bytes: &[u8], so_far: usize) -> Result<Step, NoMemory>
    requires { so_far ≤ greatest_body }
    ensures { IfOk result (IsStep (Stands so_far bytes.now) bytes.now) }
{
    match ending_of::<LineForm>(bytes) {
        Ending::Whole(start) => line_step(alloc, bytes, start, so_far),
        Ending::Nowhere => Ok(Step::Over(Stop::Bad)),
        Ending::Unended => Ok(Step::Over(Stop::Open)),
    }
}

// What stands at a line that has so many bytes.
fn line_step(alloc: Global, bytes: &[u8], start: usize, so_far: usize) -> Result<Step, NoMemory>
    requires so_far { so_far ≤ greatest_body }
    requires within { start ≤ length bytes.now }
    ensures { IfOk result (IsStep (IsLineAt so_far (take start bytes.now) (drop start bytes.now)) bytes.now) }
{
    match chunk_size(&bytes[..start]) {
        None => Ok(Step::Over(Stop::Bad)),
        Some(0) => {
            let stop = last_step(alloc, bytes, start)?;
            Ok(Step::Over(stop))
        }
        Some(size) => {
            if size > (LIMIT - so_far) as u64 {
                Ok(Step::Over(Stop::TooLarge))
            } else {
                Ok(data_step(bytes, start, size as usize))
            }
        }
    }
}

// What stands at a chunk line that has so many bytes, of a chunk of so much data.
fn data_step(bytes: &[u8], start: usize, size: usize) -> Step
    requires size { size ≤ greatest_body }
    requires within { start ≤ length bytes.now }
    ensures { IsStep (IsDataAt size (drop start bytes.now)) bytes.now result }
{
    let rest = &bytes[start..];
    if rest.len() < size + 2 {
        Step::Over(Stop::Open)
    } else if rest[size] == b'\r' && rest[size + 1] == b'\n' {
        Step::Chunk { start, size }
    } else {
        Step::Over(Stop::Bad)
    }
}

// What stands at a chunk line that has so many bytes, of size 0.
fn last_step(alloc: Global, bytes: &[u8], start: usize) -> Result<Stop, NoMemory>
    requires { start ≤ length bytes.now }
    ensures { IfOk result (IsStop (IsTrailerAt (drop start bytes.now)) bytes.now) }
{
    let rest = &bytes[start..];
    match ending_of::<SectionForm>(rest) {
        Ending::Whole(length) => {
            if is_trailer(alloc, &rest[..length])? {
                Ok(Stop::Last(start + length))
            } else {
                Ok(Stop::Bad)
            }
        }
        Ending::Nowhere => Ok(Stop::Bad),
        Ending::Unended => Ok(Stop::Open),
    }
}

// The size that the bytes tell, if they are a chunk line as a whole.
fn chunk_size(line: &[u8]) -> Option<u64>
    ensures { MatchOption result (IsNoChunkLine line.now) (λ size. IsSized line.now size) }
{
    match parse_chunk_size(line) {
        Ok(Status::Complete((length, size))) => {
            if length == line.len() {
                Some(size)
            } else {
                None
            }
        }
        Ok(Status::Partial) => None,
        Err(_) => None,
    }
}

// Whether the bytes are a trailer section as a whole.
fn is_trailer(alloc: Global, bytes: &[u8]) -> Result<bool, NoMemory>
    ensures { IfOk result (λ yes. IsTrue yes ↔ IsTrailer bytes.now) }
{
    let mut spans = room_for(alloc, bytes.len())?;
    Ok(is_section(bytes, &mut spans))
}

fn is_section(bytes: &[u8], spans: &mut [HeaderSpan]) -> bool
    requires { length spans.old ≡ length bytes.now / 3 }
    ensures { IsTrue result ↔ IsTrailer bytes.now }
{
    match parse_headers(bytes, spans) {
        Ok(Status::Complete((length, _))) => length == bytes.len(),
        Ok(Status::Partial) => false,
        Err(_) => false,
    }
}
