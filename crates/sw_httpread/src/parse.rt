//! Heads are parsed.

ghost use Rattle.std.specs.Prelude.{◌≡◌, ◌/◌, length, map, All, IfOk, MatchOption};
ghost use Rattle.httparse.specs.Spans.{IsHeaderWithin, header_bytes};
ghost use Rattle.sw_httpread.specs.Heads.{IsHeadOf, IsNoHead};
ghost use Rattle.sw_httpread.specs.Parsed.{IsParsed};

use crate::request::RequestHead;
use httparse::Status;
use httparse::spans::{EMPTY_HEADER_SPAN, HeaderSpan, RequestSpans, parse_request};
use std::alloc::Global;
use sw_types::{Bytes, NoMemory};

/// The head that the bytes are as a whole, if they are one.
pub(crate) fn parse_head(alloc: Global, bytes: &[u8]) -> Result<Option<RequestHead>, NoMemory>
    ensures { IfOk result (λ found. MatchOption found (IsNoHead bytes.now) (λ head. IsHeadOf bytes.now head)) }
{
    let mut spans = room_for(alloc, bytes.len())?;
    let Some(head) = parse_whole(bytes, &mut spans) else {
        return Ok(None);
    };
    let head = RequestHead {
        method: Bytes::from_slice(alloc, head.method.of(bytes))?,
        target: Bytes::from_slice(alloc, head.path.of(bytes))?,
        minor: head.version,
        fields: fields_of(alloc, bytes, &spans[..head.headers])?,
    };
    Ok(Some(head))
}

// The parts of the head that the bytes are as a whole.
fn parse_whole(bytes: &[u8], spans: &mut [HeaderSpan]) -> Option<RequestSpans>
    requires { length spans.old ≡ length bytes.now / 3 }
    ensures { MatchOption result (IsNoHead bytes.now) (IsParsed bytes.now spans.new) }
{
    match parse_request(bytes, spans) {
        Ok(Status::Complete(head)) => {
            if head.len == bytes.len() {
                Some(head)
            } else {
                None
            }
        }
        Ok(Status::Partial) => None,
        Err(_) => None,
    }
}

/// Room for the fields of so many bytes: each has a byte of its name, a colon and the end of its line.
pub(crate) fn room_for(alloc: Global, count: usize) -> Result<Vec<HeaderSpan>, NoMemory>
    ensures { IfOk result (λ spans. length spans.items ≡ count / 3) }
{
    Ok(vec![in alloc; EMPTY_HEADER_SPAN; count / 3]?)
}

// The fields that the spans cover.
fn fields_of(
    alloc: Global,
    bytes: &[u8],
    spans: &[HeaderSpan],
) -> Result<Vec<(Bytes, Bytes)>, NoMemory>
    requires { All (IsHeaderWithin (length bytes.now)) spans.now }
    ensures { IfOk result (λ fields. fields.items ≡ map (header_bytes bytes.now) spans.now) }
{
    let mut fields = Vec::with_capacity(alloc, spans.len())?;
    for span in spans {
        let name = Bytes::from_slice(alloc, span.name.of(bytes))?;
        let value = Bytes::from_slice(alloc, span.value.of(bytes))?;
        fields.push((name, value))?;
    }
    Ok(fields)
}
