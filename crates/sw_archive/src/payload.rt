//! Payloads: one fragment of each segment of a body, joined.

ghost use Rattle.std.specs.Prelude.{◌≡◌, ◌+◌, ◌<◌, ◌≤◌, ◌++◌, OnOk};
ghost use Rattle.sw_types.specs.Object.{greatest_body};
ghost use Rattle.sw_cauchy.specs.Stripe.{segment_fragment};
ghost use Rattle.sw_archive.specs.Archive.{payload_length};
ghost use Rattle.sw_archive.specs.Put.{payload};

use sw_cauchy::Code;
use sw_types::NoMemory;

/// How many bytes a payload of so large a body has.
pub(crate) fn payload_length(code: Code, segment: usize, body_length: usize) -> usize
    requires some { 0 < segment }
    requires within { body_length ≤ greatest_body }
    ensures value { result ≡ payload_length code.k segment body_length }
    ensures bound { result ≤ body_length }
{
    let whole = body_length / segment * code.fragment_width(segment);
    whole + code.fragment_width(body_length % segment)
}

/// Adds the payload of an index.
pub(crate) fn push_payload(
    out: &mut Vec<u8>,
    code: Code,
    size: usize,
    body: &[u8],
    index: u32,
) -> Result<(), NoMemory>
    requires some { 0 < size }
    requires index { index < code.k + code.m }
    ensures { OnOk result (out.new.items ≡ out.old.items ++ payload code.k size body.now index) }
{
    for segment in body.chunks(size) {
        push_fragment(out, code, segment, index)?;
    }
    Ok(())
}

// Adds the fragment of an index of a segment.
fn push_fragment(out: &mut Vec<u8>, code: Code, segment: &[u8], index: u32) -> Result<(), NoMemory>
    requires index { index < code.k + code.m }
    ensures { OnOk result (out.new.items ≡ out.old.items ++ segment_fragment code.k segment.now index) }
{
    let start = out.len();
    let end = start + code.fragment_width(segment.len());
    out.resize(end, 0)?;
    code.write_fragment(&mut out[start..end], segment, index);
    Ok(())
}
