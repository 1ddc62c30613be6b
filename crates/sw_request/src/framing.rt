//! Where the body of a request ends, and whether its client waits for leave to send it.

ghost use Rattle.std.specs.Prelude.{◌≡◌, ◌<◌, ◌≤◌, ℕ, List, Some, codes, length, true};
ghost use Rattle.std.specs.Char.{is_ascii_digit};
ghost use Rattle.std.specs.List.{list_all, list_any};
ghost use Rattle.std.specs.Str.Parse.{digits_value};
ghost use Rattle.std.specs.Str.{all_ascii_digits, str_eq_ignore_ascii_case};
ghost use Rattle.sw_request.specs.Fields.{values_of};
ghost use Rattle.sw_request.specs.Framing.{framing_by, framing_of, has_body, is_waiting, length_of};
ghost use Rattle.sw_request.specs.Values.{AreValues};

use crate::fields::{Values, is_current, is_same, next_value, values_of};
use sw_httpread::{Framing, RequestHead};
use sw_types::Bytes;

/// How a head tells where its body ends, where that is in form (RFC 9112, section 6).
pub(crate) fn framing_of(head: &RequestHead) -> Option<Framing>
    ensures { result ≡ framing_of head.now }
{
    framing_by(
        is_current(head),
        values_of(b"content-length", head.fields()),
        values_of(b"transfer-encoding", head.fields()),
    )
}

// How the values of Content-Length and of Transfer-Encoding tell it.
fn framing_by(current: bool, lengths: Values<'_>, codings: Values<'_>) -> Option<Framing>
    ensures { (texts others : List (List ℕ)) → AreValues texts lengths.entry → AreValues others codings.entry → result ≡ framing_by current texts others }
{
    match (lengths, codings) {
        (Values::None, Values::None) => Some(Framing::None),
        (Values::One(text), Values::None) => length_of(text).map(Framing::Length),
        (Values::None, Values::One(coding)) => {
            if current && is_same(coding, b"chunked") {
                Some(Framing::Chunked)
            } else {
                None
            }
        }
        _ => None,
    }
}

// The number of bytes that 1 to 18 digits tell.
fn length_of(text: &[u8]) -> Option<u64>
    ensures { result ≡ length_of text.now }
{
    if !text.is_empty() && text.len() <= 18 && are_digits(text) {
        number_of(text)
    } else {
        None
    }
}

// The number that so few digits write.
fn number_of(digits: &[u8]) -> Option<u64>
    ensures { all_ascii_digits digits.now ≡ true → 0 < length digits.now → length digits.now ≤ 18 → result ≡ Some (digits_value 10 digits.now) }
{
    let text = str::from_utf8(digits).ok()?;
    text.parse().ok()
}

fn are_digits(text: &[u8]) -> bool
    ensures { result ≡ list_all is_ascii_digit text.now }
{
    text.iter().all(|byte| byte.is_ascii_digit())
}

/// Whether the client waits for 100 Continue before it sends the body (RFC 9110, section 10.1.1).
pub(crate) fn is_waiting(head: &RequestHead, framing: Framing) -> bool
    ensures { result ≡ is_waiting head.now framing }
{
    is_current(head) && has_body(framing) && expects(head.fields())
}

// Whether there is a body to come.
fn has_body(framing: Framing) -> bool
    ensures { result ≡ has_body framing }
{
    match framing {
        Framing::None => false,
        Framing::Length(size) => size > 0,
        Framing::Chunked => true,
    }
}

// Whether an Expect field asks for it.
fn expects(fields: &[(Bytes, Bytes)]) -> bool
    ensures { result ≡ list_any (λ value. str_eq_ignore_ascii_case value (codes "100-continue")) (values_of (codes "expect") fields.now) }
{
    let mut rest = fields;
    while let Some((value, behind)) = next_value(b"expect", rest) {
        if is_same(value, b"100-continue") {
            return true;
        }
        rest = behind;
    }
    false
}
