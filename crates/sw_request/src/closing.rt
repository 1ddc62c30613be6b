//! Whether a connection ends behind a request.

ghost use Rattle.std.specs.Prelude.{◌≡◌, ◌↔◌, IsTrue, codes};
ghost use Rattle.std.specs.List.{list_all, list_any};
ghost use Rattle.sw_request.specs.Fields.{AsksToClose, values_of};
ghost use Rattle.sw_request.specs.Closing.{has_token, is_space, is_token, trimmed};

use crate::fields::{is_current, is_same, next_value};
use sw_httpread::RequestHead;
use sw_types::Bytes;

/// Whether the connection ends behind a request: one of HTTP/1.0, or one with the token `close` (RFC 9112, section 9.6).
pub fn asks_to_close(head: &RequestHead) -> bool
    ensures { IsTrue result ↔ AsksToClose head.now }
{
    !is_current(head) || lists_close(head.fields())
}

// Whether a Connection field lists the token.
fn lists_close(fields: &[(Bytes, Bytes)]) -> bool
    ensures { result ≡ list_any (has_token (codes "close")) (values_of (codes "connection") fields.now) }
{
    let mut rest = fields;
    while let Some((value, behind)) = next_value(b"connection", rest) {
        if has_close(value) {
            return true;
        }
        rest = behind;
    }
    false
}

// Whether a list, whose parts are separated by commas (RFC 9110, section 5.6.1), has the token.
fn has_close(value: &[u8]) -> bool
    ensures { result ≡ has_token (codes "close") value.now }
{
    value.split(|byte| *byte == b',').any(|part| is_close(part))
}

// Whether a part of a list is the token, with white space around it.
fn is_close(part: &[u8]) -> bool
    ensures { result ≡ is_token (codes "close") part.now }
{
    let rest = trimmed(part);
    let (word, after) = rest.split_at(5usize.min(rest.len()));
    is_same(word, b"close") && are_spaces(after)
}

// What stands behind the white space at the front.
fn trimmed(text: &[u8]) -> &[u8]
    ensures { result.now ≡ trimmed text.now }
{
    let mut rest = text;
    while let Some((byte, behind)) = rest.split_first() {
        if !is_space(*byte) {
            return rest;
        }
        rest = behind;
    }
    rest
}

fn are_spaces(text: &[u8]) -> bool
    ensures { result ≡ list_all is_space text.now }
{
    text.iter().all(|byte| is_space(*byte))
}

// Whether it is a space or a tab (RFC 9110, section 5.6.3).
fn is_space(byte: u8) -> bool
    ensures { result ≡ is_space byte }
{
    byte == b' ' || byte == b'\t'
}
