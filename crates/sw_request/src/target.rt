//! What a target names.

ghost use Rattle.std.specs.Prelude.{◌≡◌, ◌≤◌, ◌==◌, IfOk, length, not};
ghost use Rattle.std.specs.List.{after_first, before_first, position_or_len};
ghost use Rattle.percent_encoding.specs.Percent.{percent_decode as decoded};
ghost use Rattle.std.specs.Str.{is_utf8};
ghost use Rattle.sw_request.specs.Parts.{are_full, found_parts, parts_of};
ghost use Rattle.sw_request.specs.Refusal.{target_refusal, parts_refusal};
ghost use Rattle.sw_request.specs.Target.{begins_with_digits, has_nul, has_whole_escapes, is_absolute, is_no_text, is_slash, is_too_long, parts_in, path_in, some_part, without_query};

use crate::fields::is_same;
use crate::refusal::Refusal;
use percent_encoding::percent_decode;
use std::alloc::Global;
use sw_types::{Bytes, NoMemory};

/// An account, a container and an object.
#[derive(Clone, Copy, Debug)]
pub(crate) struct Parts<'a> {
    pub(crate) account: &'a [u8],
    pub(crate) container: &'a [u8],
    pub(crate) object: &'a [u8],
}

/// What a target is refused for.
pub(crate) fn target_refusal(alloc: Global, target: &[u8]) -> Result<Option<Refusal>, NoMemory>
    ensures { IfOk result (λ why. why ≡ target_refusal target.now) }
{
    let path = path_in(target);
    if !has_whole_escapes(path) {
        return Ok(Some(Refusal::BadEscape));
    }
    let path = decoded(alloc, path)?;
    Ok(parts_refusal(parts_in(path.as_slice())))
}

// What the parts of a path are refused for: each test is tried over all of them before the next one.
fn parts_refusal(parts: Option<Parts<'_>>) -> Option<Refusal>
    ensures { result ≡ parts_refusal (found_parts parts.entry) }
{
    let Some(parts) = parts else {
        return Some(Refusal::NoObjectPath);
    };
    if parts.has_no_text() {
        Some(Refusal::NotUtf8)
    } else if parts.has_nul() {
        Some(Refusal::Nul)
    } else if parts.is_too_long() {
        Some(Refusal::NameTooLong)
    } else {
        None
    }
}

/// A path whose escapes are replaced by their bytes.
pub(crate) fn decoded(alloc: Global, path: &[u8]) -> Result<Bytes, NoMemory>
    ensures { IfOk result (λ bytes. bytes ≡ decoded path.now) }
{
    let mut bytes = Vec::new(alloc);
    percent_decode(path).append_to(&mut bytes)?;
    Ok(Bytes::from(bytes))
}

/// The path of a target (RFC 9112, section 3.2).
pub(crate) fn path_in(target: &[u8]) -> &[u8]
    ensures { result.now ≡ path_in target.now }
{
    let text = without_query(target);
    if !is_absolute(text) {
        return text;
    }
    let (_, behind) = text.split_at(7);
    behind.split_at(place_of(b'/', behind)).1
}

fn without_query(target: &[u8]) -> &[u8]
    ensures { result.now ≡ without_query target.now }
{
    target.split_at(place_of(b'?', target)).0
}

// Whether it begins with a scheme and an authority.
fn is_absolute(text: &[u8]) -> bool
    ensures { result ≡ is_absolute text.now }
{
    let (scheme, behind) = text.split_at(7usize.min(text.len()));
    is_same(scheme, b"http://") && place_of(b'/', behind) > 0
}

// Where a byte stands first; behind the last byte where it doesn't.
fn place_of(wanted: u8, text: &[u8]) -> usize
    ensures value { result ≡ position_or_len (λ byte. byte == wanted) text.now }
    ensures within { result ≤ length text.now }
{
    text.iter()
        .position(|byte| *byte == wanted)
        .unwrap_or(text.len())
}

// What stands before the first slash, and what behind it.
fn cut_at_slash(text: &[u8]) -> (&[u8], &[u8])
    ensures before { result.0.now ≡ before_first is_slash text.now }
    ensures after { result.1.now ≡ after_first is_slash text.now }
{
    let place = place_of(b'/', text);
    let (before, _) = text.split_at(place);
    let (_, after) = text.split_at((place + 1).min(text.len()));
    (before, after)
}

// Whether each percent sign is followed by two hexadecimal digits (RFC 3986, section 2.1).
fn has_whole_escapes(path: &[u8]) -> bool
    ensures { result ≡ has_whole_escapes path.now }
{
    let mut rest = path;
    while let Some((byte, behind)) = rest.split_first() {
        if *byte == b'%' && !begins_with_digits(behind) {
            return false;
        }
        rest = behind;
    }
    true
}

// Whether a text begins with two hexadecimal digits.
fn begins_with_digits(text: &[u8]) -> bool
    ensures { result ≡ begins_with_digits text.now }
{
    text.len() >= 2 && char::from(text[0]).is_digit(16) && char::from(text[1]).is_digit(16)
}

/// The parts of a decoded path, where none is empty.
pub(crate) fn parts_in(path: &[u8]) -> Option<Parts<'_>>
    ensures { found_parts result ≡ parts_in path.now }
{
    if !path.starts_with(b"/v1/") {
        return None;
    }
    let (account, rest) = cut_at_slash(path.split_at(4).1);
    let (container, object) = cut_at_slash(rest);
    let parts = Parts {
        account,
        container,
        object,
    };
    if parts.are_full() { Some(parts) } else { None }
}

impl Parts<'_> {
    // Whether no part is empty.
    fn are_full(&self) -> bool
        ensures { result ≡ are_full (parts_of self.now) }
    {
        !self.account.is_empty() && !self.container.is_empty() && !self.object.is_empty()
    }

    // Whether some part isn't UTF-8.
    fn has_no_text(&self) -> bool
        ensures { result ≡ some_part is_no_text (parts_of self.now) }
    {
        is_no_text(self.account) || is_no_text(self.container) || is_no_text(self.object)
    }

    // Whether some part has a NUL.
    fn has_nul(&self) -> bool
        ensures { result ≡ some_part has_nul (parts_of self.now) }
    {
        self.account.contains(&0) || self.container.contains(&0) || self.object.contains(&0)
    }

    // Whether some part has too many bytes.
    fn is_too_long(&self) -> bool
        ensures { result ≡ some_part is_too_long (parts_of self.now) }
    {
        self.account.len() > 256 || self.container.len() > 256 || self.object.len() > 1024
    }
}

fn is_no_text(part: &[u8]) -> bool
    ensures { result ≡ not (is_utf8 part.now) }
{
    str::from_utf8(part).is_err()
}
