//! Fields of a head, by their names, which have no case (RFC 9110, section 5.1).

ghost use Rattle.std.specs.Prelude.{◌≡◌, ◌<◌, ◌∷◌, [], MatchOption, length};
ghost use Rattle.std.specs.Option.{option_copied};
ghost use Rattle.std.specs.Str.{str_eq_ignore_ascii_case};
ghost use Rattle.sw_request.specs.Fields.{is_current, last_value, value_under, values_of};
ghost use Rattle.sw_request.specs.Values.{AreValues};

use sw_httpread::RequestHead;
use sw_types::Bytes;

/// The values of a name, as far as it matters whether there is one.
#[derive(Clone, Copy, Debug)]
pub(crate) enum Values<'a> {
    None,
    One(&'a [u8]),
    Several,
}

/// Whether two texts are the same but for the case of their letters.
pub(crate) fn is_same(text: &[u8], other: &[u8]) -> bool
    ensures { result ≡ str_eq_ignore_ascii_case text.now other.now }
{
    text.eq_ignore_ascii_case(other)
}

/// Whether a head is one of HTTP/1.1.
pub(crate) fn is_current(head: &RequestHead) -> bool
    ensures { result ≡ is_current head.now }
{
    head.minor() == 1
}

/// The first value of a name, and the fields behind it.
pub(crate) fn next_value<'a>(
    name: &[u8],
    fields: &'a [(Bytes, Bytes)],
) -> Option<(&'a [u8], &'a [(Bytes, Bytes)])>
    ensures { MatchOption result (values_of name.now fields.now ≡ [])
        (λ next. (values_of name.now fields.now ≡ next.0.now ∷ values_of name.now next.1.now) × (length next.1.now < length fields.now)) }
{
    let mut rest = fields;
    while let Some((field, behind)) = rest.split_first() {
        if is_same(field.0.as_slice(), name) {
            return Some((field.1.as_slice(), behind));
        }
        rest = behind;
    }
    None
}

/// The values of a name.
pub(crate) fn values_of<'a>(name: &[u8], fields: &'a [(Bytes, Bytes)]) -> Values<'a>
    ensures { AreValues (values_of name.now fields.now) result }
{
    match next_value(name, fields) {
        None => Values::None,
        Some((value, rest)) => match next_value(name, rest) {
            None => Values::One(value),
            Some(_) => Values::Several,
        },
    }
}

/// The last value of a name.
pub(crate) fn last_value<'a>(name: &[u8], fields: &'a [(Bytes, Bytes)]) -> Option<&'a [u8]>
    ensures { option_copied result ≡ last_value name.now fields.now }
{
    let mut last = None;
    let mut rest = fields;
    while let Some((value, behind)) = next_value(name, rest) {
        last = Some(value);
        rest = behind;
    }
    last
}
