//! Bytes that are cut at the first of a kind.

ghost use Rattle.std.specs.Prelude.{◌+◌, ◌<◌, ◌==◌, IfSome, length};
ghost use Rattle.std.specs.Option.{option_copied};
ghost use Rattle.sw_script.specs.Cut.{IsCut};

use memchr::memchr;

/// What stands before the first `end`, and what after it: all, and `None`, where there is none.
pub fn cut_at(end: u8, text: &[u8]) -> (&[u8], Option<&[u8]>)
    ensures cut { IsCut (λ byte. byte == end) text.now result.0.now (option_copied result.1) }
    ensures shorter { IfSome result.1 (λ rest. length result.0.now + length rest.now < length text.now) }
{
    match memchr(end, text) {
        Some(place) => (&text[..place], Some(&text[place + 1..])),
        None => (text, None),
    }
}
