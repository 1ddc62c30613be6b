//! Entity tags of bodies.

ghost use Rattle.std.specs.Prelude.{◌≡◌, ◌∷◌, ℕ, List, MatchOption, false, not};
ghost use Rattle.std.specs.Char.{to_ascii_lowercase};
ghost use Rattle.std.specs.Str.{bytes_eq};
ghost use Rattle.hex.specs.Hex.{encode_lower};
ghost use Rattle.md5.specs.Md5.{md5};
ghost use Rattle.sw_request.specs.Body.{tag_of};

use md5::{Digest, Md5};

/// Whether a value of ETag, without double quotes and in any case, isn't the MD5 of a body.
pub(crate) fn is_other(body: &[u8], value: &[u8]) -> bool
    ensures { result ≡ not (bytes_eq (tag_of value.now) (encode_lower (md5 body.now))) }
{
    let digest = Md5::digest(body);
    let mut digits = [0; 32];
    hex::encode_to_slice(&digest, &mut digits).unwrap();
    !is_tag(value, &digits)
}

// Whether a value, without double quotes and in lower case, is this text.
fn is_tag(value: &[u8], tag: &[u8]) -> bool
    ensures { result ≡ bytes_eq (tag_of value.now) tag.now }
{
    let mut left = value;
    let mut rest = tag;
    while let Some((byte, behind)) = left.split_first() {
        left = behind;
        if *byte != b'"' {
            let Some(more) = after_digit(*byte, rest) else {
                return false;
            };
            rest = more;
        }
    }
    rest.is_empty()
}

// What stands behind a letter or digit, in any case, that a text begins with.
fn after_digit(byte: u8, text: &[u8]) -> Option<&[u8]>
    ensures { MatchOption result ((rest : List ℕ) → bytes_eq (to_ascii_lowercase byte ∷ rest) text.now ≡ false)
        (λ behind. text.now ≡ to_ascii_lowercase byte ∷ behind.now) }
{
    let (first, behind) = text.split_first()?;
    if *first == byte.to_ascii_lowercase() {
        Some(behind)
    } else {
        None
    }
}
