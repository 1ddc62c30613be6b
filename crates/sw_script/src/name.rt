//! The name of an object that a word spells.

ghost use Rattle.std.specs.Prelude.{◌≡◌, ◌<◌, [], None, Some, IfErr, IfOk, IsSome, length, false, true};
ghost use Rattle.percent_encoding.specs.Percent.{percent_decode as decoded};
ghost use Rattle.sw_words.specs.Memory.{UnlessMemory};
ghost use Rattle.sw_script.specs.Word.{begins_with_digits, greatest_name, has_whole_escapes, name_of, parts_of};

use crate::{LineFault, cut_at};
use arrayvec::ArrayVec;
use percent_encoding::percent_decode;
use std::alloc::Global;
use sw_types::{Name, NameFault};

// The greatest number of bytes of a name: of its three parts, and the slashes between them.
const GREATEST_NAME: usize = 1538;

/// The name that a word spells. It takes memory, and may answer `NoMemory`, only where the word spells one.
pub(crate) fn read_name(alloc: Global, word: &[u8]) -> Result<Name, LineFault>
    ensures read { IfOk result (λ name. name_of word.now ≡ Some name) }
    ensures fault { IfErr result (λ fault. UnlessMemory LineFault.NoMemory fault ((name_of word.now ≡ None) × (fault ≡ LineFault.BadName))) }
    ensures memory { IfErr result (λ fault. fault ≡ LineFault.NoMemory → IsSome (name_of word.now)) }
{
    let mut text = ArrayVec::new();
    if !has_whole_escapes(word) || !decodes(word, &mut text) {
        return Err(LineFault::BadName);
    }
    let (account, container, object) = parts(text.as_slice());
    match Name::make(alloc, account, container, object) {
        Ok(name) => Ok(name),
        Err(NameFault::NoMemory) => Err(LineFault::NoMemory),
        Err(_) => Err(LineFault::BadName),
    }
}

// Replaces each escape of a word by its byte, if what comes of it is no longer than a name.
fn decodes(word: &[u8], text: &mut ArrayVec<u8, GREATEST_NAME>) -> bool
    requires { text.old.items ≡ [] }
    ensures decoded { result ≡ true → text.new.items ≡ decoded word.now }
    ensures long { result ≡ false → greatest_name < length (decoded word.now) }
{
    for byte in percent_decode(word) {
        if text.try_push(byte).is_err() {
            return false;
        }
    }
    true
}

// Whether each percent sign is followed by two hexadecimal digits.
fn has_whole_escapes(word: &[u8]) -> bool
    ensures { result ≡ has_whole_escapes word.now }
{
    let mut rest = word;
    while let Some((byte, after)) = rest.split_first() {
        rest = after;
        if *byte == b'%' {
            if !begins_with_digits(after) {
                return false;
            }
            rest = &after[2..];
        }
    }
    true
}

// Whether a text begins with two hexadecimal digits.
fn begins_with_digits(text: &[u8]) -> bool
    ensures { result ≡ begins_with_digits text.now }
{
    text.len() >= 2 && char::from(text[0]).is_digit(16) && char::from(text[1]).is_digit(16)
}

// The account, the container and the object of a text.
fn parts(text: &[u8]) -> (&[u8], &[u8], &[u8])
    ensures account { result.0.now ≡ (parts_of text.now).account }
    ensures container { result.1.now ≡ (parts_of text.now).container }
    ensures object { result.2.now ≡ (parts_of text.now).object }
{
    let (account, rest) = cut_at(b'/', text);
    let (container, object) = cut_at(b'/', rest.unwrap_or(&[]));
    (account, container, object.unwrap_or(&[]))
}
