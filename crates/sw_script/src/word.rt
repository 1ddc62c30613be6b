//! What a word of a line spells.

ghost use Rattle.std.specs.Prelude.{◌≡◌, ◌≤◌, None, Some, IfErr, IfOk, IsSome, MatchOption, MatchResult, is_some, length};
ghost use Rattle.sw_words.specs.Memory.{UnlessMemory};
ghost use Rattle.std.specs.List.{list_all};
ghost use Rattle.hex.specs.Hex.{is_hex_digit};
ghost use Rattle.sw_types.specs.Hex.{bytes_of_hex};
ghost use Rattle.sw_script.specs.Line.{greatest_line};
ghost use Rattle.sw_script.specs.Word.{number_of, object_in, script_head, stamp_of};

use crate::LineFault;
use std::alloc::Global;
use sw_types::{Head, HeadFault, HexFault, NoMemory, Object, Stamp, read_decimal, read_hex};

/// The number that a word spells.
pub(crate) fn read_number(word: &[u8]) -> Result<u64, LineFault>
    ensures { MatchResult result
        (λ number. number_of word.now ≡ Some number)
        (λ fault. (number_of word.now ≡ None) × (fault ≡ LineFault.BadNumber)) }
{
    match read_decimal(word) {
        Some(number) => Ok(number),
        None => Err(LineFault::BadNumber),
    }
}

/// The stamp that a word spells.
pub(crate) fn read_stamp(word: &[u8]) -> Result<Stamp, LineFault>
    ensures { MatchResult result
        (λ stamp. stamp_of word.now ≡ Some stamp)
        (λ fault. (stamp_of word.now ≡ None) × (fault ≡ LineFault.Form)) }
{
    match Stamp::read(word) {
        Some(stamp) => Ok(stamp),
        None => Err(LineFault::Form),
    }
}

/// The object whose body a word spells in hex. A word is never too long for a body. It answers `NoMemory` only where the word
/// spells one.
pub(crate) fn read_object(alloc: Global, word: &[u8]) -> Result<Object, LineFault>
    requires { length word.now ≤ greatest_line }
    ensures read { IfOk result (λ object. object_in word.now ≡ Some object) }
    ensures fault { IfErr result (λ fault. UnlessMemory LineFault.NoMemory fault ((object_in word.now ≡ None) × (fault ≡ LineFault.BadHex))) }
    ensures memory { IfErr result (λ fault. fault ≡ LineFault.NoMemory → IsSome (object_in word.now)) }
{
    let body = match read_hex(alloc, word) {
        Ok(body) => body,
        Err(HexFault::Bad) => return Err(LineFault::BadHex),
        Err(HexFault::NoMemory) => return Err(object_fault(word)),
    };
    let head = script_head(alloc)?;
    match Object::make(head, body) {
        Ok(object) => Ok(object),
        Err(_) => unreachable!(),
    }
}

/// The fault of a word of which no object can be made since memory is wanted: that it spells none, if it does not. It takes no memory.
pub(crate) fn object_fault(word: &[u8]) -> LineFault
    ensures { MatchOption (object_in word.now) (result ≡ LineFault.BadHex) (λ object. result ≡ LineFault.NoMemory) }
{
    if is_hex(word) {
        LineFault::NoMemory
    } else {
        LineFault::BadHex
    }
}

// Whether a word spells bytes in hex.
fn is_hex(word: &[u8]) -> bool
    ensures { result ≡ is_some (bytes_of_hex word.now) }
{
    word == b"-".as_slice() || (!word.is_empty() && word.len() % 2 == 0 && are_digits(word))
}

// Whether all bytes of a text are hexadecimal digits.
fn are_digits(text: &[u8]) -> bool
    ensures { result ≡ list_all is_hex_digit text.now }
{
    text.iter().all(|digit| digit.is_ascii_hexdigit())
}

/// The head of each object that a script or a workload puts.
pub fn script_head(alloc: Global) -> Result<Head, NoMemory>
    ensures { IfOk result (λ head. head ≡ script_head) }
{
    match Head::make(alloc, b"application/octet-stream", &[]) {
        Ok(head) => Ok(head),
        Err(fault) => Err(only_memory(fault)),
    }
}

// A fault that is want of memory.
fn only_memory(_fault: HeadFault) -> NoMemory
    requires { _fault ≡ HeadFault.NoMemory }
{
    NoMemory
}
