//! Answers whose body is a word.

ghost use Rattle.std.specs.Prelude.{◌≡◌, [], IfOk, codes, if◌then◌else◌};
ghost use Rattle.sw_httpwrite.specs.Answer.{HasPhrase};
ghost use Rattle.sw_request.specs.Response.{word_answer};
ghost use Rattle.sw_response.specs.Response.{is_wanting, some_wanting, spent_answer, stamped, unable, wanting_answer};

use std::alloc::Global;
use sw_httpwrite::Answer;
use sw_message::Miss;
use sw_request::word_answer;
use sw_types::{Bytes, NoMemory, Stamp};

/// The answer where no stamp was left for a put or a delete.
pub fn spent_answer(alloc: Global, close: bool) -> Result<Answer, NoMemory>
    ensures { IfOk result (λ answer. answer ≡ spent_answer close) }
{
    plain(alloc, false, close, 503, b"StampsSpent")
}

/// The answer where memory was wanted. The connection is closed behind it.
pub fn wanting_answer(alloc: Global, to_head: bool) -> Result<Answer, NoMemory>
    ensures { IfOk result (λ answer. answer ≡ wanting_answer to_head) }
{
    plain(alloc, to_head, true, 500, b"NoMemory")
}

/// The answer of a word without further fields.
pub(crate) fn plain(
    alloc: Global,
    to_head: bool,
    close: bool,
    status: u16,
    word: &[u8],
) -> Result<Answer, NoMemory>
    requires { HasPhrase status }
    ensures { IfOk result (λ answer. answer ≡ word_answer to_head status word.now [] close) }
{
    word_answer(alloc, to_head, status, word, Vec::new(alloc), close)
}

/// The answer of a word and a stamp.
pub(crate) fn stamped(
    alloc: Global,
    to_head: bool,
    close: bool,
    status: u16,
    word: &[u8],
    stamp: Stamp,
) -> Result<Answer, NoMemory>
    requires { HasPhrase status }
    ensures { IfOk result (λ answer. answer ≡ word_answer to_head status (stamped word.now stamp) [] close) }
{
    let text = stamped_word(alloc, word, stamp)?;
    plain(alloc, to_head, close, status, text.as_slice())
}

// A word, a space and a stamp.
fn stamped_word(alloc: Global, word: &[u8], stamp: Stamp) -> Result<Bytes, NoMemory>
    ensures { IfOk result (λ text. text ≡ stamped word.now stamp) }
{
    let mut text = Bytes::from_slice(alloc, word)?;
    text.extend_from_slice(b" ")?;
    text.extend_from_slice(&stamp.print())?;
    Ok(text)
}

/// The answer where an operation could not be done: its word, or that of want of memory where a device wanted it.
pub(crate) fn unable(
    alloc: Global,
    to_head: bool,
    close: bool,
    word: &[u8],
    misses: &[(u16, Miss)],
) -> Result<Answer, NoMemory>
    ensures { IfOk result (λ answer. answer ≡ unable to_head close word.now misses.now) }
{
    plain(alloc, to_head, close, 503, told_word(word, misses))
}

// The word that is told.
fn told_word<'a>(word: &'a [u8], misses: &[(u16, Miss)]) -> &'a [u8]
    ensures { result.now ≡ if some_wanting misses.now then codes "NoMemory" else word.now }
{
    if some_wanting(misses) {
        return b"NoMemory";
    }
    word
}

// Whether some device wanted memory.
fn some_wanting(misses: &[(u16, Miss)]) -> bool
    ensures { result ≡ some_wanting misses.now }
{
    misses.iter().any(|(_, miss)| is_wanting(miss))
}

fn is_wanting(miss: &Miss) -> bool
    ensures { result ≡ is_wanting miss.now }
{
    matches!(miss, Miss::NoMemory)
}
