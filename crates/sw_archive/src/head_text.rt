//! A head, where it stands in an archive.

ghost use Rattle.std.specs.Prelude.{◌≡◌, ◌↔◌, ◌++◌, length, nat_eq, IfNone, IfOk, IfSome, IsTrue, List, None, ℕ};
ghost use Rattle.std.specs.Bool.{MatchBool};
ghost use Rattle.std.specs.Cmp.Lexicographic.{pointwise};
ghost use Rattle.std.specs.List.{list_any};
ghost use Rattle.sw_types.specs.Head.{FitsBehind, HeadModel, Pair};
ghost use Rattle.sw_archive.specs.Pairs.{AreAtFront, AreFaultless, ArePairs, pairs_in};
ghost use Rattle.sw_archive.specs.Parts.{IsHead};

use crate::parts::{pair_at, pairs_at, text_at};
use std::alloc::Global;
use std::marker::Model;
use sw_types::{Bytes, Head, NoMemory};

/// The bytes of a head: its content type, and so many pairs. Contracts see the head.
#[derive(Debug, Drop)]
pub(crate) struct HeadText<'a> {
    content_type: &'a [u8],
    count: usize,
    pairs: &'a [u8],
}

impl<'a> Model for HeadText<'a> {
    ghost use Rattle.sw_types.specs.Head.{HeadModel};
    ghost use Rattle.sw_archive.specs.Pairs.{IsHeadText, pairs_in};

    ghost Value = { HeadModel };

    ghost view = { λ text. record { content_type = text.content_type.now; pairs = pairs_in text.count text.pairs.now } };

    ghost invariant = { λ text. IsHeadText text.content_type.now text.count text.pairs.now };
}

impl<'a> HeadText<'a> {
    /// The bytes, if they are a head's. It takes no memory.
    pub(crate) fn read(bytes: &'a [u8]) -> Option<HeadText<'a>>
        ensures found { IfSome result (λ head. IsHead bytes.now head) }
        ensures none { IfNone result ((head : HeadModel) → ¬ (IsHead bytes.now head)) }
    {
        let (content_type, rest) = text_at(bytes)?;
        let (count, pairs) = rest.split_first()?;
        let count = usize::from(*count);
        if !Head::is_content_type(content_type) || !are_pairs(pairs, count) {
            return None;
        }
        Some(HeadText {
            content_type,
            count,
            pairs,
        })
    }

    /// The head.
    pub(crate) fn head(&self, alloc: Global) -> Result<Head, NoMemory>
        ensures { IfOk result (λ head. head ≡ self.now) }
    {
        let content_type = Bytes::from_slice(alloc, self.content_type)?;
        let Some((pairs, _)) = pairs_at(alloc, self.count, self.pairs)? else {
            unreachable!();
        };
        Ok(Head::from_parts(content_type, pairs))
    }
}

// Whether the bytes are so many pairs that may stand in a head.
fn are_pairs(bytes: &[u8], count: usize) -> bool
    ensures { MatchBool result (ArePairs bytes.now count (pairs_in count bytes.now)) ((pairs : List Pair) → ¬ (ArePairs bytes.now count pairs)) }
{
    let mut rest = bytes;
    let mut room = Head::GREATEST_OVERALL;
    for position in 0..count {
        let Some((name, value, after)) = pair_at(rest) else {
            return false;
        };
        if !fits_behind(bytes, position, room, name, value) {
            return false;
        }
        room -= name.len() + value.len();
        rest = after;
    }
    rest.is_empty()
}

// Whether a pair may stand behind so many at the front of the bytes, which leave so much room.
fn fits_behind(bytes: &[u8], count: usize, room: usize, name: &[u8], value: &[u8]) -> bool
    ensures { (pairs : List Pair) (rest : List ℕ) → AreFaultless bytes.now count room pairs rest → (IsTrue result ↔ FitsBehind pairs (name.now, value.now)) }
{
    if count >= Head::GREATEST_PAIRS {
        return false;
    }
    if name.len() > room {
        return false;
    }
    if value.len() > room - name.len() {
        return false;
    }
    if !Head::is_pair(name, value) {
        return false;
    }
    !has_name(bytes, count, name)
}

// Whether one of so many pairs at the front of the bytes has this name.
fn has_name(bytes: &[u8], count: usize, name: &[u8]) -> bool
    ensures { (pairs : List Pair) (rest : List ℕ) → AreAtFront bytes.now pairs rest → length pairs ≡ count →
        result ≡ list_any (λ other. pointwise nat_eq other.0 name.now) pairs }
{
    let mut rest = bytes;
    for _ in 0..count {
        let Some((other, _, after)) = pair_at(rest) else {
            return false;
        };
        if other == name {
            return true;
        }
        rest = after;
    }
    false
}
