//! The parts of an archive behind its header: the path of a name, and a head.

ghost use Rattle.std.specs.Prelude.{◌≡◌, ◌<◌, ◌≤◌, ◌^◌, ◌==◌, ◌++◌, ◌∷◌, length, IfNone, IfOk, IfSome, MatchOption, None, OnOk, false, List, ℕ};
ghost use Rattle.std.specs.Int.{w16, to_be_bytes};
ghost use Rattle.std.specs.List.{All, flat_map, list_any};
ghost use Rattle.sw_types.specs.Head.{Pair, head_fault};
ghost use Rattle.sw_types.specs.Name.{NameModel, path_of};
ghost use Rattle.sw_archive.specs.Parts.{AreShort, IsPath, head_bytes, pair_bytes};

use crate::header::{front_of, u16_at};
use std::alloc::Global;
use sw_types::{Bytes, Head, NoMemory};

/// The three parts of a path, where there are so many slashes.
pub(crate) fn parts_of(path: &[u8]) -> Option<(&[u8], &[u8], &[u8])>
    ensures none { IfNone result ((name : NameModel) → ¬ (IsPath path.now name)) }
    ensures some { IfSome result (λ parts. path.now ≡ path_of (record { account = parts.0.now; container = parts.1.now; object = parts.2.now })) }
    ensures only { IfSome result (λ parts. (name : NameModel) → IsPath path.now name → name ≡ record { account = parts.0.now; container = parts.1.now; object = parts.2.now }) }
{
    let (before, rest) = cut_at_slash(path)?;
    if !before.is_empty() {
        return None;
    }
    let (account, rest) = cut_at_slash(rest)?;
    let (container, object) = cut_at_slash(rest)?;
    Some((account, container, object))
}

// What stands before the first slash, and what after it.
fn cut_at_slash(text: &[u8]) -> Option<(&[u8], &[u8])>
    ensures { MatchOption result (list_any (λ byte. byte == 47) text.now ≡ false)
        (λ parts. (text.now ≡ parts.0.now ++ 47 ∷ parts.1.now) × (list_any (λ byte. byte == 47) parts.0.now ≡ false)) }
{
    for (position, byte) in text.iter().enumerate() {
        if *byte == b'/' {
            return Some((&text[..position], &text[position + 1..text.len()]));
        }
    }
    None
}

/// So many pairs, and what comes after them.
pub(crate) fn pairs_at(
    alloc: Global,
    count: usize,
    bytes: &[u8],
) -> Result<Option<(Vec<(Bytes, Bytes)>, &[u8])>, NoMemory>
    ensures { IfOk result (λ found. MatchOption found
        ((pairs : List Pair) (rest : List ℕ) → length pairs ≡ count → AreShort pairs → ¬ (bytes.now ≡ flat_map pair_bytes pairs ++ rest))
        (λ p. (bytes.now ≡ flat_map pair_bytes p.0.items ++ p.1.now) × (length p.0.items ≡ count) × AreShort p.0.items)) }
{
    let mut pairs = Vec::new(alloc);
    let mut rest = bytes;
    for _ in 0..count {
        let Some((name, value, after)) = pair_at(rest) else {
            return Ok(None);
        };
        pairs.push((
            Bytes::from_slice(alloc, name)?,
            Bytes::from_slice(alloc, value)?,
        ))?;
        rest = after;
    }
    Ok(Some((pairs, rest)))
}

/// A pair, and what comes after it.
pub(crate) fn pair_at(bytes: &[u8]) -> Option<(&[u8], &[u8], &[u8])>
    ensures none { IfNone result ((pair : Pair) (rest : List ℕ) → length pair.1 < 2 ^ 16 → ¬ (bytes.now ≡ pair_bytes pair ++ rest)) }
    ensures some { IfSome result (λ p. (bytes.now ≡ pair_bytes (p.0.now, p.1.now) ++ p.2.now) × (length p.1.now < 2 ^ 16)) }
{
    let (name, rest) = name_at(bytes)?;
    let (value, rest) = text_at(rest)?;
    Some((name, value, rest))
}

/// A text behind its length in two bytes, and what comes after it.
pub(crate) fn text_at(bytes: &[u8]) -> Option<(&[u8], &[u8])>
    ensures none { IfNone result ((text rest : List ℕ) → length text < 2 ^ 16 → ¬ (bytes.now ≡ to_be_bytes w16 (length text) ++ (text ++ rest))) }
    ensures some { IfSome result (λ p. (bytes.now ≡ to_be_bytes w16 (length p.0.now) ++ (p.0.now ++ p.1.now)) × (length p.0.now < 2 ^ 16)) }
{
    if bytes.len() < 2 {
        return None;
    }
    let (count, rest) = u16_at(bytes);
    if rest.len() < usize::from(count) {
        return None;
    }
    Some(front_of(rest, usize::from(count)))
}

// A text behind its length in one byte, and what comes after it.
fn name_at(bytes: &[u8]) -> Option<(&[u8], &[u8])>
    ensures none { IfNone result ((text rest : List ℕ) → ¬ (bytes.now ≡ length text ∷ (text ++ rest))) }
    ensures some { IfSome result (λ p. bytes.now ≡ length p.0.now ∷ (p.0.now ++ p.1.now)) }
{
    let (count, rest) = bytes.split_first()?;
    if rest.len() < usize::from(*count) {
        return None;
    }
    Some(front_of(rest, usize::from(*count)))
}

/// The bytes of a head.
pub(crate) fn head_bytes(alloc: Global, head: &Head) -> Result<Vec<u8>, NoMemory>
    ensures bytes { IfOk result (λ bytes. bytes.items ≡ head_bytes head.now) }
    ensures sound { head_fault head.now ≡ None }
{
    let content_type = head.content_type();
    let pairs = head.pairs();
    let mut bytes = Vec::new(alloc);
    bytes.extend_from_slice(&(content_type.len() as u16).to_be_bytes())?;
    bytes.extend_from_slice(content_type)?;
    bytes.push(pairs.len() as u8)?;
    push_pairs(&mut bytes, pairs)?;
    Ok(bytes)
}

// Adds the bytes of pairs.
fn push_pairs(out: &mut Vec<u8>, pairs: &[(Bytes, Bytes)]) -> Result<(), NoMemory>
    requires { All (λ pair. (length pair.0 < 2 ^ 8) × (length pair.1 < 2 ^ 16)) pairs.now }
    ensures { OnOk result (out.new.items ≡ out.old.items ++ flat_map pair_bytes pairs.now) }
{
    for pair in pairs {
        push_pair(out, pair)?;
    }
    Ok(())
}

// Adds the bytes of a pair.
fn push_pair(out: &mut Vec<u8>, pair: &(Bytes, Bytes)) -> Result<(), NoMemory>
    requires name { length pair.now.0 < 2 ^ 8 }
    requires value { length pair.now.1 < 2 ^ 16 }
    ensures { OnOk result (out.new.items ≡ out.old.items ++ pair_bytes pair.now) }
{
    out.push(pair.0.len() as u8)?;
    out.extend_from_slice(pair.0.as_slice())?;
    out.extend_from_slice(&(pair.1.len() as u16).to_be_bytes())?;
    out.extend_from_slice(pair.1.as_slice())?;
    Ok(())
}
