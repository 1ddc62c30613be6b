//! Heads of objects.

ghost use Rattle.std.specs.Prelude.{◌≡◌, ◌&&◌, [], IfErr, IfOk, IfSome, None, Some, nat_eq, not, position};
ghost use Rattle.std.specs.Cmp.Lexicographic.{pointwise};
ghost use Rattle.std.specs.List.{list_all, list_any};
ghost use Rattle.sw_words.specs.Memory.{UnlessMemory};
ghost use Rattle.sw_types.specs.declared.head.HeadFault.TheVariants.{NoMemory as WantOfMemory};
ghost use Rattle.sw_types.specs.Head.{head_fault, is_content_type, is_name_byte, is_pair_name, is_pair_value, is_plain, overall, pairs_fault, repeat_after};

use crate::{Bytes, NoMemory};
use std::alloc::{AllocError, Global};
use std::marker::Model;
use thiserror::Error;

/// Why there is no head of a content type and pairs: the first rule that is broken, in the order of the variants. All names
/// are tried before all values.
#[derive(Clone, Copy, Debug, PartialEq, Eq, Error)]
pub enum HeadFault {
    /// The content type has no byte or more than 256, or a carriage return, a line feed or a NUL.
    #[error("a content type out of form")]
    ContentType,
    /// There are more than 90 pairs.
    #[error("too many pairs")]
    TooManyPairs,
    /// The name at this position has no byte or more than 128, or one that is neither a digit, a lower-case letter nor another
    /// character of a token (RFC 9110, section 5.6.2).
    #[error("the name of pair {0} out of form")]
    PairName(usize),
    /// The value at this position has more than 256 bytes, or a carriage return, a line feed or a NUL.
    #[error("the value of pair {0} out of form")]
    PairValue(usize),
    /// All names and values together have more than 4,096 bytes.
    #[error("pairs of more than 4,096 bytes")]
    Overall,
    /// The pair at this position has the name of an earlier one.
    #[error("the name of pair {0} for the second time")]
    Twice(usize),
    #[error("out of memory")]
    NoMemory,
}

impl From<NoMemory> for HeadFault {
    ghost from_gives = { λ _ fault. fault ≡ WantOfMemory };

    fn from(_refused: NoMemory) -> HeadFault {
        HeadFault::NoMemory
    }
}

/// A content type, and pairs of a name and a value, in order.
#[derive(Debug, Drop)]
pub struct Head {
    content_type: Bytes,
    pairs: Vec<(Bytes, Bytes)>,
}

impl Model for Head {
    ghost use Rattle.std.specs.Prelude.{◌≡◌, None};
    ghost use Rattle.sw_types.specs.Head.{HeadModel, head_fault};

    ghost Value = { HeadModel };

    ghost view = { λ head. record { content_type = head.content_type; pairs = head.pairs.items } };

    ghost invariant = { λ head. head_fault (record { content_type = head.content_type; pairs = head.pairs.items }) ≡ None };
}

impl Head {
    /// The greatest number of pairs.
    pub const GREATEST_PAIRS: usize = 90;

    /// The greatest number of bytes of all names and values.
    pub const GREATEST_OVERALL: usize = 4096;

    /// The head of a content type and pairs, or the first rule that they break. It takes memory, and may answer
    /// `NoMemory`, only where none is broken.
    pub fn make(
        alloc: Global,
        content_type: &[u8],
        pairs: &[(Bytes, Bytes)],
    ) -> Result<Head, HeadFault>
        ensures sound { IfOk result (λ head. head_fault head ≡ None) }
        ensures made { IfOk result (λ head. head ≡ record { content_type = content_type.now; pairs = pairs.now }) }
        ensures fault { IfErr result (λ fault. UnlessMemory HeadFault.NoMemory fault
            (head_fault (record { content_type = content_type.now; pairs = pairs.now }) ≡ Some fault)) }
        ensures refused { IfSome (head_fault (record { content_type = content_type.now; pairs = pairs.now })) (λ fault. result ≡ Err fault) }
    {
        if !Head::is_content_type(content_type) {
            return Err(HeadFault::ContentType);
        }
        if let Some(fault) = pairs_fault(pairs) {
            return Err(fault);
        }
        let content_type = Bytes::from_slice(alloc, content_type)?;
        Ok(Head::from_parts(content_type, copies(alloc, pairs)?))
    }

    /// The head of a content type and pairs that break no rule. It takes no memory.
    pub fn from_parts(content_type: Bytes, pairs: Vec<(Bytes, Bytes)>) -> Head
        requires { head_fault (record { content_type = content_type; pairs = pairs.items }) ≡ None }
        ensures { result ≡ record { content_type = content_type; pairs = pairs.items } }
    {
        Head {
            content_type,
            pairs,
        }
    }

    /// Whether a text has the form of a content type. It takes no memory.
    pub fn is_content_type(text: &[u8]) -> bool
        ensures { result ≡ is_content_type text.now }
    {
        !text.is_empty() && text.len() <= 256 && is_plain(text)
    }

    /// Whether two texts have the forms of a pair's name and value. It takes no memory.
    pub fn is_pair(name: &[u8], value: &[u8]) -> bool
        ensures { result ≡ (is_pair_name name.now && is_pair_value value.now) }
    {
        is_pair_name(name) && is_pair_value(value)
    }

    /// The content type.
    pub fn content_type(&self) -> &[u8]
        ensures { result.now ≡ self.now.content_type }
    {
        self.content_type.as_slice()
    }

    /// The pairs, in order.
    pub fn pairs(&self) -> &[(Bytes, Bytes)]
        ensures pairs { result.now ≡ self.now.pairs }
        ensures sound { head_fault self.now ≡ None }
    {
        &self.pairs
    }
}

impl Clone for Head {
    ghost is_clone = { λ head copy. copy ≡ head };

    fn clone(&self) -> Result<Head, AllocError> {
        let content_type = self.content_type.clone()?;
        let pairs = self.pairs.clone()?;
        Ok(Head {
            content_type,
            pairs,
        })
    }
}

// Whether it has no carriage return, line feed or NUL.
fn is_plain(text: &[u8]) -> bool
    ensures { result ≡ is_plain text.now }
{
    text.iter()
        .all(|byte| !(*byte == 13 || *byte == 10 || *byte == 0))
}

fn is_name_byte(byte: u8) -> bool
    ensures { result ≡ is_name_byte byte }
{
    byte.is_ascii_digit() || byte.is_ascii_lowercase() || b"!#$%&'*+-.^_`|~".contains(&byte)
}

fn is_pair_name(name: &[u8]) -> bool
    ensures { result ≡ is_pair_name name.now }
{
    !name.is_empty() && name.len() <= 128 && are_name_bytes(name)
}

fn are_name_bytes(name: &[u8]) -> bool
    ensures { result ≡ list_all is_name_byte name.now }
{
    name.iter().all(|byte| is_name_byte(*byte))
}

fn is_pair_value(value: &[u8]) -> bool
    ensures { result ≡ is_pair_value value.now }
{
    value.len() <= 256 && is_plain(value)
}

// The first position whose name is out of form.
fn odd_name(pairs: &[(Bytes, Bytes)]) -> Option<usize>
    ensures { result ≡ position (λ pair. not (is_pair_name pair.0)) pairs.now }
{
    pairs
        .iter()
        .position(|pair| !is_pair_name(pair.0.as_slice()))
}

fn odd_value(pairs: &[(Bytes, Bytes)]) -> Option<usize>
    ensures { result ≡ position (λ pair. not (is_pair_value pair.1)) pairs.now }
{
    pairs
        .iter()
        .position(|pair| !is_pair_value(pair.1.as_slice()))
}

// The bytes of all names and values.
fn overall(pairs: &[(Bytes, Bytes)]) -> u128
    ensures { result ≡ overall pairs.now }
{
    let mut sum = 0u128;
    for pair in pairs {
        sum += pair.0.len() as u128 + pair.1.len() as u128;
    }
    sum
}

// Whether one of the pairs has this name.
fn has_name(pairs: &[(Bytes, Bytes)], name: &Bytes) -> bool
    ensures { result ≡ list_any (λ other. pointwise nat_eq other.0 name.now) pairs.now }
{
    pairs.iter().any(|pair| pair.0 == *name)
}

// The first position whose name an earlier pair has.
fn repeated(pairs: &[(Bytes, Bytes)]) -> Option<usize>
    ensures { result ≡ repeat_after [] 0 pairs.now }
{
    for (position, pair) in pairs.iter().enumerate() {
        if has_name(&pairs[..position], &pair.0) {
            return Some(position);
        }
    }
    None
}

// The first rule that the pairs break.
#[tactic(auto, unfolding(crate::specs::Head::pairs_fault))]
fn pairs_fault(pairs: &[(Bytes, Bytes)]) -> Option<HeadFault>
    ensures { result ≡ pairs_fault pairs.now }
{
    if pairs.len() > Head::GREATEST_PAIRS {
        return Some(HeadFault::TooManyPairs);
    }
    if let Some(position) = odd_name(pairs) {
        return Some(HeadFault::PairName(position));
    }
    if let Some(position) = odd_value(pairs) {
        return Some(HeadFault::PairValue(position));
    }
    if overall(pairs) > Head::GREATEST_OVERALL as u128 {
        return Some(HeadFault::Overall);
    }
    repeated(pairs).map(HeadFault::Twice)
}

fn copies(alloc: Global, pairs: &[(Bytes, Bytes)]) -> Result<Vec<(Bytes, Bytes)>, NoMemory>
    ensures { IfOk result (λ copies. copies.items ≡ pairs.now) }
{
    let mut copies = Vec::with_capacity(alloc, pairs.len())?;
    for pair in pairs {
        copies.push((pair.0.clone()?, pair.1.clone()?))?;
    }
    Ok(copies)
}
