//! The head of the object that a request puts.

ghost use Rattle.std.specs.Prelude.{◌≡◌, ◌∷◌, [], IfOk, OnOk, nat_eq, position};
ghost use Rattle.std.specs.Cmp.Lexicographic.{pointwise};
ghost use Rattle.std.specs.List.{fold, filter_map};
ghost use Rattle.std.specs.Str.{str_to_ascii_lowercase};
ghost use Rattle.sw_request.specs.Metadata.{content_type_in, pair_of, pairs_in, set_pair};
ghost use Rattle.sw_request.specs.Refusal.{metadata_refusal};

use crate::fields::{is_same, last_value};
use crate::method::is_put;
use crate::refusal::Refusal;
use std::alloc::Global;
use sw_httpread::RequestHead;
use sw_types::{Bytes, Head, HeadFault, NoMemory};

/// Whether the head of the object that a request puts breaks a rule of such heads.
#[tactic(auto, using(crate::proofs::Refusals::metadata_kept, crate::proofs::Refusals::metadata_broken))]
pub(crate) fn metadata_refusal(
    alloc: Global,
    head: &RequestHead,
) -> Result<Option<Refusal>, NoMemory>
    ensures { IfOk result (λ why. why ≡ metadata_refusal head.now) }
{
    if !is_put(head) {
        return Ok(None);
    }
    let pairs = pairs_in(alloc, head.fields())?;
    match Head::make(alloc, content_type_in(head.fields()), &pairs) {
        Ok(_) => Ok(None),
        Err(HeadFault::NoMemory) => Err(NoMemory),
        Err(_) => Ok(Some(Refusal::BadMeta)),
    }
}

/// The content type: the last one, or that of any bytes.
pub(crate) fn content_type_in(fields: &[(Bytes, Bytes)]) -> &[u8]
    ensures { result.now ≡ content_type_in fields.now }
{
    match last_value(b"content-type", fields) {
        Some(value) => value,
        None => b"application/octet-stream",
    }
}

/// The metadata: a pair whose name comes again keeps its place.
pub(crate) fn pairs_in(
    alloc: Global,
    fields: &[(Bytes, Bytes)],
) -> Result<Vec<(Bytes, Bytes)>, NoMemory>
    ensures { IfOk result (λ pairs. pairs.items ≡ pairs_in fields.now) }
{
    let mut pairs = Vec::new(alloc);
    for field in fields {
        add_field(alloc, &mut pairs, field)?;
    }
    Ok(pairs)
}

// Adds the pair that a field tells, if it tells one.
fn add_field(
    alloc: Global,
    pairs: &mut Vec<(Bytes, Bytes)>,
    field: &(Bytes, Bytes),
) -> Result<(), NoMemory>
    ensures { OnOk result (pairs.new.items ≡ fold set_pair pairs.old.items (filter_map pair_of (field.now ∷ []))) }
{
    match pair_of(alloc, field)? {
        Some(pair) => set_pair(pairs, pair),
        None => Ok(()),
    }
}

// The pair that a field tells.
fn pair_of(alloc: Global, field: &(Bytes, Bytes)) -> Result<Option<(Bytes, Bytes)>, NoMemory>
    ensures { IfOk result (λ pair. pair ≡ pair_of field.now) }
{
    let name = field.0.as_slice();
    let (prefix, rest) = name.split_at(14usize.min(name.len()));
    if !is_same(prefix, b"x-object-meta-") {
        return Ok(None);
    }
    let name = in_lower_case(alloc, rest)?;
    let value = field.1.clone()?;
    Ok(Some((name, value)))
}

// A text whose letters are in lower case.
fn in_lower_case(alloc: Global, text: &[u8]) -> Result<Bytes, NoMemory>
    ensures { IfOk result (λ lower. lower ≡ str_to_ascii_lowercase text.now) }
{
    let lower: Vec<u8> = text
        .iter()
        .map(|byte| byte.to_ascii_lowercase())
        .collect(alloc)?;
    Ok(Bytes::from(lower))
}

// Adds a pair at the end or, where its name is there, puts it in the place of that one.
fn set_pair(pairs: &mut Vec<(Bytes, Bytes)>, pair: (Bytes, Bytes)) -> Result<(), NoMemory>
    ensures { OnOk result (pairs.new.items ≡ set_pair pairs.old.items pair) }
{
    match place_of(pairs.as_slice(), &pair.0) {
        Some(place) => pairs[place] = pair,
        None => pairs.push(pair)?,
    }
    Ok(())
}

// The first place of a name.
fn place_of(pairs: &[(Bytes, Bytes)], name: &Bytes) -> Option<usize>
    ensures { result ≡ position (λ pair. pointwise nat_eq pair.0 name.now) pairs.now }
{
    pairs.iter().position(|pair| pair.0 == *name)
}
