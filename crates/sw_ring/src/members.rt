//! The members of a ring's JSON object.

ghost use Rattle.std.specs.Prelude.{◌≡◌, ◌+◌, ◌≤◌, ◌^◌, [], codes, IfSome, MatchResult, Err, Ok, option_map, string_bytes};
ghost use Rattle.serde_json.specs.Find.{get_member};
ghost use Rattle.serde_json.specs.View.{members_view, view};
ghost use Rattle.sw_ring.specs.Members.{field, optional, policy_by, required, short_text, whole_below};
ghost use Rattle.sw_ring.specs.Reading.{Gives, policy_numbers};
ghost use Rattle.sw_ring.specs.declared.fault.Member.TheVariants as name;

use crate::fault::{Member, RingFault};
use serde_json::{Map, Value};
use std::alloc::Global;

// The bytes of a segment where the ring names none.
const USUAL_SEGMENT: u32 = 1_048_576;

/// The numbers of a policy, whether or not they keep its bounds.
#[derive(Clone, Copy, Debug)]
pub(crate) struct PolicyNumbers {
    pub(crate) k: u32,
    pub(crate) m: u32,
    pub(crate) q: u32,
    pub(crate) c: u32,
    pub(crate) segment: u32,
}

/// The value of the member of this name, if there is one.
pub(crate) fn member<'v>(members: &'v Map<String, Value>, name: &str) -> Option<&'v Value>
    ensures { option_map (λ value. view value.now) result ≡ get_member name.now (members_view members.now.entries) }
{
    members.get(name)
}

/// A whole number of at most `most`, written in digits alone.
pub(crate) fn whole(value: &Value, most: u64) -> Option<u64>
    ensures number { result ≡ whole_below (most + 1) (view value.now) }
    ensures bound { IfSome result (λ number. number ≤ most) }
{
    match value.as_u64() {
        Some(number) if number <= most => Some(number),
        _ => None,
    }
}

/// A whole number whose member has to be there.
pub(crate) fn required_whole(members: &Map<String, Value>, name: &str, most: u64) -> Option<u64>
    ensures number { result ≡ required (whole_below (most + 1)) (get_member name.now (members_view members.now.entries)) }
    ensures bound { IfSome result (λ number. number ≤ most) }
{
    whole(member(members, name)?, most)
}

/// A whole number, which is `default` where its member is not there.
pub(crate) fn optional_whole(
    members: &Map<String, Value>,
    name: &str,
    most: u64,
    default: u64,
) -> Option<u64>
    requires { default ≤ most }
    ensures number { result ≡ optional default (whole_below (most + 1)) (get_member name.now (members_view members.now.entries)) }
    ensures bound { IfSome result (λ number. number ≤ most) }
{
    match member(members, name) {
        Some(value) => whole(value, most),
        None => Some(default),
    }
}

fn required_u32(members: &Map<String, Value>, name: &str, named: Member) -> Result<u32, RingFault>
    ensures { result ≡ field named (required (whole_below (2 ^ 32)) (get_member name.now (members_view members.now.entries))) }
{
    let number = required_whole(members, name, u64::from(u32::MAX)).ok_or(RingFault::Field(named))?;
    Ok(number as u32)
}

fn optional_u32(
    members: &Map<String, Value>,
    name: &str,
    named: Member,
    default: u32,
) -> Result<u32, RingFault>
    ensures { result ≡ field named (optional default (whole_below (2 ^ 32)) (get_member name.now (members_view members.now.entries))) }
{
    let number = optional_whole(members, name, u64::from(u32::MAX), u64::from(default)).ok_or(
        RingFault::Field(named),
    )?;
    Ok(number as u32)
}

/// The power of two that gives the number of partitions.
pub(crate) fn part_power(members: &Map<String, Value>) -> Result<u64, RingFault>
    ensures { result ≡ field name.PartPower (required (whole_below (2 ^ 64)) (get_member (codes "part_power") (members_view members.now.entries))) }
{
    required_whole(members, "part_power", u64::MAX).ok_or(RingFault::Field(Member::PartPower))
}

/// The numbers of the policy.
#[tactic(auto, unfolding(crate::specs::Members::policy_by))]
pub(crate) fn numbers(members: &Map<String, Value>) -> Result<PolicyNumbers, RingFault>
    ensures { MatchResult result
        (λ numbers. policy_by (members_view members.now.entries) ≡ Ok (policy_numbers numbers))
        (λ fault. policy_by (members_view members.now.entries) ≡ Err fault) }
{
    let k = required_u32(members, "k", Member::K)?;
    let m = required_u32(members, "m", Member::M)?;
    let q = optional_u32(members, "q", Member::Q, k.saturating_add(1))?;
    let c = optional_u32(members, "c", Member::C, q)?;
    let segment = optional_u32(members, "segment", Member::Segment, USUAL_SEGMENT)?;
    Ok(PolicyNumbers {
        k,
        m,
        q,
        c,
        segment,
    })
}

// A text of at most 256 bytes.
fn short_text(value: &Value) -> Option<&str>
    ensures { option_map (λ text. text.now) result ≡ short_text (view value.now) }
{
    let text = value.as_str()?;
    if text.len() > 256 { None } else { Some(text) }
}

/// A text, which is empty where the member is not there.
pub(crate) fn text(
    alloc: Global,
    members: &Map<String, Value>,
    name: &str,
    named: Member,
) -> Result<String, RingFault>
    ensures { Gives string_bytes result (field named (optional [] short_text (get_member name.now (members_view members.now.entries)))) }
{
    let Some(value) = member(members, name) else {
        return Ok(String::new(alloc));
    };
    let text = short_text(value).ok_or(RingFault::Field(named))?;
    Ok(String::from_str(alloc, text)?)
}
