//! Reading a ring's text.

ghost use Rattle.std.specs.Prelude.{◌≡◌, Some, None, MatchOption, true, false};
ghost use Rattle.serde_json.specs.View.{members_view, view};
ghost use Rattle.std.specs.Str.{is_utf8};
ghost use Rattle.sw_ring.specs.Cluster.{members_in};
ghost use Rattle.sw_ring.specs.Members.{members_by, members_of};
ghost use Rattle.std.specs.Option.{ok_or};
ghost use Rattle.sw_ring.specs.Reading.{Gives, members_seen};
ghost use Rattle.serde_json.specs.Read.{read as read_text};

use crate::device::Device;
use crate::fault::{Member, RingFault};
use crate::lists::{devices, rows};
use crate::members::{PolicyNumbers, numbers, part_power, text};
use serde_json::{Map, Value};
use std::alloc::Global;

/// What the members of a ring's object say, whether or not they keep its rules.
#[derive(Debug, Drop)]
pub(crate) struct Members {
    pub(crate) part_power: u64,
    pub(crate) prefix: String,
    pub(crate) suffix: String,
    pub(crate) numbers: PolicyNumbers,
    pub(crate) devices: Vec<Device>,
    pub(crate) rows: Vec<Vec<u16>>,
}

#[tactic(auto, unfolding(crate::specs::Members::members_by))]
fn read_object(alloc: Global, members: &Map<String, Value>) -> Result<Members, RingFault>
    ensures { Gives members_seen result (members_by (members_view members.now.entries)) }
{
    let part_power = part_power(members)?;
    let prefix = text(alloc, members, "hash_prefix", Member::HashPrefix)?;
    let suffix = text(alloc, members, "hash_suffix", Member::HashSuffix)?;
    let numbers = numbers(members)?;
    let devices = devices(alloc, members)?;
    let rows = rows(alloc, members)?;
    Ok(Members {
        part_power,
        prefix,
        suffix,
        numbers,
        devices,
        rows,
    })
}

fn read_value(alloc: Global, value: &Value) -> Result<Members, RingFault>
    ensures { Gives members_seen result (members_of (view value.now)) }
{
    match value.as_object() {
        Some(members) => read_object(alloc, members),
        None => Err(RingFault::Field(Member::Ring)),
    }
}

// The value of a JSON text.
fn parse(alloc: Global, text: &str) -> Result<Value, RingFault>
    ensures { Gives view result (ok_or (read_text text.now) RingFault.NotJson) }
{
    match Value::from_str(alloc, text) {
        Ok(value) => Ok(value),
        Err(fault) if fault.is_memory() => Err(RingFault::NoMemory),
        Err(_) => Err(RingFault::NotJson),
    }
}

// The bytes as text, where they are UTF-8.
fn text_of(bytes: &[u8]) -> Option<&str>
    ensures { MatchOption result (is_utf8 bytes.now ≡ false) (λ text. (is_utf8 bytes.now ≡ true) × (text.now ≡ bytes.now)) }
{
    match str::from_utf8(bytes) {
        Ok(text) => Some(text),
        Err(_) => None,
    }
}

/// What the members of a ring's text say.
pub(crate) fn read_members(alloc: Global, text: &[u8]) -> Result<Members, RingFault>
    ensures { Gives members_seen result (members_in text.now) }
{
    let Some(text) = text_of(text) else {
        return Err(RingFault::NotJson);
    };
    let value = parse(alloc, text)?;
    read_value(alloc, &value)
}
