//! The lists of a ring's JSON object: its devices and its rows.

ghost use Rattle.std.specs.Prelude.{◌≡◌, map, codes, IfOk, option_map};
ghost use Rattle.serde_json.specs.Find.{get_member};
ghost use Rattle.serde_json.specs.View.{members_view, view};
ghost use Rattle.sw_ring.specs.Members.{device_of, field, list_of, not_empty, required, whole_below};
ghost use Rattle.sw_ring.specs.Reading.{Gives};
ghost use Rattle.sw_ring.specs.declared.fault.Member.TheVariants as name;

use crate::device::Device;
use crate::fault::{Member, RingFault};
use crate::members::{member, optional_whole, required_whole, whole};
use serde_json::{Map, Value};
use std::alloc::Global;
use sw_types::NoMemory;

// The greatest number of bytes of a disk.
const GREATEST_CAPACITY: u64 = 9_223_372_036_854_775_807;

// That of a disk whose device names none.
const USUAL_CAPACITY: u64 = 1_073_741_824;

// An id below 65,536.
fn device_id(value: &Value) -> Option<u16>
    ensures { result ≡ whole_below 65536 (view value.now) }
{
    let id = whole(value, 65_535)?;
    Some(id as u16)
}

// An object with an id, and with a capacity or without.
fn device(value: &Value) -> Option<Device>
    ensures { result ≡ device_of (view value.now) }
{
    let members = value.as_object()?;
    let id = required_whole(members, "id", 65_535)?;
    let capacity = optional_whole(members, "capacity", GREATEST_CAPACITY, USUAL_CAPACITY)?;
    Some(Device {
        id: id as u16,
        capacity,
    })
}

// The devices of a list, if each of its items is one.
fn device_list(alloc: Global, value: &Value) -> Result<Option<Vec<Device>>, NoMemory>
    ensures { IfOk result (λ list. option_map (λ devices. devices.items) list ≡ list_of device_of (view value.now)) }
{
    let Some(items) = value.as_array() else {
        return Ok(None);
    };
    let mut devices = Vec::new(alloc);
    for item in items {
        let Some(device) = device(item) else {
            return Ok(None);
        };
        devices.push(device)?;
    }
    Ok(Some(devices))
}

// The ids of a list, if each of its items is one.
fn row(alloc: Global, value: &Value) -> Result<Option<Vec<u16>>, NoMemory>
    ensures { IfOk result (λ list. option_map (λ ids. ids.items) list ≡ list_of (whole_below 65536) (view value.now)) }
{
    let Some(items) = value.as_array() else {
        return Ok(None);
    };
    let mut ids = Vec::new(alloc);
    for item in items {
        let Some(id) = device_id(item) else {
            return Ok(None);
        };
        ids.push(id)?;
    }
    Ok(Some(ids))
}

// The rows of a list, if each of its items is one.
fn row_list(alloc: Global, value: &Value) -> Result<Option<Vec<Vec<u16>>>, NoMemory>
    ensures { IfOk result (λ list. option_map (λ rows. map (λ row. row.items) rows.items) list ≡ list_of (list_of (whole_below 65536)) (view value.now)) }
{
    let Some(items) = value.as_array() else {
        return Ok(None);
    };
    let mut rows = Vec::new(alloc);
    for item in items {
        let Some(row) = row(alloc, item)? else {
            return Ok(None);
        };
        rows.push(row)?;
    }
    Ok(Some(rows))
}

/// The devices, of which there is one at least.
pub(crate) fn devices(alloc: Global, members: &Map<String, Value>) -> Result<Vec<Device>, RingFault>
    ensures { Gives (λ devices. devices.items) result
        (field name.Devices (not_empty (required (list_of device_of) (get_member (codes "devices") (members_view members.now.entries))))) }
{
    let value = member(members, "devices").ok_or(RingFault::Field(Member::Devices))?;
    match device_list(alloc, value)? {
        Some(devices) if !devices.is_empty() => Ok(devices),
        _ => Err(RingFault::Field(Member::Devices)),
    }
}

/// The rows, each a list of ids.
pub(crate) fn rows(alloc: Global, members: &Map<String, Value>) -> Result<Vec<Vec<u16>>, RingFault>
    ensures { Gives (λ rows. map (λ row. row.items) rows.items) result
        (field name.Rows (required (list_of (list_of (whole_below 65536))) (get_member (codes "rows") (members_view members.now.entries)))) }
{
    let value = member(members, "rows").ok_or(RingFault::Field(Member::Rows))?;
    row_list(alloc, value)?.ok_or(RingFault::Field(Member::Rows))
}
