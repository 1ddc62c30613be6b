//! The rules of a ring: which of them its rows and its devices break.

ghost use Rattle.std.specs.Prelude.{◌≡◌, ◌+◌, [], map, IfOk, MatchResult, None, Some, option_map, slice_get};
ghost use Rattle.sw_types.specs.Policy.{policy_fault};
ghost use Rattle.sw_words.specs.Memory.{UnlessMemory};
ghost use Rattle.sw_ring.specs.Reading.{members_seen, policy_numbers};
ghost use Rattle.sw_ring.specs.Rules.{device_ids};
ghost use Rattle.sw_ring.specs.Ring.{duplicate_after, has_at, odd_row, option_is, ring_fault, rows_fault, twice_after, twice_in, unknown_device, unknown_in};

use crate::cluster::Cluster;
use crate::device::Device;
use crate::fault::RingFault;
use crate::members::PolicyNumbers;
use crate::reading::Members;
use std::alloc::Global;
use sw_types::{NoMemory, Policy, PolicyFault};

/// The first id that an earlier device has.
#[tactic(auto, using(crate::proofs::Earlier::duplicate_step))]
pub(crate) fn duplicate(ids: &[u16]) -> Option<u16>
    ensures { result ≡ duplicate_after [] ids.now }
{
    for (index, id) in ids.iter().enumerate() {
        if ids[..index].contains(id) {
            return Some(*id);
        }
    }
    None
}

// The first row that hasn't a device for each of so many partitions.
fn odd_row(rows: &[Vec<u16>], parts: usize) -> Option<usize>
    ensures { result ≡ odd_row 0 parts (map (λ row. row.items) rows.now) }
{
    for (number, row) in rows.iter().enumerate() {
        if row.len() != parts {
            return Some(number);
        }
    }
    None
}

// The first id of a row that no device has.
fn unknown_in(known: &[u16], row: &[u16]) -> Option<u16>
    ensures { result ≡ unknown_in known.now row.now }
{
    for id in row {
        if !known.contains(id) {
            return Some(*id);
        }
    }
    None
}

// The first id, row after row, that no device has.
fn unknown_device(known: &[u16], rows: &[Vec<u16>]) -> Option<u16>
    ensures { result ≡ unknown_device known.now (map (λ row. row.items) rows.now) }
{
    for row in rows {
        if let Some(id) = unknown_in(known, row) {
            return Some(id);
        }
    }
    None
}

/// Whether a row has this device at a partition.
pub(crate) fn is_at(row: &[u16], part: usize, id: u16) -> bool
    ensures { result ≡ option_is (slice_get row.now part) id }
{
    part < row.len() && row[part] == id
}

/// Whether one of these rows has this device at a partition.
pub(crate) fn has_at(part: usize, id: u16, rows: &[Vec<u16>]) -> bool
    ensures { result ≡ has_at part id (map (λ row. row.items) rows.now) }
{
    for row in rows {
        if is_at(row, part, id) {
            return true;
        }
    }
    false
}

// The first partition of a row whose device an earlier row has there, and the device.
fn twice_in(earlier: &[Vec<u16>], row: &[u16]) -> Option<(usize, u16)>
    ensures { option_map (λ twice. record { part = twice.0; id = twice.1 }) result ≡ twice_in 0 (map (λ row. row.items) earlier.now) row.now }
{
    for (part, id) in row.iter().enumerate() {
        if has_at(part, *id, earlier) {
            return Some((part, *id));
        }
    }
    None
}

// The first device, row after row, that an earlier row has in the same partition, and the partition.
fn twice(rows: &[Vec<u16>]) -> Option<(usize, u16)>
    ensures { option_map (λ twice. record { part = twice.0; id = twice.1 }) result ≡ twice_after [] (map (λ row. row.items) rows.now) }
{
    for (index, row) in rows.iter().enumerate() {
        if let Some(found) = twice_in(&rows[..index], row) {
            return Some(found);
        }
    }
    None
}

/// The first rule that the rows break: one row for each fragment, in each row a device that is there for each partition,
/// and no device twice in a partition.
#[tactic(auto, unfolding(crate::specs::Ring::rows_fault))]
pub(crate) fn rows_fault(
    ids: &[u16],
    total: usize,
    parts: usize,
    rows: &[Vec<u16>],
) -> Option<RingFault>
    ensures { result ≡ rows_fault ids.now total parts (map (λ row. row.items) rows.now) }
{
    if rows.len() != total {
        return Some(RingFault::RowCount(rows.len()));
    }
    if let Some(number) = odd_row(rows, parts) {
        return Some(RingFault::RowLength(number));
    }
    if let Some(id) = unknown_device(ids, rows) {
        return Some(RingFault::UnknownDevice(id));
    }
    let (part, id) = twice(rows)?;
    Some(RingFault::SameDeviceTwice(part, id))
}

// The ids of devices, in their order.
fn ids(alloc: Global, devices: &[Device]) -> Result<Vec<u16>, NoMemory>
    ensures { IfOk result (λ ids. ids.items ≡ device_ids devices.now) }
{
    let ids = devices.iter().map(|device| device.id).collect(alloc)?;
    Ok(ids)
}

fn policy_of(numbers: &PolicyNumbers) -> Result<Policy, PolicyFault>
    ensures { MatchResult result
        (λ policy. (policy_fault (policy_numbers numbers.now) ≡ None) × (policy ≡ policy_numbers numbers.now))
        (λ fault. policy_fault (policy_numbers numbers.now) ≡ Some fault) }
{
    Policy::make(numbers.k, numbers.m, numbers.q, numbers.c, numbers.segment)
}

/// The policy of members that break no rule, or the first rule that they break.
#[tactic(auto, unfolding(crate::specs::Ring::ring_fault))]
pub(crate) fn checked_policy(alloc: Global, members: &Members) -> Result<Policy, RingFault>
    ensures { MatchResult result
        (λ policy. (ring_fault (members_seen members.now) ≡ None) × (policy ≡ policy_numbers members.now.numbers))
        (λ fault. UnlessMemory RingFault.NoMemory fault (ring_fault (members_seen members.now) ≡ Some fault)) }
{
    if members.part_power > u64::from(Cluster::GREATEST_PART_POWER) {
        return Err(RingFault::PartPower(members.part_power));
    }
    let policy = policy_of(&members.numbers)?;
    if members.devices.len() > Cluster::GREATEST_DEVICES {
        return Err(RingFault::TooManyDevices(members.devices.len()));
    }
    let ids = ids(alloc, &members.devices)?;
    if let Some(id) = duplicate(&ids) {
        return Err(RingFault::DuplicateDevice(id));
    }
    let total = policy.k() as usize + policy.m() as usize;
    match rows_fault(&ids, total, 1 << members.part_power, &members.rows) {
        Some(fault) => Err(fault),
        None => Ok(policy),
    }
}
