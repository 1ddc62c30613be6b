//! What a sync does once every device has answered or was given up.

ghost use Rattle.std.specs.Prelude.{◌≡◌, ◌≤◌, ◌+◌, ◌++◌, [], IfOk, OnOk, filter, length, map, min};
ghost use Rattle.sw_hashpath.specs.Place.{IsPlace};
ghost use Rattle.sw_quorum.specs.Targets.{targets_from};
ghost use Rattle.sw_sync.specs.Sync.{as_failure, burial_of, failed_asks, first_tried, is_of, plan, plan_for, repair_of, repair_with, shows_none, shows_plain};
ghost use Rattle.sw_hashdir.specs.declared.floor.FloorKind.TheVariants.{Tombstone};
ghost use Rattle.sw_sync.specs.declared.errand.Errand.TheVariants.{Ask, Commit, Fetch};
ghost use Rattle.sw_sync.specs.declared.sync_end.SyncEnd.TheVariants.{Done};

use crate::burial::Burial;
use crate::errand::Errand;
use crate::heard::Heard;
use crate::repair::Repair;
use crate::showing::{floor_of, greatest_of, listing_of, lists_below, shows_none, shows_plain};
use crate::stage::Stage;
use crate::state::State;
use crate::sync_end::{Failure, SyncEnd};
use std::alloc::Global;
use std::collections::VecDeque;
use sw_gather::{Gathered, candidates, firsts};
use sw_hashdir::{Floor, FloorKind, Listing};
use sw_hashpath::Place;
use sw_message::{Miss, Target, is_above, primaries, total_of};
use sw_ring::Cluster;
use sw_types::{Items, NoMemory, Policy, Stamp};

/// What a sync does, by what devices told.
pub(crate) fn plan(
    alloc: Global,
    cluster: &Cluster,
    device: u16,
    place: &Place,
    heard: &Heard,
) -> Result<State, NoMemory>
    requires { IsPlace cluster.now.part_power place.now }
    ensures { IfOk result (λ state. state ≡ plan (record { cluster = cluster.now; device = device; place = place.now }) heard.now) }
{
    let Some(listing) = listing_of(&heard.lists, device) else {
        return Ok(State::over(alloc, SyncEnd::Unanswered { device }));
    };
    let Some(floor) = floor_of(listing) else {
        return Ok(State::over(alloc, nothing_done(alloc)));
    };
    match greatest_of(&heard.lists) {
        Some(best) if is_above(&best, &floor) => {
            Ok(State::over(alloc, SyncEnd::Newer { floor: best }))
        }
        _ => {
            prove!(cluster.part_power() <= Cluster::GREATEST_PART_POWER);
            let devices = primaries(alloc, cluster, place.part())?;
            plan_for(alloc, cluster.policy(), &devices, heard, &floor)
        }
    }
}

// Nothing had to be done.
fn nothing_done(alloc: Global) -> SyncEnd
    ensures { result ≡ Done 0 0 0 [] }
{
    SyncEnd::Done {
        commits: 0,
        rebuilt: 0,
        tombstones: 0,
        failed: Items::from(Vec::new(alloc)),
    }
}

// What a sync does where no floor is above that of its own device.
fn plan_for(
    alloc: Global,
    policy: &Policy,
    devices: &[u16],
    heard: &Heard,
    floor: &Floor,
) -> Result<State, NoMemory>
    requires { length devices.now ≤ 32 }
    ensures { IfOk result (λ state. state ≡ plan_for policy.now.k (policy.now.k + policy.now.m) devices.now heard.now floor.now floor.now.kind) }
{
    let state = match floor.kind {
        FloorKind::Tombstone => burial_of(alloc, devices, heard, floor)?,
        FloorKind::Durable => repair_of(alloc, policy, devices, heard, floor.stamp)?,
    };
    state.close(alloc, policy.k())
}

// The tombstone goes to each primary that lists a smaller floor, or none.
fn burial_of(
    alloc: Global,
    devices: &[u16],
    heard: &Heard,
    floor: &Floor,
) -> Result<State, NoMemory>
    requires { floor.now.kind ≡ Tombstone }
    ensures { IfOk result (λ state. state ≡ burial_of devices.now heard.now floor.now.stamp) }
{
    let failed = failed_asks(alloc, devices, &heard.misses)?;
    let mut due = VecDeque::new(alloc);
    for device in devices {
        if lists_below(floor, &heard.lists, *device) {
            due.push_back(Errand::Delete(*device))?;
        }
    }
    let stage = Stage::Buries(Burial::new(floor.stamp, failed));
    Ok(State { stage, due })
}

// Entries are made durable where they are plain, and rebuilt where they are lacking.
fn repair_of(
    alloc: Global,
    policy: &Policy,
    devices: &[u16],
    heard: &Heard,
    stamp: Stamp,
) -> Result<State, NoMemory>
    requires { length devices.now ≤ 32 }
    ensures { IfOk result (λ state. state ≡ repair_of policy.now.k (policy.now.k + policy.now.m) devices.now heard.now stamp) }
{
    let targets = targets_of(alloc, devices)?;
    let repair = repair_with(alloc, policy, devices, heard, stamp, &targets)?;
    let mut due = commits_due(alloc, stamp, &heard.lists, &targets)?;
    push_fetches(&mut due, &repair.tried)?;
    let stage = Stage::Repairs(repair);
    Ok(State { stage, due })
}

// Adds the fetches from some sources.
fn push_fetches(due: &mut VecDeque<Errand>, sources: &[Target]) -> Result<(), NoMemory>
    ensures { OnOk result (due.new.items ≡ due.old.items ++ map Fetch sources.now) }
{
    for source in sources {
        due.push_back(Errand::Fetch(*source))?;
    }
    Ok(())
}

// Each index at its primary.
fn targets_of(alloc: Global, devices: &[u16]) -> Result<Vec<Target>, NoMemory>
    requires { length devices.now ≤ 32 }
    ensures { IfOk result (λ targets. targets.items ≡ targets_from 0 devices.now) }
{
    let mut targets = Vec::new(alloc);
    let mut index = 0;
    for device in devices {
        let device = *device;
        targets.push(Target { index, device })?;
        index += 1;
    }
    Ok(targets)
}

// The commits of the entries that their primaries list plain.
fn commits_due(
    alloc: Global,
    stamp: Stamp,
    lists: &[(u16, Listing)],
    targets: &[Target],
) -> Result<VecDeque<Errand>, NoMemory>
    ensures { IfOk result (λ due. due.items ≡ map Commit (filter (shows_plain stamp lists.now) targets.now)) }
{
    let mut due = VecDeque::new(alloc);
    for target in targets {
        if shows_plain(stamp, lists, target) {
            due.push_back(Errand::Commit(*target))?;
        }
    }
    Ok(due)
}

// The targets whose primaries lack the entry.
fn lacking(
    alloc: Global,
    stamp: Stamp,
    lists: &[(u16, Listing)],
    targets: &[Target],
) -> Result<Vec<Target>, NoMemory>
    ensures { IfOk result (λ lacking. lacking.items ≡ filter (shows_none stamp lists.now) targets.now) }
{
    let mut lacking = Vec::new(alloc);
    for target in targets {
        if shows_none(stamp, lists, target) {
            lacking.push(*target)?;
        }
    }
    Ok(lacking)
}

// The repair of a stamp of which nothing was fetched.
fn repair_with(
    alloc: Global,
    policy: &Policy,
    devices: &[u16],
    heard: &Heard,
    stamp: Stamp,
    targets: &[Target],
) -> Result<Repair, NoMemory>
    requires { targets.now ≡ targets_from 0 devices.now }
    ensures { IfOk result (λ repair. repair ≡ repair_with policy.now.k (policy.now.k + policy.now.m) devices.now heard.now stamp) }
{
    let lacking = lacking(alloc, stamp, &heard.lists, targets)?;
    let choices = candidates(alloc, &heard.lists, total_of(policy), stamp)?;
    let first = firsts(alloc, &choices)?;
    let tried = first_tried(alloc, policy.k(), &lacking, &first)?;
    Ok(Repair {
        stamp,
        lacking,
        choices,
        listed: at_most(first.len(), policy.k()),
        tried,
        lost: Vec::new(alloc),
        gathered: Gathered::new(alloc),
        brought: 0,
        misses: Vec::from_slice(alloc, &heard.misses)?,
        commits: 0,
        rebuilt: 0,
        failed: failed_asks(alloc, devices, &heard.misses)?,
    })
}

// The primaries among those that missed as they were asked, as failures.
fn failed_asks(
    alloc: Global,
    devices: &[u16],
    misses: &[(u16, Miss)],
) -> Result<Vec<Failure>, NoMemory>
    ensures { IfOk result (λ failed. failed.items ≡ failed_asks devices.now misses.now) }
{
    let mut failed = Vec::new(alloc);
    for one in misses {
        if is_of(devices, one) {
            failed.push(as_failure(one))?;
        }
    }
    Ok(failed)
}

// Whether a miss is that of one of these devices.
fn is_of(devices: &[u16], one: &(u16, Miss)) -> bool
    ensures { result ≡ is_of devices.now one.now }
{
    devices.iter().any(|device| *device == one.0)
}

// It is what the device did not do.
fn as_failure(one: &(u16, Miss)) -> Failure
    ensures { result ≡ as_failure one.now }
{
    Failure::Missed {
        device: one.0,
        miss: one.1,
    }
}

// The first sources that are tried.
fn first_tried(
    alloc: Global,
    k: u32,
    lacking: &[Target],
    first: &[Target],
) -> Result<Vec<Target>, NoMemory>
    ensures { IfOk result (λ tried. tried.items ≡ first_tried k lacking.now first.now) }
{
    let k = k as usize;
    if lacking.is_empty() || first.len() < k {
        return Ok(Vec::new(alloc));
    }
    Ok(Vec::from_slice(alloc, &first[..k])?)
}

/// The questions to some devices.
pub(crate) fn asks_of(alloc: Global, devices: &[u16]) -> Result<VecDeque<Errand>, NoMemory>
    ensures { IfOk result (λ due. due.items ≡ map Ask devices.now) }
{
    let mut due = VecDeque::new(alloc);
    for device in devices {
        due.push_back(Errand::Ask(*device))?;
    }
    Ok(due)
}

// A number, or the most where it is greater.
fn at_most(number: usize, most: u32) -> u32
    ensures { result ≡ min number most }
{
    if number < most as usize {
        number as u32
    } else {
        most
    }
}
