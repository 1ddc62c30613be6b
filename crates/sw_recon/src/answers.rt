//! What the answers to a revert's messages lead to.

ghost use Rattle.std.specs.Prelude.{◌≡◌, ◌||◌, [], if◌then◌else◌, nat_le, take, IfOk};
ghost use Rattle.std.specs.List.{list_any};
ghost use Rattle.sw_message.specs.Floors.{stands_above};
ghost use Rattle.sw_recon.specs.Course.{most_entries};
ghost use Rattle.sw_recon.specs.Revert.{asked, committed, covers, fetched, forbidden, goes_on, is_durable_one, is_newer, keeps, removed, stored, treat};
ghost use Rattle.sw_recon.specs.declared.kept.KeptCause.TheVariants.{NotDurable};
ghost use Rattle.sw_recon.specs.declared.treatment.Treatment.TheVariants.{Fetch, Remove};

use crate::course::{Course, treat};
use crate::kept::KeptCause;
use crate::revert_end::RevertEnd;
use crate::status::Status;
use crate::treatment::Treatment;
use std::alloc::Global;
use std::collections::VecDeque;
use sw_hashdir::{Entry, Floor, Listing};
use sw_message::{Miss, Reply, Spoil, stands_above};
use sw_types::{NoMemory, Stamp};

/// A revert treats so many entries; the others wait for a later one.
const MOST_ENTRIES: usize = 65_536;

/// The own device listed this.
pub(crate) fn started(alloc: Global, total: u32, listing: &Listing) -> Result<Status, NoMemory>
    ensures { IfOk result (λ status. status ≡ treat total (take most_entries listing.now.entries) 0 []) }
{
    let entries = listing.entries();
    let count = entries.len().min(MOST_ENTRIES);
    let mut later = VecDeque::with_capacity(alloc, count)?;
    for entry in &entries[..count] {
        later.push_back_reserved(*entry);
    }
    Ok(treat(total, later, 0, Vec::with_capacity(alloc, count)?))
}

/// The primary of the entry's index was asked.
pub(crate) fn asked(course: Course, total: u32, answer: Option<Reply>) -> Status
    ensures { result ≡ asked total course answer }
{
    match answer {
        None => course.keep(total, KeptCause::Missed(Miss::NoReply)),
        Some(Reply::Held(listing)) => listed(course, total, &listing),
        Some(other) => course.keep(total, KeptCause::Missed(Miss::of(&other))),
    }
}

// It listed this.
fn listed(course: Course, total: u32, listing: &Listing) -> Status
    ensures { result ≡ if covers listing.now course.entry then goes_on course Remove else if course.entry.durable then goes_on course Fetch else keeps total course NotDurable }
{
    if covers(listing, &course.entry) {
        return course.go_on(Treatment::Remove);
    }
    if course.entry.durable {
        return course.go_on(Treatment::Fetch);
    }
    course.keep(total, KeptCause::NotDurable)
}

/// The archive was fetched from the own device; bytes that are not what was asked for are spoiled so.
pub(crate) fn fetched(
    course: Course,
    total: u32,
    answer: Option<Reply>,
    spoil: Option<Spoil>,
) -> Status
    ensures { result ≡ fetched total course answer spoil }
{
    match (answer, spoil) {
        (None, _) => course.keep(total, KeptCause::Missed(Miss::NoReply)),
        (Some(Reply::Fragment(_)), Some(spoil)) => {
            course.keep(total, KeptCause::Missed(Miss::Spoiled(spoil)))
        }
        (Some(Reply::Fragment(bytes)), None) => course.go_on(Treatment::Store(bytes)),
        (Some(Reply::Gone(_)), _) => course.keep(total, KeptCause::Missed(Miss::Gone)),
        (Some(other), _) => course.keep(total, KeptCause::Missed(Miss::of(&other))),
    }
}

/// The archive was sent to the primary.
pub(crate) fn stored(course: Course, total: u32, answer: Option<Reply>) -> Status
    ensures { result ≡ stored total course answer }
{
    match answer {
        None => course.keep(total, KeptCause::Missed(Miss::NoReply)),
        Some(Reply::Synced) => course.go_on(Treatment::Commit),
        Some(Reply::Superseded(floor)) => forbidden(course, total, floor),
        Some(other) => course.keep(total, KeptCause::Missed(Miss::of(&other))),
    }
}

/// It was to be made durable there.
pub(crate) fn committed(course: Course, total: u32, answer: Option<Reply>) -> Status
    ensures { result ≡ committed total course answer }
{
    match answer {
        None => course.keep(total, KeptCause::Missed(Miss::NoReply)),
        Some(Reply::Committed) => course.go_on(Treatment::Remove),
        Some(Reply::Superseded(floor)) => forbidden(course, total, floor),
        Some(Reply::Missing) => course.keep(total, KeptCause::NoMark),
        Some(other) => course.keep(total, KeptCause::Missed(Miss::of(&other))),
    }
}

/// It was to be removed from the own device.
pub(crate) fn removed(course: Course, total: u32, answer: Option<Reply>) -> Status
    ensures { result ≡ removed total course answer }
{
    match answer {
        None => course.keep(total, KeptCause::Missed(Miss::NoReply)),
        Some(Reply::Removed) => course.remove(total),
        Some(Reply::Missing) => course.keep(total, KeptCause::Missed(Miss::Missing)),
        Some(other) => course.keep(total, KeptCause::Missed(Miss::of(&other))),
    }
}

// A floor forbids that the primary takes the archive: it covers the entry, or the reply is odd.
fn forbidden(course: Course, total: u32, floor: Floor) -> Status
    ensures { result ≡ forbidden total course (stands_above floor course.entry.stamp) }
{
    if is_covered(&course, &floor) {
        return course.go_on(Treatment::Remove);
    }
    course.keep(total, KeptCause::Missed(Miss::Odd))
}

fn is_covered(course: &Course, floor: &Floor) -> bool
    ensures { result ≡ stands_above floor.now course.now.entry.stamp }
{
    stands_above(floor, course.entry.stamp)
}

// Whether a listing shows the entry durable, or a durable entry or a tombstone that stands above its stamp.
fn covers(listing: &Listing, entry: &Entry) -> bool
    ensures { result ≡ covers listing.now entry.now }
{
    is_listed(listing.entries(), entry) || is_buried(listing.tombstones(), entry.stamp)
}

fn is_listed(entries: &[Entry], entry: &Entry) -> bool
    ensures { result ≡ list_any (λ other. is_durable_one entry.now other || is_newer entry.now other) entries.now }
{
    entries.iter().any(|other| { is_durable_one(entry, other) || is_newer(entry, other) })
}

fn is_buried(tombstones: &[Stamp], stamp: Stamp) -> bool
    ensures { result ≡ list_any (λ other. nat_le stamp other) tombstones.now }
{
    tombstones
        .iter()
        .any(|other| stamp.units() <= other.units())
}

fn is_durable_one(entry: &Entry, other: &Entry) -> bool
    ensures { result ≡ is_durable_one entry.now other.now }
{
    other.durable && other.stamp == entry.stamp && other.index == entry.index
}

fn is_newer(entry: &Entry, other: &Entry) -> bool
    ensures { result ≡ is_newer entry.now other.now }
{
    other.durable && entry.stamp.units() < other.stamp.units()
}
