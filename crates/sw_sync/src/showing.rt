//! What the listings of devices show.

ghost use Rattle.std.specs.Prelude.{◌≡◌, MatchOption, None, Some};
ghost use Rattle.std.specs.List.{list_any};
ghost use Rattle.sw_sync.specs.Sync.{floor_of, greatest_of, is_durable_entry, is_entry, listing_of, lists_below, shows_none, shows_plain};

use sw_hashdir::{Floor, Listing};
use sw_message::{Target, highest_with, is_above};
use sw_types::Stamp;

/// What a device lists, if it answered.
pub(crate) fn listing_of<'a>(lists: &'a [(u16, Listing)], device: u16) -> Option<&'a Listing>
    ensures { MatchOption result (listing_of lists.now device ≡ None) (λ listing. listing_of lists.now device ≡ Some listing.now) }
{
    for (other, listing) in lists {
        if *other == device {
            return Some(listing);
        }
    }
    None
}

/// The greatest floor that a listing shows.
pub(crate) fn floor_of(listing: &Listing) -> Option<Floor>
    ensures { result ≡ floor_of listing.now }
{
    highest_with(None, listing)
}

/// The greatest floor of all that are listed.
pub(crate) fn greatest_of(lists: &[(u16, Listing)]) -> Option<Floor>
    ensures { result ≡ greatest_of lists.now }
{
    let mut best = None;
    for (_, listing) in lists {
        best = highest_with(best, listing);
    }
    best
}

/// Whether a device lists a smaller floor than this one, or none.
pub(crate) fn lists_below(floor: &Floor, lists: &[(u16, Listing)], device: u16) -> bool
    ensures { result ≡ lists_below floor.now (listing_of lists.now device) }
{
    let Some(listing) = listing_of(lists, device) else {
        return false;
    };
    match floor_of(listing) {
        Some(other) => is_above(floor, &other),
        None => true,
    }
}

/// Whether the primary of an index lists its entry, but not durable.
pub(crate) fn shows_plain(stamp: Stamp, lists: &[(u16, Listing)], target: &Target) -> bool
    ensures { result ≡ shows_plain stamp lists.now target.now }
{
    match listing_of(lists, target.device) {
        Some(listing) => {
            has_entry(stamp, target, listing) && !has_durable_entry(stamp, target, listing)
        }
        None => false,
    }
}

/// Whether the primary of an index answered, and lists no entry of it.
pub(crate) fn shows_none(stamp: Stamp, lists: &[(u16, Listing)], target: &Target) -> bool
    ensures { result ≡ shows_none stamp lists.now target.now }
{
    match listing_of(lists, target.device) {
        Some(listing) => !has_entry(stamp, target, listing),
        None => false,
    }
}

// Whether a listing has the entry of an index.
fn has_entry(stamp: Stamp, target: &Target, listing: &Listing) -> bool
    ensures { result ≡ list_any (is_entry stamp target.now) listing.now.entries }
{
    let mut entries = listing.entries().iter();
    entries.any(|entry| entry.stamp == stamp && entry.index == target.index)
}

// Whether a listing has it durable.
fn has_durable_entry(stamp: Stamp, target: &Target, listing: &Listing) -> bool
    ensures { result ≡ list_any (is_durable_entry stamp target.now) listing.now.entries }
{
    let mut entries = listing.entries().iter();
    entries.any(|entry| entry.durable && entry.stamp == stamp && entry.index == target.index)
}
