//! The entries of a revert, one after the other.

ghost use Rattle.std.specs.Prelude.{◌≡◌, ◌+◌, ◌≤◌, length, vec_capacity};
ghost use Rattle.sw_recon.specs.Course.{most_entries};
ghost use Rattle.sw_recon.specs.Revert.{goes_on, kept_as, keeps, removes, sent_for, treat};
ghost use Rattle.sw_recon.specs.Standing.{handed_treatment};

use crate::kept::{KeptCause, KeptEntry};
use crate::revert_end::RevertEnd;
use crate::status::Status;
use crate::treatment::Treatment;
use std::alloc::Global;
use std::collections::VecDeque;
use std::marker::Model;
use sw_hashdir::Entry;
use sw_hashpath::Place;
use sw_message::{Miss, Msg};
use sw_types::Items;

/// The entry that is treated and those behind it, what is done next about it, how many were removed, and those that are kept. There
/// is room to keep each that is left.
#[derive(Debug, Drop)]
pub(crate) struct Course {
    pub(crate) entry: Entry,
    later: VecDeque<Entry>,
    pub(crate) treatment: Treatment,
    removed: u32,
    kept: Vec<KeptEntry>,
}

impl Model for Course {
    ghost use Rattle.std.specs.Prelude.{◌+◌, ◌≤◌, ◌<◌, length, vec_capacity};
    ghost use Rattle.sw_recon.specs.Course.{Course, most_entries};
    ghost use Rattle.sw_recon.specs.CourseInside.{course_seen};

    ghost Value = { Course };

    ghost view = { course_seen };

    ghost invariant = { λ course. (length course.kept.items + length course.later.items < vec_capacity course.kept)
        × (course.removed + length course.kept.items + length course.later.items < most_entries) };
}

impl Course {
    /// The entry is kept, and the next one is treated.
    pub(crate) fn keep(self, total: u32, cause: KeptCause) -> Status
        ensures { result ≡ keeps total self cause }
    {
        let Course {
            entry,
            later,
            removed,
            mut kept,
            ..
        } = self;
        kept.push_reserved(kept_as(&entry, cause));
        treat(total, later, removed, kept)
    }

    /// The entry was removed, and the next one is treated.
    pub(crate) fn remove(self, total: u32) -> Status
        ensures { result ≡ removes total self }
    {
        let Course {
            later,
            removed,
            kept,
            ..
        } = self;
        treat(total, later, removed + 1, kept)
    }

    /// The message of its treatment, and the device that it goes to: its own or the primary of the index. Bytes go out with it.
    pub(crate) fn message(
        &mut self,
        alloc: Global,
        place: Place,
        own: u16,
        primary: u16,
    ) -> (u16, Msg)
        ensures message { result ≡ sent_for place own primary self.old.entry self.old.treatment }
        ensures handed { self.new ≡ record self.old { treatment = handed_treatment self.old.treatment } }
    {
        let device = if self.treatment.is_own() {
            own
        } else {
            primary
        };
        let msg = self.treatment.message(alloc, place, self.entry);
        (device, msg)
    }

    /// It is treated on.
    pub(crate) fn go_on(self, treatment: Treatment) -> Status
        ensures { result ≡ goes_on self treatment }
    {
        let mut course = self;
        course.treatment = treatment;
        Status::Treats(course)
    }
}

/// The entries that are left. One of an index that the policy hasn't is kept without a message.
pub(crate) fn treat(
    total: u32,
    later: VecDeque<Entry>,
    removed: u32,
    kept: Vec<KeptEntry>,
) -> Status
    requires room { length kept.items + length later.items ≤ vec_capacity kept }
    requires few { removed + length kept.items + length later.items ≤ most_entries }
    ensures { result ≡ treat total later.items removed kept.items }
{
    let (mut later, mut kept) = (later, kept);
    while let Some(entry) = later.pop_front() {
        if entry.index < total {
            return Status::Treats(Course {
                entry,
                later,
                treatment: Treatment::Ask,
                removed,
                kept,
            });
        }
        kept.push_reserved(kept_as(&entry, KeptCause::Missed(Miss::Odd)));
    }
    Status::Ends(RevertEnd::Done {
        removed,
        kept: Items::from(kept),
    })
}

// The entry, kept for a cause.
fn kept_as(entry: &Entry, cause: KeptCause) -> KeptEntry
    ensures { result ≡ kept_as entry.now cause }
{
    KeptEntry {
        stamp: entry.stamp,
        index: entry.index,
        cause,
    }
}
