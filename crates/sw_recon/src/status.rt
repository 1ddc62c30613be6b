//! How far a revert is.

ghost use Rattle.std.specs.Prelude.{◌≡◌};
ghost use Rattle.sw_recon.specs.Revert.{after};

use crate::answers::{asked, committed, fetched, removed, stored};
use crate::course::Course;
use crate::revert_end::RevertEnd;
use crate::treatment::Treatment;
use sw_message::{Reply, Spoil};

/// How far a revert is.
#[derive(Debug, Drop)]
pub(crate) enum Status {
    /// Its own device is to be asked.
    Starts,
    /// An entry is treated.
    Treats(Course),
    /// It is over.
    Ends(RevertEnd),
}

impl Status {
    /// What an answer leads to; bytes that were fetched and are not what was asked for are spoiled so.
    pub(crate) fn after(self, total: u32, answer: Option<Reply>, spoil: Option<Spoil>) -> Status
        ensures { result ≡ after total self answer spoil }
    {
        let Status::Treats(course) = self else {
            return self;
        };
        match course.treatment {
            Treatment::Ask => asked(course, total, answer),
            Treatment::Fetch => fetched(course, total, answer, spoil),
            Treatment::Store(_) => stored(course, total, answer),
            Treatment::Commit => committed(course, total, answer),
            Treatment::Remove => removed(course, total, answer),
        }
    }
}
