//! Tallies of answers.

ghost use Rattle.std.specs.Prelude.{◌≡◌, ◌+◌, ◌<◌, ◌≤◌, ◌++◌, ◌∷◌, [], List, IfOk};
ghost use Rattle.sw_quorum.specs.Answers.{Judged};
ghost use Rattle.sw_quorum.specs.Tally.{counts_of};

use crate::verdict::Verdict;
use std::alloc::Global;
use std::marker::Model;
use sw_hashdir::Floor;
use sw_message::{Miss, higher};
use sw_types::NoMemory;

/// What was done by some writes, the greatest floor that forbids it, and what was missed and why.
#[derive(Debug, Drop)]
pub struct Tally<T> {
    done: Vec<T>,
    floor: Option<Floor>,
    missed: Vec<(T, Miss)>,
    answered: usize,
}

impl<T> Model for Tally<T> {
    ghost use Rattle.std.specs.Prelude.{◌≤◌, length, min, vec_capacity};
    ghost use Rattle.sw_quorum.specs.Tally.{TallyModel};

    ghost Value = { TallyModel T };

    ghost view = { λ tally. record {
      counts = record { done = tally.done.items; floor = tally.floor; missed = tally.missed.items; answered = tally.answered };
      room = min (vec_capacity tally.done) (vec_capacity tally.missed);
    } };

    ghost invariant = { λ tally. (length tally.done.items ≤ tally.answered) × (length tally.missed.items ≤ tally.answered) };
}

impl<T: Copy> Tally<T> {
    /// That of no answers, with room for so many.
    pub fn new(alloc: Global, room: usize) -> Result<Tally<T>, NoMemory>
        ensures empty { IfOk result (λ tally. tally.counts ≡ counts_of []) }
        ensures room { IfOk result (λ tally. room ≤ tally.room) }
    {
        Ok(Tally {
            done: Vec::with_capacity(alloc, room)?,
            floor: None,
            missed: Vec::with_capacity(alloc, room)?,
            answered: 0,
        })
    }

    /// Takes one answer more. It takes no memory.
    pub fn take(&mut self, about: T, verdict: Verdict)
        requires { self.old.counts.answered < self.old.room }
        ensures taken { (answers : List (Judged T)) → self.old.counts ≡ counts_of answers → self.new.counts ≡ counts_of (answers ++ record { about = about; verdict = verdict } ∷ []) }
        ensures answered { self.new.counts.answered ≡ self.old.counts.answered + 1 }
        ensures room { self.new.room ≡ self.old.room }
    {
        self.answered += 1;
        match verdict {
            Verdict::Done => self.done.push_reserved(about),
            Verdict::Forbidden(floor) => self.floor = Some(higher(self.floor, floor)),
            Verdict::Missed(miss) => self.missed.push_reserved((about, miss)),
        }
    }

    /// What was done.
    pub fn done(&self) -> &[T]
        ensures { result.now ≡ self.now.counts.done }
    {
        self.done.as_slice()
    }

    /// The greatest floor that forbids it.
    pub fn floor(&self) -> Option<Floor>
        ensures { result ≡ self.now.counts.floor }
    {
        self.floor
    }

    /// What was missed, and why.
    pub fn missed(&self) -> &[(T, Miss)]
        ensures { result.now ≡ self.now.counts.missed }
    {
        self.missed.as_slice()
    }

    /// How many answers there were.
    pub fn answered(&self) -> usize
        ensures { result ≡ self.now.counts.answered }
    {
        self.answered
    }
}
