//! Puts.

ghost use Rattle.std.specs.Prelude.{◌≡◌, ◌+◌, ◌-◌, ◌<◌, ℕ, [], ◌∷◌, List, Some, None, IfOk, MatchOption, OnErr, is_some, length, nat_lt, slice_get};
ghost use Rattle.sw_archive.specs.Put.{put_archive};
ghost use Rattle.sw_message.specs.Transcript.{Gave, Hand, Over, Step, after_answer};
ghost use Rattle.sw_quorum.specs.Transcripts.{closed_count};
ghost use Rattle.sw_message.specs.declared.message.Msg.TheVariants.{PutFrag};
ghost use Rattle.sw_put.specs.Plans.{device_in};
ghost use Rattle.sw_put.specs.Put.{Begun, committed_end, commits, due, put_end, put_message, put_next, stores_due};
ghost use Rattle.sw_put.specs.Standing.{Stands, most_messages};

use crate::end::PutEnd;
use crate::errand::Errand;
use crate::planning::{plan_commits, replacement, told_misses};
use crate::subject::Subject;
use std::alloc::Global;
use std::marker::Model;
use sw_hashpath::Place;
use sw_message::{Msg, Reply, Sent, Target, Tickets, primaries};
use sw_quorum::{Tally, commit_verdict, store_verdict};
use sw_ring::Cluster;
use sw_types::{Name, NoMemory, Object, Stamp};

/// A put. Its archives go to the primaries, and for each miss to a handoff; where enough were stored, they are made durable.
#[derive(Debug, Drop)]
pub struct PutOp {
    alloc: Global,
    enough_stored: u32,
    enough_committed: u32,
    place: Place,
    subject: Subject,
    primaries: Vec<u16>,
    handoffs: Vec<u16>,
    stores: Tally<Target>,
    commits: Tally<Target>,
    commits_due: Vec<Target>,
    pub(crate) tickets: Tickets,
    pub(crate) end: Option<PutEnd>,
}

impl Model for PutOp {
    ghost use Rattle.std.specs.Prelude.{◌+◌, ◌≤◌, List, length, vec_capacity};
    ghost use Rattle.sw_message.specs.Transcript.{Step};
    ghost use Rattle.sw_put.specs.Inside.{put_seen};
    ghost use Rattle.sw_put.specs.Put.{Begun};
    ghost use Rattle.sw_put.specs.Standing.{PutModel, Stands};

    ghost Value = { PutModel };

    ghost view = { put_seen };

    // It stands for some transcript, and has room for all answers.
    ghost invariant = { λ op. ((begun : Begun) × (past : List Step) × Stands (put_seen op) begun past)
        × (length op.primaries.items + length op.handoffs.items ≤ op.stores.room)
        × (length op.primaries.items + length op.handoffs.items ≤ op.commits.room)
        × (length op.primaries.items + length op.handoffs.items ≤ vec_capacity op.commits_due) };
}

impl PutOp {
    /// A put of an object under a name at a stamp, which has handed out nothing. It keeps a copy of the object.
    pub fn begin(
        alloc: Global,
        cluster: &Cluster,
        stamp: Stamp,
        name: &Name,
        object: &Object,
    ) -> Result<PutOp, NoMemory>
        ensures { IfOk result (λ op. Stands op (record { cluster = cluster.now; stamp = stamp; name = name.now; object = object.now }) []) }
    {
        prove!(cluster.part_power() <= Cluster::GREATEST_PART_POWER);
        let place = cluster.place(alloc, name)?;
        let primaries = primaries(alloc, cluster, place.part())?;
        let handoffs = cluster.handoffs(alloc, place.part())?;
        let room = primaries.len() + handoffs.len();
        let subject = Subject::of(alloc, cluster.policy(), stamp, name, object)?;
        let stores = Tally::new(alloc, room)?;
        let commits = Tally::new(alloc, room)?;
        let commits_due = Vec::with_capacity(alloc, room)?;
        Ok(PutOp {
            alloc,
            enough_stored: cluster.policy().q(),
            enough_committed: cluster.policy().c(),
            place,
            subject,
            primaries,
            handoffs,
            stores,
            commits,
            commits_due,
            tickets: Tickets::new(alloc),
            end: None,
        })
    }

    /// How it ended, as far as `next` has seen.
    pub fn end(&self) -> Option<&PutEnd>
        ensures end { (begun : Begun) (past : List Step) → Stands self.now begun past → MatchOption result (self.now.end ≡ None) (λ end. put_end begun past ≡ Some end.now) }
        ensures ended { is_some result ≡ is_some self.now.end }
    {
        self.end.as_ref()
    }

    /// How it ended, as far as `next` has seen, handed out.
    pub fn into_end(self) -> Option<PutEnd>
        ensures end { (begun : Begun) (past : List Step) → Stands self begun past → MatchOption result (self.end ≡ None) (λ end. put_end begun past ≡ Some end) }
        ensures ended { is_some result ≡ is_some self.end }
    {
        self.end
    }

    // How many fragments go out, as far as the misses say.
    fn store_count(&self) -> usize
        ensures { (begun : Begun) (past : List Step) → Stands self.now begun past → result ≡ length (stores_due begun past) }
    {
        let missed = self.stores.missed().len();
        self.primaries.len() + missed.min(self.handoffs.len())
    }

    // Where the fragment goes that goes out as this one: to a primary, or for a miss to a handoff.
    fn store_due(&self, number: usize) -> Option<Target>
        ensures { (begun : Begun) (past : List Step) → Stands self.now begun past → result ≡ slice_get (stores_due begun past) number }
    {
        if let Some(device) = self.primaries.get(number).copied() {
            let index = number as u32;
            return Some(Target { index, device });
        }
        let number = number - self.primaries.len();
        let missed = self.stores.missed().get(number).copied();
        let handoff = self.handoffs.get(number).copied();
        replacement(missed, handoff)
    }

    // What goes out as this one: the fragments, and then the commits.
    pub(crate) fn due(&self, number: usize) -> Option<Errand>
        ensures { (begun : Begun) (past : List Step) → Stands self.now begun past → result ≡ slice_get (due begun past) number }
    {
        let commits_due = self.commits_due.as_slice();
        if let Some(target) = self.store_due(number) {
            return Some(Errand::StoreAt(target));
        }
        let number = number - self.store_count();
        let target = commits_due.get(number).copied()?;
        Some(Errand::CommitAt(target))
    }

    // Whether some answer is missing to what has to be handed out.
    pub(crate) fn lacks_answers(&self) -> bool
        ensures { (begun : Begun) (past : List Step) → Stands self.now begun past → result ≡ nat_lt (closed_count past) (length (due begun past)) }
    {
        self.stores.answered() < self.store_count()
            || self.commits.answered() < self.commits_due.len()
    }

    // Takes the answer to a ticket, or none. One that is not open is ignored. It takes no memory.
    pub(crate) fn answer(&mut self, ticket: u64, answer: Option<Reply>)
        ensures stands { (begun : Begun) (past : List Step) → Stands self.old begun past → Stands self.new begun (after_answer past ticket answer) }
        ensures end { self.new.end ≡ self.old.end }
        ensures left { most_messages self.new - length self.new.tickets ≡ most_messages self.old - length self.old.tickets }
    {
        let Some(errand) = self.due(ticket as usize) else {
            return;
        };
        if !self.tickets.close(ticket) {
            return;
        }
        match errand {
            Errand::StoreAt(target) => {
                self.stores
                    .take(target, store_verdict(self.subject.stamp, &answer));
                let missed = self.stores.missed().len();
                let count = self.primaries.len() + missed.min(self.handoffs.len());
                plan_commits(
                    &self.stores,
                    count,
                    self.enough_stored,
                    &mut self.commits_due,
                );
            }
            Errand::CommitAt(target) => {
                self.commits
                    .take(target, commit_verdict(self.subject.stamp, &answer));
            }
        }
    }

    // The fragment of an index.
    fn fragment(&self, index: u32) -> Result<Msg, NoMemory>
        requires { index < self.now.policy.k + self.now.policy.m }
        ensures { IfOk result (λ msg. msg ≡ PutFrag self.now.place self.now.stamp index (put_archive self.now.policy self.now.stamp self.now.name self.now.object index)) }
    {
        let (place, stamp) = (self.place, self.subject.stamp);
        let bytes = self.subject.archive(self.alloc, index)?;
        Ok(Msg::PutFrag {
            place,
            stamp,
            index,
            bytes,
        })
    }

    // The message of what has to be handed out.
    fn message(&self, errand: Errand) -> Result<Msg, NoMemory>
        requires { (begun : Begun) × (past : List Step) × (number : ℕ) × Stands self.now begun past × (slice_get (due begun past) number ≡ Some errand) }
        ensures { (begun : Begun) (past : List Step) (number : ℕ) → Stands self.now begun past → slice_get (due begun past) number ≡ Some errand →
            IfOk result (λ msg. (ticket : ℕ) → put_message begun ticket errand ≡ record { ticket = ticket; device = device_in errand; msg = msg }) }
    {
        match errand {
            Errand::StoreAt(target) => self.fragment(target.index),
            Errand::CommitAt(target) => {
                let (place, stamp, index) = (self.place, self.subject.stamp, target.index);
                Ok(Msg::Commit {
                    place,
                    stamp,
                    index,
                })
            }
        }
    }

    // Hands out a message.
    pub(crate) fn hand_out(&mut self, errand: Errand) -> Result<Sent, NoMemory>
        requires { (begun : Begun) × (past : List Step) × Stands self.old begun past × (slice_get (due begun past) (length self.old.tickets) ≡ Some errand) }
        ensures stands { (begun : Begun) (past : List Step) → Stands self.old begun past → IfOk result (λ sent. Stands self.new begun (Gave sent ∷ past)) }
        ensures hands { (begun : Begun) (past : List Step) → Stands self.old begun past → IfOk result (λ sent. put_next begun past ≡ Hand sent) }
        ensures fewer { IfOk result (λ _. most_messages self.new - length self.new.tickets < most_messages self.old - length self.old.tickets) }
        ensures end { self.new.end ≡ self.old.end }
        ensures refused { OnErr result (self.new ≡ self.old) }
    {
        let device = errand.device();
        let msg = self.message(errand)?;
        let ticket = self.tickets.hand_out()?;
        Ok(Sent {
            ticket,
            device,
            msg,
        })
    }

    // How it ends.
    pub(crate) fn ending(&self) -> Result<PutEnd, NoMemory>
        ensures { (begun : Begun) (past : List Step) → Stands self.now begun past → put_next begun past ≡ Over → IfOk result (λ end. put_end begun past ≡ Some end) }
    {
        if let Some(floor) = self.stores.floor() {
            return Ok(PutEnd::Superseded { floor });
        }
        let have = self.stores.done().len() as u32;
        if have < self.enough_stored {
            let misses = told_misses(self.alloc, self.stores.missed())?;
            return Ok(PutEnd::TooFewSynced { have, misses });
        }
        self.committed_ending()
    }

    // How it ends, once enough are stored.
    fn committed_ending(&self) -> Result<PutEnd, NoMemory>
        ensures { (begun : Begun) (past : List Step) → Stands self.now begun past → IfOk result (λ end. committed_end begun (commits past) ≡ end) }
    {
        let commits = self.commits.done().len() as u32;
        if commits >= self.enough_committed {
            let stamp = self.subject.stamp;
            return Ok(PutEnd::Created { stamp, commits });
        }
        if let Some(floor) = self.commits.floor() {
            return Ok(PutEnd::Superseded { floor });
        }
        let have = commits;
        let misses = told_misses(self.alloc, self.commits.missed())?;
        Ok(PutEnd::TooFewCommits { have, misses })
    }
}
