//! Deletes.

ghost use Rattle.std.specs.Prelude.{◌≡◌, ◌+◌, ◌-◌, ◌<◌, [], ◌∷◌, List, Some, None, IfOk, MatchOption, OnErr, length, slice_get, is_some};
ghost use Rattle.sw_message.specs.Transcript.{Gave, Hand, Over, Step, after_answer};
ghost use Rattle.sw_delete.specs.Delete.{Begun, delete_end, delete_next, due};
ghost use Rattle.sw_delete.specs.Standing.{Stands, most_messages};

use crate::end::DeleteEnd;
use crate::existed::says_existed;
use std::alloc::Global;
use std::marker::Model;
use sw_hashpath::Place;
use sw_message::{Msg, Reply, Sent, Tickets, primaries};
use sw_quorum::{Tally, delete_verdict};
use sw_ring::Cluster;
use sw_types::{Items, Name, NoMemory, Stamp};

/// A delete. It goes to the primaries, and for each miss to a handoff.
#[derive(Debug, Drop)]
pub struct DeleteOp {
    alloc: Global,
    enough: u32,
    place: Place,
    stamp: Stamp,
    primaries: Vec<u16>,
    handoffs: Vec<u16>,
    pub(crate) tally: Tally<u16>,
    existed: bool,
    pub(crate) tickets: Tickets,
    pub(crate) end: Option<DeleteEnd>,
}

impl Model for DeleteOp {
    ghost use Rattle.std.specs.Prelude.{◌+◌, ◌≤◌, List, length};
    ghost use Rattle.sw_message.specs.Transcript.{Step};
    ghost use Rattle.sw_delete.specs.Delete.{Begun};
    ghost use Rattle.sw_delete.specs.Inside.{delete_seen};
    ghost use Rattle.sw_delete.specs.Standing.{DeleteModel, Stands};

    ghost Value = { DeleteModel };

    ghost view = { delete_seen };

    // It stands for some transcript, and has room for all answers.
    ghost invariant = { λ op. ((begun : Begun) × (past : List Step) × Stands (delete_seen op) begun past)
        × (length op.primaries.items + length op.handoffs.items ≤ op.tally.room) };
}

impl DeleteOp {
    /// A delete of a name at a stamp, which has handed out nothing.
    pub fn begin(
        alloc: Global,
        cluster: &Cluster,
        stamp: Stamp,
        name: &Name,
    ) -> Result<DeleteOp, NoMemory>
        ensures { IfOk result (λ op. Stands op (record { cluster = cluster.now; stamp = stamp; name = name.now }) []) }
    {
        prove!(cluster.part_power() <= Cluster::GREATEST_PART_POWER);
        let place = cluster.place(alloc, name)?;
        let primaries = primaries(alloc, cluster, place.part())?;
        let handoffs = cluster.handoffs(alloc, place.part())?;
        let tally = Tally::new(alloc, primaries.len() + handoffs.len())?;
        Ok(DeleteOp {
            alloc,
            enough: cluster.policy().c(),
            place,
            stamp,
            primaries,
            handoffs,
            tally,
            existed: false,
            tickets: Tickets::new(alloc),
            end: None,
        })
    }

    /// How it ended, as far as `next` has seen.
    pub fn end(&self) -> Option<&DeleteEnd>
        ensures end { (begun : Begun) (past : List Step) → Stands self.now begun past → MatchOption result (self.now.end ≡ None) (λ end. delete_end begun past ≡ Some end.now) }
        ensures ended { is_some result ≡ is_some self.now.end }
    {
        self.end.as_ref()
    }

    /// How it ended, as far as `next` has seen, handed out.
    pub fn into_end(self) -> Option<DeleteEnd>
        ensures end { (begun : Begun) (past : List Step) → Stands self begun past → MatchOption result (self.end ≡ None) (λ end. delete_end begun past ≡ Some end) }
        ensures ended { is_some result ≡ is_some self.end }
    {
        self.end
    }

    // How many go out, as far as the misses say.
    pub(crate) fn due_count(&self) -> usize
        ensures { (begun : Begun) (past : List Step) → Stands self.now begun past → result ≡ length (due begun past) }
    {
        let missed = self.tally.missed().len();
        self.primaries.len() + missed.min(self.handoffs.len())
    }

    // The device that the message goes to that goes out as this one: a primary, or for a miss a handoff.
    pub(crate) fn due(&self, number: usize) -> Option<u16>
        ensures { (begun : Begun) (past : List Step) → Stands self.now begun past → result ≡ slice_get (due begun past) number }
    {
        if let Some(device) = self.primaries.get(number) {
            return Some(*device);
        }
        let number = number - self.primaries.len();
        if number >= self.tally.missed().len() {
            return None;
        }
        self.handoffs.get(number).copied()
    }

    // Takes the answer to a ticket, or none. One that is not open is ignored. It takes no memory.
    pub(crate) fn answer(&mut self, ticket: u64, answer: Option<Reply>)
        ensures stands { (begun : Begun) (past : List Step) → Stands self.old begun past → Stands self.new begun (after_answer past ticket answer) }
        ensures end { self.new.end ≡ self.old.end }
        ensures left { most_messages self.new - length self.new.tickets ≡ most_messages self.old - length self.old.tickets }
    {
        let Some(device) = self.due(ticket as usize) else {
            return;
        };
        if self.tickets.close(ticket) {
            self.existed = self.existed || says_existed(&answer);
            self.tally.take(device, delete_verdict(self.stamp, &answer));
        }
    }

    // Hands out the message to a device.
    pub(crate) fn hand_out(&mut self, device: u16) -> Result<Sent, NoMemory>
        requires { (begun : Begun) × (past : List Step) × Stands self.old begun past × (slice_get (due begun past) (length self.old.tickets) ≡ Some device) }
        ensures stands { (begun : Begun) (past : List Step) → Stands self.old begun past → IfOk result (λ sent. Stands self.new begun (Gave sent ∷ past)) }
        ensures hands { (begun : Begun) (past : List Step) → Stands self.old begun past → IfOk result (λ sent. delete_next begun past ≡ Hand sent) }
        ensures fewer { IfOk result (λ _. most_messages self.new - length self.new.tickets < most_messages self.old - length self.old.tickets) }
        ensures end { self.new.end ≡ self.old.end }
        ensures refused { OnErr result (self.new ≡ self.old) }
    {
        let ticket = self.tickets.hand_out()?;
        let (place, stamp) = (self.place, self.stamp);
        let msg = Msg::Delete { place, stamp };
        Ok(Sent {
            ticket,
            device,
            msg,
        })
    }

    // How it ends.
    pub(crate) fn ending(&self) -> Result<DeleteEnd, NoMemory>
        ensures { (begun : Begun) (past : List Step) → Stands self.now begun past → delete_next begun past ≡ Over → IfOk result (λ end. delete_end begun past ≡ Some end) }
    {
        let marks = self.tally.done().len() as u32;
        if marks >= self.enough {
            let (stamp, existed) = (self.stamp, self.existed);
            return Ok(DeleteEnd::Deleted {
                stamp,
                marks,
                existed,
            });
        }
        if let Some(floor) = self.tally.floor() {
            return Ok(DeleteEnd::Superseded { floor });
        }
        let misses = Vec::from_slice(self.alloc, self.tally.missed())?;
        Ok(DeleteEnd::TooFewMarks {
            have: marks,
            misses: Items::from(misses),
        })
    }
}
