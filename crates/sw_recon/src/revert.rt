//! Reverts: jobs of handoffs.

ghost use Rattle.std.specs.Prelude.{◌≡◌, ◌∷◌, ◌+◌, ◌<◌, ◌^◌, [], if◌then◌else◌, false, List, None, Some, IfOk, IfSome, MatchOption, OnErr, OnOk, is_some, length, true};
ghost use Rattle.sw_hashpath.specs.Place.{IsPlace};
ghost use Rattle.sw_message.specs.Message.{IsMember, is_primary};
ghost use Rattle.sw_message.specs.Transcript.{Gave, Over, Step, after_answer};
ghost use Rattle.sw_recon.specs.Revert.{Begun, IsChecked, IsEnd, IsNext, Leads, started_by};
ghost use Rattle.sw_recon.specs.Standing.{MayHand, Stands, ends, has_ended};

use crate::answers::started;
use crate::course::Course;
use crate::revert_end::RevertEnd;
use crate::status::Status;
use crate::treatment::Treatment;
use std::alloc::Global;
use std::marker::Model;
use std::mem::replace;
use sw_hashdir::Entry;
use sw_hashpath::Place;
use sw_message::{Msg, Reply, Sent, Spoil, Tickets, check_asked, total_of};
use sw_ring::Cluster;
use sw_types::NoMemory;

/// A revert. Each entry of its device, a handoff of the place, goes to the primary of its index, and is then removed, or is kept, one
/// after the other: at most 65,536 in one job.
#[derive(Debug, Drop)]
pub struct RevertJob<'a> {
    alloc: Global,
    cluster: &'a Cluster,
    device: u16,
    place: Place,
    pub(crate) status: Status,
    tickets: Tickets,
    pub(crate) is_waiting: bool,
    unread: Option<Option<Reply>>,
}

impl<'a> Model for RevertJob<'a> {
    ghost use Rattle.std.specs.Prelude.{List};
    ghost use Rattle.sw_message.specs.Transcript.{Step};
    ghost use Rattle.sw_recon.specs.Inside.{revert_seen};
    ghost use Rattle.sw_recon.specs.Revert.{Begun};
    ghost use Rattle.sw_recon.specs.Standing.{RevertModel, Stands};

    ghost Value = { RevertModel };

    ghost view = { revert_seen };

    // It stands for some transcript.
    ghost invariant = { λ job. (begun : Begun) × (past : List Step) × Stands (revert_seen job) begun past };
}

impl<'a> RevertJob<'a> {
    /// A revert of a place by one of its handoffs, which has handed out nothing.
    pub fn begin(alloc: Global, cluster: &'a Cluster, device: u16, place: Place) -> RevertJob<'a>
        requires right { IsPlace cluster.now.part_power place }
        requires member { IsMember cluster.now device }
        requires handoff { is_primary cluster.now device place ≡ false }
        ensures { Stands result (record { cluster = cluster.now; device = device; place = place }) [] }
    {
        prove!(cluster.part_power() <= Cluster::GREATEST_PART_POWER);
        RevertJob {
            alloc,
            cluster,
            device,
            place,
            status: Status::Starts,
            tickets: Tickets::new(alloc),
            is_waiting: false,
            unread: None,
        }
    }

    /// How it ended, as far as `next` has seen.
    pub fn end(&self) -> Option<&RevertEnd>
        ensures end { (begun : Begun) (past : List Step) → Stands self.now begun past → IfSome result (λ end. IsEnd begun past end.now) }
        ensures ended { is_some result ≡ has_ended self.now }
    {
        match &self.status {
            Status::Ends(end) => Some(end),
            _ => None,
        }
    }

    /// How it ended, as far as `next` has seen, handed out.
    pub fn into_end(self) -> Option<RevertEnd>
        ensures end { (begun : Begun) (past : List Step) → Stands self.entry begun past → IfSome result (λ end. IsEnd begun past end) }
        ensures ended { is_some result ≡ has_ended self.entry }
    {
        let RevertJob { status, .. } = self;
        match status {
            Status::Ends(end) => Some(end),
            _ => None,
        }
    }

    // Takes the answer to a ticket, or that there is none. One that is not open is ignored. It takes no memory.
    pub(crate) fn answer(&mut self, ticket: u64, answer: Option<Reply>)
        ensures stands { (begun : Begun) (past : List Step) → Stands self.old begun past → Stands self.new begun (after_answer past ticket answer) }
        ensures status { self.new.status ≡ self.old.status }
        ensures count { length self.new.tickets ≡ length self.old.tickets }
    {
        let is_open = self.tickets.close(ticket);
        self.is_waiting = self.is_waiting && !is_open;
        take_in(is_open, &mut self.unread, answer);
    }

    // Reads the answer that was taken, if there is one. Memory is wanted for the first answer alone, which is kept then.
    pub(crate) fn read(&mut self) -> Result<(), NoMemory>
        ensures stands { (begun : Begun) (past : List Step) → Stands self.old begun past → Stands self.new begun past }
        ensures read { OnOk result (self.new.unread ≡ None) }
        ensures ended { has_ended self.old ≡ true → self.new ≡ self.old }
        ensures waiting { self.new.is_waiting ≡ self.old.is_waiting }
        ensures count { length self.new.tickets ≡ length self.old.tickets }
        ensures refused { OnErr result (self.new ≡ self.old) }
        ensures memory { OnErr result (self.old.status ≡ Status.Starts) }
    {
        read_answer(
            self.alloc,
            self.cluster,
            self.device,
            &self.place,
            &mut self.status,
            &mut self.unread,
        )
    }

    // Hands out the message that comes next, unless it is over.
    pub(crate) fn hand_out(&mut self) -> Result<Option<Sent>, NoMemory>
        requires { (self.old.is_waiting ≡ false) × (self.old.unread ≡ None) }
        ensures hands { (begun : Begun) (past : List Step) → Stands self.old begun past → IfOk result (λ handed. MatchOption handed
            (IsNext begun past Over × (has_ended self.new ≡ true)) (λ sent. MayHand begun past sent × (has_ended self.new ≡ false))) }
        ensures goes_on { (begun : Begun) (past : List Step) → Stands self.old begun past → IfOk result (λ handed. MatchOption handed
            (Stands self.new begun past) (λ sent. Stands self.new begun (Gave sent ∷ past))) }
        ensures count { IfOk result (λ handed. MatchOption handed
            (length self.new.tickets ≡ length self.old.tickets) (λ _. (length self.new.tickets ≡ length self.old.tickets + 1) × (length self.old.tickets < 2 ^ 64))) }
        ensures going { OnErr result (has_ended self.old ≡ false) }
        ensures refused { OnErr result (self.new ≡ self.old) }
    {
        if let Status::Ends(_) = &self.status {
            return Ok(None);
        }
        let ticket = self.tickets.hand_out()?;
        self.is_waiting = true;
        let place = self.place;
        let (device, msg) = match &mut self.status {
            Status::Treats(course) => {
                let index = course.entry.index;
                let primary = self.cluster.primary(place.part(), index);
                course.message(self.alloc, place, self.device, primary)
            }
            _ => (self.device, Msg::Ask { place }),
        };
        Ok(Some(Sent {
            ticket,
            device,
            msg,
        }))
    }
}

// An answer is taken where its ticket was open.
fn take_in(is_open: bool, unread: &mut Option<Option<Reply>>, answer: Option<Reply>)
    ensures { unread.new ≡ if is_open then Some answer else unread.old }
{
    if is_open {
        *unread = Some(answer);
    }
}

// Reads the answer that was taken, if there is one. Memory is wanted for the first answer alone.
fn read_answer(
    alloc: Global,
    cluster: &Cluster,
    device: u16,
    place: &Place,
    status: &mut Status,
    unread: &mut Option<Option<Reply>>,
) -> Result<(), NoMemory>
    ensures read { OnOk result (unread.new ≡ None) }
    ensures leads { OnOk result (MatchOption unread.old (status.new ≡ status.old)
        (λ answer. ends status.old ≡ false → Leads (record { cluster = cluster.now; device = device; place = place.now }) status.old answer status.new)) }
    ensures refused { OnErr result ((status.new ≡ status.old) × (unread.new ≡ unread.old)) }
    ensures memory { OnErr result (status.old ≡ Status.Starts) }
{
    let Some(answer) = &*unread else {
        return Ok(());
    };
    let total = total_of(cluster.policy());
    let spoil = match &*status {
        Status::Starts => {
            *status = first_status(alloc, total, device, answer)?;
            *unread = None;
            return Ok(());
        }
        Status::Treats(course) => spoil_of(cluster, place, course, answer),
        Status::Ends(_) => None,
    };
    if let Some(answer) = replace(unread, None) {
        *status = replace(status, Status::Starts).after(total, answer, spoil);
    }
    Ok(())
}

// How far a revert is once its own device has answered.
fn first_status(
    alloc: Global,
    total: u32,
    device: u16,
    answer: &Option<Reply>,
) -> Result<Status, NoMemory>
    ensures { IfOk result (λ status. status ≡ started_by total device answer.now) }
{
    match answer {
        Some(Reply::Held(listing)) => started(alloc, total, listing),
        _ => Ok(Status::Ends(RevertEnd::Unanswered { device })),
    }
}

// Why bytes that were fetched are not the archive of the place and the entry, where they are not.
fn spoil_of(
    cluster: &Cluster,
    place: &Place,
    course: &Course,
    answer: &Option<Reply>,
) -> Option<Spoil>
    ensures { IsChecked cluster.now place.now course.now answer.now result }
{
    let (Treatment::Fetch, Some(Reply::Fragment(bytes))) = (&course.treatment, answer) else {
        return None;
    };
    let Entry { stamp, index, .. } = course.entry;
    match check_asked(cluster, place, stamp, index, bytes) {
        Ok(_) => None,
        Err(spoil) => Some(spoil),
    }
}
