//! Passes.

ghost use Rattle.std.specs.Prelude.{◌≡◌, ◌⊎◌, ◌∷◌, ◌+◌, ◌-◌, ◌^◌, ◌<◌, [], List, None, IfOk, IfSome, IsSome, IsTrue, MatchOption, OnErr, OnOk, false, is_some, true};
ghost use Rattle.sw_message.specs.Learnt.{AreKnown, Learnt, Nothing};
ghost use Rattle.sw_message.specs.Message.{IsMember};
ghost use Rattle.sw_message.specs.Running.{IsOf};
ghost use Rattle.sw_message.specs.Transcript.{Gave, Hand, Step, Wait, after_answer, is_waiting};
ghost use Rattle.sw_message.specs.Warrant.{IsWarranted};
ghost use Rattle.sw_daemon.specs.Pass.{Begun, IsEnd, IsNext};
ghost use Rattle.sw_daemon.specs.Standing.{IsFresh, Stands, has_ended, is_stage_over};

use crate::course::Course;
use crate::report::PassReport;
use crate::stage::{Stage, StageEnd};
use crate::staging::stage_of;
use crate::task::Task;
use std::alloc::Global;
use std::marker::Model;
use sw_message::{Operation, Reply, Sent};
use sw_ring::Cluster;
use sw_types::NoMemory;

/// A pass of a device's reconstructor over all that the device has. It asks its own device for its partitions, and for the places of
/// each. Where it is a primary of a partition, it asks the primaries for their suffixes, and syncs each place whose suffix differs
/// somewhere; where it is none, it reverts each place. Jobs run one after the other. It treats the first 65,536 partitions that are
/// listed, and the first 16,777,216 places of each; what the ring hasn't, or lies under a wrong partition, is passed over.
#[derive(Debug, Drop)]
pub struct PassOp<'a> {
    alloc: Global,
    cluster: &'a Cluster,
    device: u16,
    course: Course,
    stage: Option<Stage<'a>>,
    before: u64,
    count: u64,
}

impl<'a> Model for PassOp<'a> {
    ghost use Rattle.std.specs.Prelude.{List};
    ghost use Rattle.sw_message.specs.Transcript.{Step};
    ghost use Rattle.sw_daemon.specs.Inside.{pass_seen};
    ghost use Rattle.sw_daemon.specs.Pass.{Begun};
    ghost use Rattle.sw_daemon.specs.Standing.{PassModel, Stands};

    ghost Value = { PassModel };

    ghost view = { pass_seen };

    // It stands for some transcript.
    ghost invariant = { λ pass. (begun : Begun) × (past : List Step) × Stands (pass_seen pass) begun past };
}

impl<'a> PassOp<'a> {
    /// A pass of a device of the cluster, which has handed out nothing.
    pub fn begin(alloc: Global, cluster: &'a Cluster, device: u16) -> PassOp<'a>
        requires { IsMember cluster.now device }
        ensures { Stands result (record { cluster = cluster.now; device = device }) [] }
    {
        prove!(cluster.part_power() <= Cluster::GREATEST_PART_POWER);
        PassOp {
            alloc,
            cluster,
            device,
            course: Course::new(alloc),
            stage: None,
            before: 0,
            count: 0,
        }
    }

    /// What it reports, once it is over, as far as `next` has seen.
    pub fn end(&self) -> Option<&PassReport>
        ensures end { (begun : Begun) (past : List Step) → Stands self.now begun past → IfSome result (λ report. IsEnd begun past report.now) }
        ensures ended { is_some result ≡ has_ended self.now }
    {
        match self.course.task {
            Task::Over => Some(&self.course.report),
            _ => None,
        }
    }

    // Begins the stage of its task, where it was not begun.
    fn begin_stage(&mut self) -> Result<(), NoMemory>
        requires { has_ended self.old ≡ false }
        ensures stands { (begun : Begun) (past : List Step) → Stands self.old begun past → Stands self.new begun past }
        ensures begun { OnOk result (is_some self.new.stage ≡ true) }
        ensures same { self.new ≡ record self.old { stage = self.new.stage } }
        ensures fresh { OnOk result (self.old.stage ≡ None → IsFresh self.new.stage) }
    {
        if self.stage.is_none() {
            let stage = stage_of(self.alloc, self.cluster, self.device, &self.course.task)?;
            self.stage = Some(stage);
        }
        Ok(())
    }

    // Hands on the next message of the stage. There is none where the stage is over or waits for an answer.
    fn hand_on(&mut self) -> Result<Option<Sent>, NoMemory>
        requires { has_ended self.old ≡ false }
        ensures hands { (begun : Begun) (past : List Step) → Stands self.old begun past → IfOk result (λ handed. MatchOption handed
            ((is_stage_over self.new ≡ true) ⊎ (IsNext begun past Wait × IsTrue (is_waiting past) × (is_stage_over self.new ≡ false)))
            (λ sent. IsNext begun past (Hand sent) × IsOf begun.cluster sent.device sent.msg)) }
        ensures goes_on { (begun : Begun) (past : List Step) → Stands self.old begun past → IfOk result (λ handed. MatchOption handed
            (Stands self.new begun past) (λ sent. Stands self.new begun (Gave sent ∷ past))) }
        ensures warranted { (begun : Begun) (past : List Step) (learnt : Learnt) → Stands self.old begun past → AreKnown begun.cluster learnt past →
            IfOk result (λ handed. IfSome handed (λ sent. IsWarranted begun.cluster learnt sent.msg)) }
        ensures first { self.old.stage ≡ None → IfOk result (λ handed. IsSome handed) }
        ensures course { self.new.course ≡ self.old.course }
        ensures count { IfOk result (λ handed. MatchOption handed (self.new.count ≡ self.old.count) (λ sent. (self.new.count ≡ self.old.count + 1) × (self.new.count < 2 ^ 64))) }
        ensures refused { OnErr result ((begun : Begun) (past : List Step) → Stands self.old begun past → Stands self.new begun past) }
        ensures refused_count { OnErr result (self.new.count ≡ self.old.count) }
    {
        let count = self.count.checked_add(1).ok_or(NoMemory)?;
        self.begin_stage()?;
        let Some(stage) = &mut self.stage else {
            unreachable!()
        };
        let Some(sent) = stage.next()? else {
            return Ok(None);
        };
        let ticket = self.count;
        self.count = count;
        Ok(Some(Sent { ticket, ..sent }))
    }

    // Whether the stage is over, as far as `next` has seen.
    fn is_stage_over(&self) -> bool
        ensures { result ≡ is_stage_over self.now }
    {
        match &self.stage {
            Some(stage) => stage.ended(),
            None => false,
        }
    }

    // The stage is over: its task is followed by another one, or the pass is over.
    fn turn(&mut self) -> Result<(), NoMemory>
        requires over { is_stage_over self.old ≡ true }
        requires going { has_ended self.old ≡ false }
        ensures stands { (begun : Begun) (past : List Step) → Stands self.old begun past → Stands self.new begun past }
        ensures fresh { OnOk result (self.new.stage ≡ None) }
        ensures refused { OnErr result (self.new ≡ self.old) }
        ensures count { self.new.count ≡ self.old.count }
    {
        let Some(stage) = &self.stage else {
            unreachable!()
        };
        match stage.end().unwrap() {
            StageEnd::Answered(answer) => {
                self.course
                    .hear(self.alloc, self.cluster, self.device, answer)?;
            }
            StageEnd::Synced(end) => self.course.count_sync(end),
            StageEnd::Reverted(end) => self.course.count_revert(end),
        }
        self.stage = None;
        self.before = self.count;
        Ok(())
    }

    // Takes the answer to a ticket, or that there is none. One that is not open is ignored. It takes no memory.
    fn answer(&mut self, ticket: u64, answer: Option<Reply>)
        ensures stands { (begun : Begun) (past : List Step) → Stands self.old begun past → Stands self.new begun (after_answer past ticket answer) }
        ensures course { self.new.course ≡ self.old.course }
        ensures count { self.new.count ≡ self.old.count }
    {
        let Some(own) = ticket.checked_sub(self.before) else {
            return;
        };
        let Some(stage) = &mut self.stage else {
            return;
        };
        match answer {
            Some(reply) => stage.take(own, reply),
            None => stage.give_up(own),
        }
    }
}

impl<'a> Operation for PassOp<'a> {
    ghost Begun = { Begun };

    ghost cluster = { λ begun. begun.cluster };

    ghost own = { λ begun. Nothing };

    ghost machine = { IsNext };

    ghost stands = { λ pass begun past. Stands pass begun past };

    ghost has_ended = { has_ended };

    ghost left = { λ pass. 2 ^ 64 - pass.count };

    fn next(&mut self) -> Result<Option<Sent>, NoMemory> {
        if self.ended() {
            return Ok(None);
        }
        let handed = self.hand_on()?;
        if handed.is_some() || !self.is_stage_over() {
            return Ok(handed);
        }
        self.turn()?;
        if self.ended() {
            return Ok(None);
        }
        self.hand_on()
    }

    fn take(&mut self, ticket: u64, reply: Reply) {
        self.answer(ticket, Some(reply));
    }

    fn give_up(&mut self, ticket: u64) {
        self.answer(ticket, None);
    }

    fn ended(&self) -> bool {
        matches!(self.course.task, Task::Over)
    }
}
