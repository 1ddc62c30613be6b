//! How far a sync is, and what is due.

ghost use Rattle.std.specs.Prelude.{◌≡◌, ◌++◌, ◌∷◌, List, [], IfOk, MatchOption, OnErr, drop, false};
ghost use Rattle.sw_sync.specs.Hearing.{TookFirst};
ghost use Rattle.sw_sync.specs.Standing.{BeginsWith, ends};
ghost use Rattle.sw_sync.specs.Sync.{Hears, closed_if, over};
ghost use Rattle.sw_sync.specs.declared.errand.Errand.{Errand as AnErrand};
ghost use Rattle.sw_sync.specs.declared.stage.Stage.{Stage as AStage};
ghost use Rattle.sw_sync.specs.declared.stage.Stage.TheVariants.{Ends};

use crate::errand::Errand;
use crate::stage::Stage;
use crate::sync_end::SyncEnd;
use std::alloc::Global;
use std::collections::VecDeque;
use std::marker::Model;
use sw_gather::Mailbox;
use sw_hashpath::Place;
use sw_ring::Cluster;
use sw_types::NoMemory;

/// The stage of a sync, and what is to be handed out, in this order.
#[derive(Debug, Drop)]
pub struct State {
    pub(crate) stage: Stage,
    pub(crate) due: VecDeque<Errand>,
}

impl Model for State {
    ghost use Rattle.sw_sync.specs.State.{State};
    ghost use Rattle.sw_sync.specs.StateInside.{state_seen};

    ghost Value = { State };

    ghost view = { state_seen };
}

impl State {
    /// It is over.
    pub(crate) fn over(alloc: Global, end: SyncEnd) -> State
        ensures { result ≡ over end }
    {
        State {
            stage: Stage::Ends(end),
            due: VecDeque::new(alloc),
        }
    }

    /// How it ended, if it is over.
    pub(crate) fn end(&self) -> Option<&SyncEnd>
        ensures { MatchOption result (ends self.now.stage ≡ false) (λ end. self.now.stage ≡ Ends end.now) }
    {
        match &self.stage {
            Stage::Ends(end) => Some(end),
            _ => None,
        }
    }

    /// How it ended, if it is over, handed out.
    pub(crate) fn into_end(self) -> Option<SyncEnd>
        ensures { MatchOption result (ends self.stage ≡ false) (λ end. self.stage ≡ Ends end) }
    {
        let State { stage, .. } = self;
        match stage {
            Stage::Ends(end) => Some(end),
            _ => None,
        }
    }

    /// The errand that is due first.
    pub(crate) fn first_due(&self) -> Option<Errand>
        ensures { MatchOption result (self.now.due ≡ []) (λ errand. (later : List AnErrand) × (self.now.due ≡ errand ∷ later)) }
    {
        self.due.front().copied()
    }

    /// It was handed out.
    pub(crate) fn drop_due(&mut self)
        ensures { self.new ≡ record self.old { due = drop 1 self.old.due } }
    {
        self.due.pop_front();
    }

    /// Where nothing is due, a burial or a repair is over.
    pub(crate) fn close(self, alloc: Global, k: u32) -> Result<State, NoMemory>
        ensures { IfOk result (λ state. state ≡ closed_if k self) }
    {
        if !self.due.is_empty() {
            return Ok(self);
        }
        let end = match &self.stage {
            Stage::Buries(burial) => burial.end(alloc)?,
            Stage::Repairs(repair) => repair.end(alloc, k)?,
            _ => return Ok(self),
        };
        Ok(State::over(alloc, end))
    }

    /// Takes the first answer out of the mailbox, which is that to an errand, and hears it.
    pub(crate) fn hear_first(
        &mut self,
        alloc: Global,
        cluster: &Cluster,
        place: &Place,
        errand: Errand,
        mailbox: &mut Mailbox<Errand>,
    ) -> Result<(), NoMemory>
        requires { BeginsWith mailbox.old.unread errand }
        ensures ok { IfOk result (λ _. TookFirst mailbox.old mailbox.new errand (λ answer. (stage : AStage) × (more : List AnErrand)
            × Hears cluster.now place.now self.old.stage errand answer stage more × (self.new ≡ record { stage = stage; due = self.old.due ++ more }))) }
        ensures ended { ends self.new.stage ≡ ends self.old.stage }
        ensures refused { OnErr result ((self.new ≡ self.old) × (mailbox.new ≡ mailbox.old)) }
    {
        match &mut self.stage {
            Stage::Handoffs(heard) => heard.hear_first(errand, mailbox),
            Stage::Primaries(heard) => heard.hear_first(errand, mailbox),
            Stage::Buries(burial) => burial.hear_first(errand, mailbox),
            Stage::Repairs(repair) => {
                repair.hear_first(alloc, cluster, place, errand, mailbox, &mut self.due)
            }
            Stage::Ends(_) => {
                mailbox.drop_first();
                Ok(())
            }
        }
    }
}
