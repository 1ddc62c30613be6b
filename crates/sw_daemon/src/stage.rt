//! The stages of a pass.

ghost use Rattle.std.specs.Prelude.{◌≡◌, List, IfSome, is_some};
ghost use Rattle.sw_message.specs.Learnt.{Nothing};
ghost use Rattle.sw_message.specs.Transcript.{Step};
ghost use Rattle.sw_daemon.specs.Ending.{end_seen};
ghost use Rattle.sw_daemon.specs.Stage.{Begun, IsEnd, IsNext, cluster_of};
ghost use Rattle.sw_daemon.specs.Staging.{Stands, has_ended, left};

use crate::question::Question;
use sw_message::{Operation, Reply, Sent};
use sw_recon::{RevertEnd, RevertJob};
use sw_sync::{SyncEnd, SyncJob};
use sw_types::NoMemory;

/// A stage of a pass: a question to one device, a sync, or a revert.
#[derive(Debug, Drop)]
pub(crate) enum Stage<'a> {
    Asks(Question),
    Syncs(SyncJob<'a>),
    Reverts(RevertJob<'a>),
}

/// How a stage ended: the answer to its question, or that there is none, or the end of its job.
pub(crate) enum StageEnd<'b> {
    Answered(&'b Option<Reply>),
    Synced(&'b SyncEnd),
    Reverted(&'b RevertEnd),
}

impl<'a> Stage<'a> {
    /// How it ended, as far as `next` has seen.
    pub(crate) fn end(&self) -> Option<StageEnd<'_>>
        ensures end { (begun : Begun) (past : List Step) → Stands self.now begun past → IfSome result (λ end. IsEnd begun past (end_seen end)) }
        ensures ended { is_some result ≡ has_ended self.now }
    {
        match self {
            Stage::Asks(question) => Some(StageEnd::Answered(question.answer()?)),
            Stage::Syncs(job) => Some(StageEnd::Synced(job.end()?)),
            Stage::Reverts(job) => Some(StageEnd::Reverted(job.end()?)),
        }
    }
}

impl<'a> Operation for Stage<'a> {
    ghost Begun = { Begun };

    ghost cluster = { cluster_of };

    ghost own = { λ begun. Nothing };

    ghost machine = { IsNext };

    ghost stands = { Stands };

    ghost has_ended = { has_ended };

    ghost left = { left };

    fn next(&mut self) -> Result<Option<Sent>, NoMemory> {
        match self {
            Stage::Asks(question) => question.next(),
            Stage::Syncs(job) => job.next(),
            Stage::Reverts(job) => job.next(),
        }
    }

    fn take(&mut self, ticket: u64, reply: Reply) {
        match self {
            Stage::Asks(question) => question.take(ticket, reply),
            Stage::Syncs(job) => job.take(ticket, reply),
            Stage::Reverts(job) => job.take(ticket, reply),
        }
    }

    fn give_up(&mut self, ticket: u64) {
        match self {
            Stage::Asks(question) => question.give_up(ticket),
            Stage::Syncs(job) => job.give_up(ticket),
            Stage::Reverts(job) => job.give_up(ticket),
        }
    }

    fn ended(&self) -> bool {
        match self {
            Stage::Asks(question) => question.ended(),
            Stage::Syncs(job) => job.ended(),
            Stage::Reverts(job) => job.ended(),
        }
    }
}
