//! An operation of any kind.

ghost use Rattle.sw_operation.specs.Operating.{Begun, IsNext, cluster_of, own_of};
ghost use Rattle.sw_operation.specs.Standing.{Stands, has_ended, left};

use sw_delete::DeleteOp;
use sw_get::GetOp;
use sw_message::{Operation, Reply, Sent};
use sw_put::PutOp;
use sw_recon::RevertJob;
use sw_sync::SyncJob;
use sw_types::NoMemory;

/// An operation of any kind. A head is a get of which only the object's head is told.
#[derive(Debug, Drop)]
pub enum AnyOp<'a> {
    Put(PutOp),
    Get(GetOp),
    Head(GetOp),
    Delete(DeleteOp),
    Sync(SyncJob<'a>),
    Revert(RevertJob<'a>),
}

impl<'a> Operation for AnyOp<'a> {
    ghost Begun = { Begun };

    ghost cluster = { cluster_of };

    ghost own = { own_of };

    ghost machine = { IsNext };

    ghost stands = { Stands };

    ghost has_ended = { has_ended };

    ghost left = { left };

    fn next(&mut self) -> Result<Option<Sent>, NoMemory> {
        match self {
            AnyOp::Put(op) => op.next(),
            AnyOp::Get(op) => op.next(),
            AnyOp::Head(op) => op.next(),
            AnyOp::Delete(op) => op.next(),
            AnyOp::Sync(job) => job.next(),
            AnyOp::Revert(job) => job.next(),
        }
    }

    fn take(&mut self, ticket: u64, reply: Reply) {
        match self {
            AnyOp::Put(op) => op.take(ticket, reply),
            AnyOp::Get(op) => op.take(ticket, reply),
            AnyOp::Head(op) => op.take(ticket, reply),
            AnyOp::Delete(op) => op.take(ticket, reply),
            AnyOp::Sync(job) => job.take(ticket, reply),
            AnyOp::Revert(job) => job.take(ticket, reply),
        }
    }

    fn give_up(&mut self, ticket: u64) {
        match self {
            AnyOp::Put(op) => op.give_up(ticket),
            AnyOp::Get(op) => op.give_up(ticket),
            AnyOp::Head(op) => op.give_up(ticket),
            AnyOp::Delete(op) => op.give_up(ticket),
            AnyOp::Sync(job) => job.give_up(ticket),
            AnyOp::Revert(job) => job.give_up(ticket),
        }
    }

    fn ended(&self) -> bool {
        match self {
            AnyOp::Put(op) => op.ended(),
            AnyOp::Get(op) => op.ended(),
            AnyOp::Head(op) => op.ended(),
            AnyOp::Delete(op) => op.ended(),
            AnyOp::Sync(job) => job.ended(),
            AnyOp::Revert(job) => job.ended(),
        }
    }
}
