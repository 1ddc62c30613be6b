//! A tombstone that goes to primaries.

ghost use Rattle.std.specs.Prelude.{◌≡◌, IfOk, OnErr, OnOk};
ghost use Rattle.sw_quorum.specs.Verdicts.{delete_verdict};
ghost use Rattle.sw_sync.specs.Hearing.{TookFirst, marked};
ghost use Rattle.sw_sync.specs.Standing.{BeginsWith};
ghost use Rattle.sw_sync.specs.Sync.{buried};
ghost use Rattle.sw_sync.specs.declared.sync_end.SyncEnd.TheVariants.{Done};

use crate::counts::{counted, push_failed};
use crate::errand::Errand;
use crate::sync_end::{Failure, SyncEnd};
use std::alloc::Global;
use std::marker::Model;
use sw_gather::Mailbox;
use sw_message::Reply;
use sw_quorum::delete_verdict;
use sw_types::{Items, NoMemory, Stamp};

/// A tombstone that goes to primaries: how many marked it, and what they did not do.
#[derive(Debug, Drop)]
pub struct Burial {
    stamp: Stamp,
    tombstones: u32,
    failed: Vec<Failure>,
}

impl Model for Burial {
    ghost use Rattle.sw_sync.specs.BurialInside.{burial_seen};
    ghost use Rattle.sw_sync.specs.Parts.{Burial};

    ghost Value = { Burial };

    ghost view = { burial_seen };
}

impl Burial {
    /// No primary has answered; these failures are known.
    pub(crate) fn new(stamp: Stamp, failed: Vec<Failure>) -> Burial
        ensures { result ≡ record { stamp = stamp; tombstones = 0; failed = failed.items } }
    {
        Burial {
            stamp,
            tombstones: 0,
            failed,
        }
    }

    /// The stamp of the tombstone.
    pub(crate) fn stamp(&self) -> Stamp
        ensures { result ≡ self.now.stamp }
    {
        self.stamp
    }

    /// Takes the first answer out of the mailbox, which is that to an errand.
    pub(crate) fn hear_first(
        &mut self,
        errand: Errand,
        mailbox: &mut Mailbox<Errand>,
    ) -> Result<(), NoMemory>
        requires { BeginsWith mailbox.old.unread errand }
        ensures ok { IfOk result (λ _. TookFirst mailbox.old mailbox.new errand (λ answer. self.new ≡ marked self.old errand answer)) }
        ensures refused { OnErr result ((self.new ≡ self.old) × (mailbox.new ≡ mailbox.old)) }
    {
        let Some((_, answer)) = mailbox.first() else {
            return Ok(());
        };
        self.hear(errand, answer)?;
        mailbox.drop_first();
        Ok(())
    }

    // Takes the answer to an errand, or that there is none.
    fn hear(&mut self, errand: Errand, answer: &Option<Reply>) -> Result<(), NoMemory>
        ensures ok { OnOk result (self.new ≡ marked self.old errand answer.now) }
        ensures refused { OnErr result (self.new ≡ self.old) }
    {
        match errand {
            Errand::Delete(device) => self.hear_deleted(device, answer),
            _ => Ok(()),
        }
    }

    // Takes the answer of a primary that the tombstone was sent to.
    fn hear_deleted(&mut self, device: u16, answer: &Option<Reply>) -> Result<(), NoMemory>
        ensures ok { OnOk result (self.new ≡ buried self.old device (delete_verdict self.old.stamp answer.now)) }
        ensures refused { OnErr result (self.new ≡ self.old) }
    {
        let verdict = delete_verdict(self.stamp, answer);
        push_failed(&mut self.failed, device, &verdict)?;
        self.tombstones = counted(self.tombstones, &verdict);
        Ok(())
    }

    /// How a sync then ends.
    pub(crate) fn end(&self, alloc: Global) -> Result<SyncEnd, NoMemory>
        ensures { IfOk result (λ end. end ≡ Done 0 0 self.now.tombstones self.now.failed) }
    {
        let failed = Vec::from_slice(alloc, &self.failed)?;
        Ok(SyncEnd::Done {
            commits: 0,
            rebuilt: 0,
            tombstones: self.tombstones,
            failed: Items::from(failed),
        })
    }
}
