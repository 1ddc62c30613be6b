//! Entries that are made durable, and rebuilt.

ghost use Rattle.std.specs.Prelude.{◌≡◌, ◌<◌, ◌+◌, ◌++◌, List, IfOk, OnErr, OnOk};
ghost use Rattle.std.specs.List.{All};
ghost use Rattle.sw_archive.specs.Assemble.{AreEnough};
ghost use Rattle.sw_quorum.specs.Verdicts.{commit_verdict, store_verdict};
ghost use Rattle.sw_sync.specs.Hearing.{TookFirst};
ghost use Rattle.sw_sync.specs.Standing.{BeginsWith};
ghost use Rattle.sw_sync.specs.Sync.{HearsRepair, IsRebuilt, committed, due_after, repair_end, stored};
ghost use Rattle.sw_sync.specs.declared.errand.Errand.{Errand as AnErrand};

use crate::counts::{counted, push_failed};
use crate::errand::Errand;
use crate::sync_end::{Failure, SyncEnd};
use std::alloc::Global;
use std::collections::VecDeque;
use std::marker::Model;
use sw_archive::ArchiveBytes;
use sw_gather::{Gathered, Mailbox, has_index};
use sw_hashpath::Place;
use sw_message::{Miss, Reply, Target};
use sw_quorum::{Verdict, commit_verdict, store_verdict};
use sw_ring::Cluster;
use sw_types::{Items, NoMemory, Stamp};

/// The entries of a stamp, which are made durable at primaries that list them, and rebuilt at those that lack theirs.
#[derive(Debug, Drop)]
pub struct Repair {
    pub(crate) stamp: Stamp,
    pub(crate) lacking: Vec<Target>,
    pub(crate) choices: Vec<Target>,
    pub(crate) listed: u32,
    pub(crate) tried: Vec<Target>,
    pub(crate) lost: Vec<Target>,
    pub(crate) gathered: Gathered,
    // How many archives were brought.
    pub(crate) brought: u32,
    pub(crate) misses: Vec<(u16, Miss)>,
    pub(crate) commits: u32,
    pub(crate) rebuilt: u32,
    pub(crate) failed: Vec<Failure>,
}

impl Model for Repair {
    ghost use Rattle.std.specs.Prelude.{◌≡◌, length};
    ghost use Rattle.sw_sync.specs.Parts.{Repair};
    ghost use Rattle.sw_sync.specs.RepairInside.{repair_seen};

    ghost Value = { Repair };

    ghost view = { repair_seen };

    ghost invariant = { λ repair. repair.brought ≡ length repair.gathered.archives };
}

impl Repair {
    /// The stamp of the entries.
    pub(crate) fn stamp(&self) -> Stamp
        ensures { result ≡ self.now.stamp }
    {
        self.stamp
    }

    /// Takes the first answer out of the mailbox, which is that to an errand, and adds what is due next.
    pub(crate) fn hear_first(
        &mut self,
        alloc: Global,
        cluster: &Cluster,
        place: &Place,
        errand: Errand,
        mailbox: &mut Mailbox<Errand>,
        due: &mut VecDeque<Errand>,
    ) -> Result<(), NoMemory>
        requires { BeginsWith mailbox.old.unread errand }
        ensures ok { IfOk result (λ _. TookFirst mailbox.old mailbox.new errand (λ answer. (more : List AnErrand)
            × HearsRepair cluster.now place.now self.old errand answer self.new more × (due.new.items ≡ due.old.items ++ more))) }
        ensures refused { OnErr result ((self.new ≡ self.old) × (due.new.items ≡ due.old.items) × (mailbox.new ≡ mailbox.old)) }
    {
        let Some((_, answer)) = mailbox.first() else {
            return Ok(());
        };
        self.hear(alloc, cluster, place, errand, answer, due)?;
        mailbox.drop_first();
        Ok(())
    }

    // Takes the answer to an errand, or that there is none, and adds what is due next.
    fn hear(
        &mut self,
        alloc: Global,
        cluster: &Cluster,
        place: &Place,
        errand: Errand,
        answer: &Option<Reply>,
        due: &mut VecDeque<Errand>,
    ) -> Result<(), NoMemory>
        ensures ok { IfOk result (λ _. (more : List AnErrand) × HearsRepair cluster.now place.now self.old errand answer.now self.new more × (due.new.items ≡ due.old.items ++ more)) }
        ensures refused { OnErr result ((self.new ≡ self.old) × (due.new.items ≡ due.old.items)) }
    {
        match errand {
            Errand::Commit(target) => self.hear_commit(target, answer),
            Errand::Store(target) => self.hear_store(target, answer, due),
            Errand::Fetch(source) => self.hear_fetch(alloc, cluster, place, source, answer, due),
            _ => Ok(()),
        }
    }

    // Takes the answer of a primary that was to make an entry durable.
    fn hear_commit(&mut self, target: Target, answer: &Option<Reply>) -> Result<(), NoMemory>
        ensures ok { OnOk result (self.new ≡ committed self.old target (commit_verdict self.old.stamp answer.now)) }
        ensures refused { OnErr result (self.new ≡ self.old) }
    {
        let verdict = commit_verdict(self.stamp, answer);
        push_failed(&mut self.failed, target.device, &verdict)?;
        if has_index(&self.lacking, target.index) {
            self.rebuilt = counted(self.rebuilt, &verdict);
        } else {
            self.commits = counted(self.commits, &verdict);
        }
        Ok(())
    }

    // Takes the answer of a primary that a rebuilt archive was sent to.
    fn hear_store(
        &mut self,
        target: Target,
        answer: &Option<Reply>,
        due: &mut VecDeque<Errand>,
    ) -> Result<(), NoMemory>
        ensures ok { OnOk result ((self.new ≡ stored self.old target (store_verdict self.old.stamp answer.now))
            × (due.new.items ≡ due.old.items ++ due_after target (store_verdict self.old.stamp answer.now))) }
        ensures refused { OnErr result ((self.new ≡ self.old) × (due.new.items ≡ due.old.items)) }
    {
        let verdict = store_verdict(self.stamp, answer);
        due.reserve(1)?;
        push_failed(&mut self.failed, target.device, &verdict)?;
        if let Verdict::Done = verdict {
            due.push_back_reserved(Errand::Commit(target));
        }
        Ok(())
    }

    /// The archive of an index, rebuilt from those that were brought.
    pub(crate) fn rebuild(&self, alloc: Global, index: u32) -> Result<ArchiveBytes, NoMemory>
        requires enough { AreEnough self.now.archives }
        requires index { All (λ archive. index < archive.k + archive.m) self.now.archives }
        ensures { IfOk result (λ bytes. IsRebuilt self.now.archives index bytes) }
    {
        self.gathered.further(alloc, index)
    }

    /// How a sync then ends, with archives of k indices or fewer.
    pub(crate) fn end(&self, alloc: Global, k: u32) -> Result<SyncEnd, NoMemory>
        ensures { IfOk result (λ end. end ≡ repair_end k self.now) }
    {
        if self.lacking.is_empty() || self.brought == k {
            let failed = Vec::from_slice(alloc, &self.failed)?;
            return Ok(SyncEnd::Done {
                commits: self.commits,
                rebuilt: self.rebuilt,
                tombstones: 0,
                failed: Items::from(failed),
            });
        }
        let have = if self.listed < k {
            self.listed
        } else {
            self.brought
        };
        let misses = Vec::from_slice(alloc, &self.misses)?;
        Ok(SyncEnd::TooFew {
            stamp: self.stamp,
            have,
            misses: Items::from(misses),
        })
    }
}
