//! Archives that are fetched to rebuild others from.

ghost use Rattle.std.specs.Prelude.{◌≡◌, ◌≤◌, ◌+◌, ◌++◌, ◌&&◌, IfOk, OnErr, OnOk, Some, length, map};
ghost use Rattle.std.specs.List.{list_any};
ghost use Rattle.std.specs.VecDeque.{deque_capacity};
ghost use Rattle.sw_archive.specs.Archive.{ArchiveModel};
ghost use Rattle.sw_gather.specs.Choices.{has_index};
ghost use Rattle.sw_message.specs.declared.target.Target.{Target as ATarget};
ghost use Rattle.sw_sync.specs.Sync.{IsFetched, IsJoined, IsRead, Loses, Meaning, due_brought, due_fetched, fetched, free_in, is_free, is_live};
ghost use Rattle.sw_sync.specs.declared.errand.Errand.TheVariants.{Store};

use crate::errand::Errand;
use crate::repair::Repair;
use std::alloc::Global;
use std::collections::VecDeque;
use sw_archive::{Archive, ArchiveBytes};
use sw_gather::has_target;
use sw_hashpath::Place;
use sw_message::{Foreign, Miss, Reply, Spoil, Target, check_asked};
use sw_ring::Cluster;
use sw_types::{NoMemory, Policy};

impl Repair {
    /// Takes the answer of a source, or that there is none. Where k archives are there the others are due to be stored; where the
    /// source is lost, another one is tried.
    pub(crate) fn hear_fetch(
        &mut self,
        alloc: Global,
        cluster: &Cluster,
        place: &Place,
        source: Target,
        answer: &Option<Reply>,
        due: &mut VecDeque<Errand>,
    ) -> Result<(), NoMemory>
        ensures ok { IfOk result (λ _. (meaning : Meaning) × IsFetched cluster.now place.now self.old source.index answer.now meaning
            × (self.new ≡ fetched self.old source meaning) × (due.new.items ≡ due.old.items ++ due_fetched cluster.now.policy.k self.old source meaning)) }
        ensures refused { OnErr result ((self.new ≡ self.old) × (due.new.items ≡ due.old.items)) }
    {
        match answer {
            Some(reply) => self.hear_reply(alloc, cluster, place, source, reply, due),
            None => self.lose(source, Miss::NoReply, due),
        }
    }

    // Takes the reply of a source.
    fn hear_reply(
        &mut self,
        alloc: Global,
        cluster: &Cluster,
        place: &Place,
        source: Target,
        reply: &Reply,
        due: &mut VecDeque<Errand>,
    ) -> Result<(), NoMemory>
        ensures ok { IfOk result (λ _. (meaning : Meaning) × IsFetched cluster.now place.now self.old source.index (Some reply.now) meaning
            × (self.new ≡ fetched self.old source meaning) × (due.new.items ≡ due.old.items ++ due_fetched cluster.now.policy.k self.old source meaning)) }
        ensures refused { OnErr result ((self.new ≡ self.old) × (due.new.items ≡ due.old.items)) }
    {
        match reply {
            Reply::Fragment(bytes) => self.read(alloc, cluster, place, source, bytes, due),
            Reply::Gone(_) => self.lose(source, Miss::Gone, due),
            other => self.lose(source, Miss::of(other), due),
        }
    }

    // Reads the bytes that a source sent.
    fn read(
        &mut self,
        alloc: Global,
        cluster: &Cluster,
        place: &Place,
        source: Target,
        bytes: &ArchiveBytes,
        due: &mut VecDeque<Errand>,
    ) -> Result<(), NoMemory>
        ensures ok { IfOk result (λ _. (meaning : Meaning) × IsRead cluster.now place.now self.old source.index bytes.now meaning
            × (self.new ≡ fetched self.old source meaning) × (due.new.items ≡ due.old.items ++ due_fetched cluster.now.policy.k self.old source meaning)) }
        ensures refused { OnErr result ((self.new ≡ self.old) × (due.new.items ≡ due.old.items)) }
    {
        match check_asked(cluster, place, self.stamp, source.index, bytes) {
            Ok(spelled) => {
                let archive = spelled.archive(alloc)?;
                self.bring(alloc, cluster.policy(), source, archive, due)
            }
            Err(spoil) => self.lose(source, Miss::Spoiled(spoil), due),
        }
    }

    // Takes an archive that was asked for. Only its MD5 is of interest in the object that k archives hold.
    fn bring(
        &mut self,
        alloc: Global,
        policy: &Policy,
        source: Target,
        archive: Archive,
        due: &mut VecDeque<Errand>,
    ) -> Result<(), NoMemory>
        requires { archive.k ≡ policy.now.k }
        ensures ok { IfOk result (λ _. (meaning : Meaning) × IsJoined policy.now self.old archive meaning
            × (self.new ≡ fetched self.old source meaning) × (due.new.items ≡ due.old.items ++ due_fetched policy.now.k self.old source meaning)) }
        ensures refused { OnErr result ((self.new ≡ self.old) × (due.new.items ≡ due.old.items)) }
    {
        due.reserve(self.lacking.len())?;
        if !self.gathered.join(alloc, policy, archive)? {
            return self.lose(source, Miss::Spoiled(Spoil::Foreign(Foreign::Object)), due);
        }
        self.gathered.take_object();
        self.brought += 1;
        self.push_due(policy.k(), due);
        Ok(())
    }

    // Where k archives are there, the store of each that is lacking is due. There is room for it.
    fn push_due(&self, k: u32, due: &mut VecDeque<Errand>)
        requires { length due.old.items + length self.now.lacking ≤ deque_capacity due.old }
        ensures { due.new.items ≡ due.old.items ++ due_brought k self.now }
    {
        if self.brought == k {
            push_stores(due, &self.lacking);
        }
    }

    // A source is lost, and another one is tried, if there is one.
    fn lose(
        &mut self,
        source: Target,
        miss: Miss,
        due: &mut VecDeque<Errand>,
    ) -> Result<(), NoMemory>
        ensures ok { OnOk result ((self.new ≡ fetched self.old source (Loses miss)) × (due.new.items ≡ due.old.items ++ due_fetched 0 self.old source (Loses miss))) }
        ensures refused { OnErr result ((self.new ≡ self.old) × (due.new.items ≡ due.old.items)) }
    {
        self.lost.reserve(1)?;
        self.misses.reserve(1)?;
        self.tried.reserve(1)?;
        due.reserve(1)?;
        self.lost.push_reserved(source);
        self.misses.push_reserved((source.device, miss));
        if let Some(next) = self.free() {
            self.tried.push_reserved(next);
            due.push_back_reserved(Errand::Fetch(next));
        }
        Ok(())
    }

    // The first source that is free.
    fn free(&self) -> Option<Target>
        ensures { result ≡ free_in self.now }
    {
        for source in &self.choices {
            if self.is_free(*source) {
                return Some(*source);
            }
        }
        None
    }

    // Whether a source was not tried, and none that is live has its index.
    fn is_free(&self, source: Target) -> bool
        ensures { result ≡ is_free self.now source }
    {
        !has_target(&self.tried, source) && !self.is_taken(source.index)
    }

    // Whether a source that is live has this index.
    fn is_taken(&self, index: u32) -> bool
        ensures { result ≡ list_any (λ (other : ATarget). has_index index other && is_live self.now.lost other) self.now.tried }
    {
        self.tried.iter().any(|other| other.index == index && !has_target(&self.lost, *other))
    }
}

// Adds the stores of some targets, for which there is room.
fn push_stores(due: &mut VecDeque<Errand>, targets: &[Target])
    requires { length due.old.items + length targets.now ≤ deque_capacity due.old }
    ensures { due.new.items ≡ due.old.items ++ map Store targets.now }
{
    for target in targets {
        due.push_back_reserved(Errand::Store(*target));
    }
}
