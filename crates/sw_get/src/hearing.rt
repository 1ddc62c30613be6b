//! What the sources of a round answer.

ghost use Rattle.std.specs.Prelude.{◌≡◌, ◌++◌, ◌∷◌, [], IfOk, OnErr, Some};
ghost use Rattle.sw_get.specs.Meaning.{IsFetched, IsJoined, IsRead, IsTaken, Meaning, Misses, with_fetched};
ghost use Rattle.sw_get.specs.Round.{HasObject};

use crate::round::Round;
use std::alloc::Global;
use sw_archive::{Archive, ArchiveBytes};
use sw_message::{Foreign, Miss, Reply, Spoil, Target, check_named};
use sw_types::{Name, NoMemory, Policy, Stamp};

impl Round {
    /// Takes the answer of a source, or that there is none: what it brings is read and compared with what was asked for and with the
    /// archives before it, and where k archives are there, the object is decoded.
    pub(crate) fn hear_fetched(
        &mut self,
        alloc: Global,
        policy: &Policy,
        name: &Name,
        stamp: Stamp,
        source: Target,
        answer: &Option<Reply>,
    ) -> Result<(), NoMemory>
        ensures ok { IfOk result (λ _. (meaning : Meaning) × IsFetched (record { policy = policy.now; name = name.now; stamp = stamp }) self.old.facts.archives source.index answer.now meaning
            × (self.new.facts ≡ with_fetched self.old.facts source meaning)) }
        ensures object { HasObject policy.now.k self.old → IfOk result (λ _. HasObject policy.now.k self.new) }
        ensures refused { OnErr result (self.new ≡ self.old) }
    {
        match answer {
            Some(reply) => self.hear_reply(alloc, policy, name, stamp, source, reply),
            None => self.miss(source, Miss::NoReply),
        }
    }

    // Takes the reply of a source.
    fn hear_reply(
        &mut self,
        alloc: Global,
        policy: &Policy,
        name: &Name,
        stamp: Stamp,
        source: Target,
        reply: &Reply,
    ) -> Result<(), NoMemory>
        ensures ok { IfOk result (λ _. (meaning : Meaning) × IsFetched (record { policy = policy.now; name = name.now; stamp = stamp }) self.old.facts.archives source.index (Some reply.now) meaning
            × (self.new.facts ≡ with_fetched self.old.facts source meaning)) }
        ensures object { HasObject policy.now.k self.old → IfOk result (λ _. HasObject policy.now.k self.new) }
        ensures refused { OnErr result (self.new ≡ self.old) }
    {
        match reply {
            Reply::Fragment(bytes) => self.read(alloc, policy, name, stamp, source, bytes),
            Reply::Gone(_) => self.lack(source),
            other => self.miss(source, Miss::of(other)),
        }
    }

    // Reads the bytes that a source sent.
    fn read(
        &mut self,
        alloc: Global,
        policy: &Policy,
        name: &Name,
        stamp: Stamp,
        source: Target,
        bytes: &ArchiveBytes,
    ) -> Result<(), NoMemory>
        ensures ok { IfOk result (λ _. (meaning : Meaning) × IsRead (record { policy = policy.now; name = name.now; stamp = stamp }) self.old.facts.archives source.index bytes.now meaning
            × (self.new.facts ≡ with_fetched self.old.facts source meaning)) }
        ensures object { HasObject policy.now.k self.old → IfOk result (λ _. HasObject policy.now.k self.new) }
        ensures refused { OnErr result (self.new ≡ self.old) }
    {
        match check_named(policy, name, stamp, source.index, bytes) {
            Ok(spelled) => {
                let archive = spelled.archive(alloc)?;
                self.bring(alloc, policy, source, archive)
            }
            Err(spoil) => self.miss(source, Miss::Spoiled(spoil)),
        }
    }

    // Takes an archive that was asked for.
    fn bring(
        &mut self,
        alloc: Global,
        policy: &Policy,
        source: Target,
        archive: Archive,
    ) -> Result<(), NoMemory>
        requires { archive.k ≡ policy.now.k }
        ensures ok { IfOk result (λ _. (meaning : Meaning) × IsJoined policy.now self.old.facts.archives archive meaning × (self.new.facts ≡ with_fetched self.old.facts source meaning)) }
        ensures object { HasObject policy.now.k self.old → IfOk result (λ _. HasObject policy.now.k self.new) }
        ensures refused { OnErr result (self.new ≡ self.old) }
    {
        if self.take_archive(alloc, policy, source, archive)? {
            return Ok(());
        }
        self.miss(source, Miss::Spoiled(Spoil::Foreign(Foreign::Object)))
    }

    // Takes an archive that was asked for, where it is of the object of those before it.
    fn take_archive(
        &mut self,
        alloc: Global,
        policy: &Policy,
        source: Target,
        archive: Archive,
    ) -> Result<bool, NoMemory>
        requires { archive.k ≡ policy.now.k }
        ensures taken { IfOk result (λ taken. IsTaken policy.now self.old source archive taken self.new) }
        ensures refused { OnErr result (self.new ≡ self.old) }
    {
        self.sources.reserve(1)?;
        let joined = self.gathered.join(alloc, policy, archive)?;
        if joined {
            self.sources.push_reserved(source);
        }
        Ok(joined)
    }

    // A source lacks what it listed.
    fn lack(&mut self, source: Target) -> Result<(), NoMemory>
        ensures ok { IfOk result (λ _. self.new ≡ record self.old { facts = record self.old.facts { gone = self.old.facts.gone ++ source ∷ [] } }) }
        ensures refused { OnErr result (self.new ≡ self.old) }
    {
        self.gone.push(source)?;
        Ok(())
    }

    // A source missed.
    fn miss(&mut self, source: Target, miss: Miss) -> Result<(), NoMemory>
        ensures ok { IfOk result (λ _. self.new ≡ record self.old { facts = with_fetched self.old.facts source (Misses miss) }) }
        ensures refused { OnErr result (self.new ≡ self.old) }
    {
        self.failed.reserve(1)?;
        // One place more stays free, where one was made free.
        self.misses.reserve(2)?;
        self.failed.push_reserved(source);
        self.misses.push_reserved((source.device, miss));
        Ok(())
    }
}
