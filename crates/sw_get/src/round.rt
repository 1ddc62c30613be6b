//! One round of a get.

ghost use Rattle.std.specs.Prelude.{◌≡◌, ◌+◌, ◌<◌, ◌^◌, ◌++◌, ◌∷◌, [], false, true, IfOk, None, OnErr};
ghost use Rattle.sw_get.specs.Meaning.{asked_meaning, with_asked};
ghost use Rattle.sw_get.specs.Round.{no_facts};

use std::alloc::Global;
use std::marker::Model;
use sw_gather::Gathered;
use sw_hashdir::Listing;
use sw_message::{Miss, Reply, Target};
use sw_types::{NoMemory, Object};

/// What a round has handed out, and what it has heard. Once k archives are there, the object that they tell and hold is, too.
#[derive(Debug, Drop)]
pub(crate) struct Round {
    pub(crate) asked: usize,
    pub(crate) answered: usize,
    pub(crate) lists: Vec<(u16, Listing)>,
    pub(crate) tried: Vec<Target>,
    pub(crate) sources: Vec<Target>,
    pub(crate) gathered: Gathered,
    pub(crate) gone: Vec<Target>,
    pub(crate) failed: Vec<Target>,
    pub(crate) misses: Vec<(u16, Miss)>,
    pub(crate) has_room: bool,
}

impl Model for Round {
    ghost use Rattle.std.specs.Prelude.{◌≡◌, ◌+◌, ◌<◌, length, true, vec_capacity};
    ghost use Rattle.sw_get.specs.Inside.{round_seen};
    ghost use Rattle.sw_get.specs.Round.{RoundModel};

    ghost Value = { RoundModel };

    ghost view = { round_seen };

    // Each source that brought something has its archive, and each answer to a question left something. Where it says so, there
    // is room for an answer to a question and for a source.
    ghost invariant = { λ round. (length round.sources.items ≡ length round.gathered.archives)
        × (round.answered + length round.failed.items ≡ length round.lists.items + length round.misses.items)
        × (round.has_room ≡ true → (length round.lists.items < vec_capacity round.lists) × (length round.misses.items < vec_capacity round.misses) × (length round.tried.items < vec_capacity round.tried)) };
}

impl Round {
    /// A round that has handed out nothing.
    pub(crate) fn new(alloc: Global) -> Round
        ensures { result ≡ record { facts = no_facts; object = None; has_room = false } }
    {
        Round {
            asked: 0,
            answered: 0,
            lists: Vec::new(alloc),
            tried: Vec::new(alloc),
            sources: Vec::new(alloc),
            gathered: Gathered::new(alloc),
            gone: Vec::new(alloc),
            failed: Vec::new(alloc),
            misses: Vec::new(alloc),
            has_room: false,
        }
    }

    /// One device more was asked.
    pub(crate) fn ask(&mut self)
        requires { self.old.facts.asked + 1 < 2 ^ 64 }
        ensures { self.new ≡ record self.old { facts = record self.old.facts { asked = self.old.facts.asked + 1 } } }
    {
        self.asked += 1;
    }

    /// Makes room for the answer of one device, or for one source.
    pub(crate) fn make_room(&mut self) -> Result<(), NoMemory>
        ensures ok { IfOk result (λ _. self.new ≡ record self.old { has_room = true }) }
        ensures refused { OnErr result (self.new ≡ self.old) }
    {
        self.lists.reserve(1)?;
        self.misses.reserve(1)?;
        self.tried.reserve(1)?;
        self.has_room = true;
        Ok(())
    }

    /// An archive is fetched from one source more. It takes no memory.
    pub(crate) fn fetch(&mut self, source: Target)
        requires { self.old.has_room ≡ true }
        ensures { self.new ≡ record self.old { facts = record self.old.facts { tried = self.old.facts.tried ++ source ∷ [] }; has_room = false } }
    {
        self.tried.push_reserved(source);
        self.has_room = false;
    }

    /// Takes the answer of a device that was asked, or that there is none. It takes no memory.
    pub(crate) fn hear_asked(&mut self, device: u16, answer: Option<Reply>)
        requires { self.old.has_room ≡ true }
        ensures { self.new ≡ record self.old { facts = with_asked self.old.facts device (asked_meaning answer); has_room = false } }
    {
        self.answered += 1;
        match answer {
            Some(Reply::Held(listing)) => self.lists.push_reserved((device, listing)),
            Some(other) => self.misses.push_reserved((device, Miss::of(&other))),
            None => self.misses.push_reserved((device, Miss::NoReply)),
        }
        self.has_room = false;
    }

    /// What was missed, and by which device.
    pub(crate) fn misses(&self) -> &[(u16, Miss)]
        ensures { result.now ≡ self.now.facts.misses }
    {
        self.misses.as_slice()
    }

    /// Where the archives came from.
    pub(crate) fn sources(&self) -> &[Target]
        ensures { result.now ≡ self.now.facts.sources }
    {
        self.sources.as_slice()
    }

    /// From where archives were fetched.
    pub(crate) fn tried(&self) -> &[Target]
        ensures { result.now ≡ self.now.facts.tried }
    {
        self.tried.as_slice()
    }

    /// The object, where k archives are there. It is handed over once.
    pub(crate) fn take_object(&mut self) -> Option<Object>
        ensures object { result ≡ self.old.object }
        ensures left { self.new ≡ record self.old { object = None } }
    {
        self.gathered.take_object()
    }
}
