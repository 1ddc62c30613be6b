//! What devices told.

ghost use Rattle.std.specs.Prelude.{◌≡◌, [], IfOk, OnErr};
ghost use Rattle.sw_sync.specs.Hearing.{TookFirst, asked};
ghost use Rattle.sw_sync.specs.Standing.{BeginsWith};
ghost use Rattle.sw_sync.specs.Sync.{heard_from};
ghost use Rattle.sw_sync.specs.declared.errand.Errand.TheVariants.{Ask};

use crate::errand::Errand;
use std::alloc::Global;
use std::marker::Model;
use sw_gather::Mailbox;
use sw_hashdir::Listing;
use sw_message::{Miss, Reply};
use sw_types::NoMemory;

/// What devices list, and what was missed, in the order of their answers.
#[derive(Debug, Drop)]
pub struct Heard {
    pub(crate) lists: Vec<(u16, Listing)>,
    pub(crate) misses: Vec<(u16, Miss)>,
}

impl Model for Heard {
    ghost use Rattle.sw_sync.specs.HeardInside.{heard_seen};
    ghost use Rattle.sw_sync.specs.Parts.{Heard};

    ghost Value = { Heard };

    ghost view = { heard_seen };
}

impl Heard {
    /// No device has answered.
    pub(crate) fn new(alloc: Global) -> Heard
        ensures { result ≡ record { lists = []; misses = [] } }
    {
        Heard {
            lists: Vec::new(alloc),
            misses: Vec::new(alloc),
        }
    }

    /// Takes the first answer out of the mailbox, which is that to an errand.
    pub(crate) fn hear_first(
        &mut self,
        errand: Errand,
        mailbox: &mut Mailbox<Errand>,
    ) -> Result<(), NoMemory>
        requires { BeginsWith mailbox.old.unread errand }
        ensures ok { IfOk result (λ _. TookFirst mailbox.old mailbox.new errand (λ answer. self.new ≡ asked self.old errand answer)) }
        ensures refused { OnErr result ((self.new ≡ self.old) × (mailbox.new ≡ mailbox.old)) }
    {
        match errand {
            Errand::Ask(device) => self.hear_asked(device, mailbox),
            _ => {
                mailbox.drop_first();
                Ok(())
            }
        }
    }

    // Takes out that of a device that was asked.
    fn hear_asked(&mut self, device: u16, mailbox: &mut Mailbox<Errand>) -> Result<(), NoMemory>
        requires { BeginsWith mailbox.old.unread (Ask device) }
        ensures ok { IfOk result (λ _. TookFirst mailbox.old mailbox.new (Ask device) (λ answer. self.new ≡ heard_from self.old device answer)) }
        ensures refused { OnErr result ((self.new ≡ self.old) × (mailbox.new ≡ mailbox.old)) }
    {
        self.lists.reserve(1)?;
        self.misses.reserve(1)?;
        let Some((_, answer)) = mailbox.take_first() else {
            return Ok(());
        };
        match answer {
            Some(Reply::Held(listing)) => self.lists.push_reserved((device, listing)),
            Some(other) => self.misses.push_reserved((device, Miss::of(&other))),
            None => self.misses.push_reserved((device, Miss::NoReply)),
        }
        Ok(())
    }
}
