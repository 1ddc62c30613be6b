//! Gets.

ghost use Rattle.std.specs.Prelude.{◌≡◌, [], List, None, Some, IfOk, MatchOption, is_some, length, slice_get};
ghost use Rattle.sw_message.specs.Transcript.{Step, after_answer};
ghost use Rattle.sw_get.specs.Get.{Begun, IsEnd};
ghost use Rattle.sw_get.specs.Round.{all_devices};
ghost use Rattle.sw_get.specs.Standing.{Stands};

use crate::end::GetEnd;
use crate::errand::Errand;
use crate::round::Round;
use crate::round_end::KeptEvent;
use std::alloc::Global;
use std::marker::Model;
use sw_gather::Mailbox;
use sw_hashdir::Floor;
use sw_hashpath::Place;
use sw_message::{Reply, primaries};
use sw_ring::Cluster;
use sw_types::{Name, NoMemory, Policy};

/// A get. It asks every device what it has, and fetches archives of the newest stamp that any showed, in up to eight rounds.
#[derive(Debug, Drop)]
pub struct GetOp {
    pub(crate) alloc: Global,
    pub(crate) policy: Policy,
    pub(crate) name: Name,
    pub(crate) place: Place,
    pub(crate) handoffs: Vec<u16>,
    pub(crate) primaries: Vec<u16>,
    pub(crate) target: Option<Floor>,
    pub(crate) from: Option<Floor>,
    pub(crate) events: Vec<KeptEvent>,
    pub(crate) round: Round,
    pub(crate) mailbox: Mailbox<Errand>,
    pub(crate) end: Option<GetEnd>,
}

impl Model for GetOp {
    ghost use Rattle.std.specs.Prelude.{List};
    ghost use Rattle.sw_message.specs.Transcript.{Step};
    ghost use Rattle.sw_get.specs.Get.{Begun};
    ghost use Rattle.sw_get.specs.GetInside.{get_seen};
    ghost use Rattle.sw_get.specs.Standing.{GetModel, Stands};

    ghost Value = { GetModel };

    ghost view = { get_seen };

    // It stands for some transcript.
    ghost invariant = { λ get. (begun : Begun) × (past : List Step) × Stands (get_seen get) begun past };
}

impl GetOp {
    /// A get of a name, which has handed out nothing.
    pub fn begin(alloc: Global, cluster: &Cluster, name: &Name) -> Result<GetOp, NoMemory>
        ensures { IfOk result (λ op. Stands op (record { cluster = cluster.now; name = name.now }) []) }
    {
        prove!(cluster.part_power() <= Cluster::GREATEST_PART_POWER);
        let place = cluster.place(alloc, name)?;
        let primaries = primaries(alloc, cluster, place.part())?;
        let handoffs = cluster.handoffs(alloc, place.part())?;
        Ok(GetOp {
            alloc,
            policy: *cluster.policy(),
            name: name.clone()?,
            place,
            handoffs,
            primaries,
            target: None,
            from: None,
            events: Vec::new(alloc),
            round: Round::new(alloc),
            mailbox: Mailbox::new(alloc),
            end: None,
        })
    }

    /// How it ended, as far as `next` has seen.
    pub fn end(&self) -> Option<&GetEnd>
        ensures end { (begun : Begun) (past : List Step) → Stands self.now begun past → MatchOption result (self.now.end ≡ None) (λ end. IsEnd begun past end.now) }
        ensures ended { is_some result ≡ is_some self.now.end }
    {
        self.end.as_ref()
    }

    /// How it ended, as far as `next` has seen, handed out.
    pub fn into_end(self) -> Option<GetEnd>
        ensures end { (begun : Begun) (past : List Step) → Stands self begun past → MatchOption result (self.end ≡ None) (λ end. IsEnd begun past end) }
        ensures ended { is_some result ≡ is_some self.end }
    {
        self.end
    }

    // Takes the answer to a ticket, or that there is none. One that is not open is ignored. It takes no memory.
    pub(crate) fn answer(&mut self, ticket: u64, answer: Option<Reply>)
        ensures stands { (begun : Begun) (past : List Step) → Stands self.old begun past → Stands self.new begun (after_answer past ticket answer) }
        ensures end { self.new.end ≡ self.old.end }
        ensures count { length self.new.mailbox.tickets ≡ length self.old.mailbox.tickets }
    {
        self.mailbox.take(ticket, answer);
    }

    // The device that is asked first in a round.
    pub(crate) fn first_device(&self) -> u16
        ensures { slice_get (all_devices self.now.subject.devices) 0 ≡ Some result }
    {
        match self.handoffs.first() {
            Some(device) => *device,
            None => self.primaries[0],
        }
    }
}
