//! Syncs: jobs of primaries.

ghost use Rattle.std.specs.Prelude.{◌≡◌, List, [], IfOk, IfSome, is_some, length, true};
ghost use Rattle.sw_hashpath.specs.Place.{IsPlace};
ghost use Rattle.sw_message.specs.Message.{is_primary};
ghost use Rattle.sw_message.specs.Transcript.{Step, after_answer};
ghost use Rattle.sw_sync.specs.Standing.{Stands, has_ended};
ghost use Rattle.sw_sync.specs.Sync.{Begun, IsEnd};

use crate::errand::Errand;
use crate::heard::Heard;
use crate::planning::asks_of;
use crate::stage::Stage;
use crate::state::State;
use crate::sync_end::SyncEnd;
use std::alloc::Global;
use std::marker::Model;
use sw_gather::Mailbox;
use sw_hashpath::Place;
use sw_message::Reply;
use sw_ring::Cluster;
use sw_types::NoMemory;

/// A sync. It asks every device of a place what it has. A tombstone that is its own device's floor goes to the primaries that list a
/// smaller floor or none; of a stamp that is its floor, durable, primaries are told to make durable the entries that they list plain,
/// and are sent the archives that they lack, rebuilt from k that others have.
#[derive(Debug, Drop)]
pub struct SyncJob<'a> {
    pub(crate) alloc: Global,
    pub(crate) cluster: &'a Cluster,
    pub(crate) device: u16,
    pub(crate) place: Place,
    pub(crate) state: State,
    pub(crate) mailbox: Mailbox<Errand>,
}

impl<'a> Model for SyncJob<'a> {
    ghost use Rattle.std.specs.Prelude.{List};
    ghost use Rattle.sw_message.specs.Transcript.{Step};
    ghost use Rattle.sw_sync.specs.Inside.{sync_seen};
    ghost use Rattle.sw_sync.specs.Standing.{Stands, SyncModel};
    ghost use Rattle.sw_sync.specs.Sync.{Begun};

    ghost Value = { SyncModel };

    ghost view = { sync_seen };

    // It stands for some transcript.
    ghost invariant = { λ job. (begun : Begun) × (past : List Step) × Stands (sync_seen job) begun past };
}

impl<'a> SyncJob<'a> {
    /// A sync of a place by one of its primaries, which has handed out nothing.
    pub fn begin(
        alloc: Global,
        cluster: &'a Cluster,
        device: u16,
        place: Place,
    ) -> Result<SyncJob<'a>, NoMemory>
        requires right { IsPlace cluster.now.part_power place }
        requires primary { is_primary cluster.now device place ≡ true }
        ensures { IfOk result (λ job. Stands job (record { cluster = cluster.now; device = device; place = place }) []) }
    {
        prove!(cluster.part_power() <= Cluster::GREATEST_PART_POWER);
        let handoffs = cluster.handoffs(alloc, place.part())?;
        let due = asks_of(alloc, &handoffs)?;
        let stage = Stage::Handoffs(Heard::new(alloc));
        Ok(SyncJob {
            alloc,
            cluster,
            device,
            place,
            state: State { stage, due },
            mailbox: Mailbox::new(alloc),
        })
    }

    /// How it ended, as far as `next` has seen.
    pub fn end(&self) -> Option<&SyncEnd>
        ensures end { (begun : Begun) (past : List Step) → Stands self.now begun past → IfSome result (λ end. IsEnd begun past end.now) }
        ensures ended { is_some result ≡ has_ended self.now }
    {
        self.state.end()
    }

    /// How it ended, as far as `next` has seen, handed out.
    pub fn into_end(self) -> Option<SyncEnd>
        ensures end { (begun : Begun) (past : List Step) → Stands self.entry begun past → IfSome result (λ end. IsEnd begun past end) }
        ensures ended { is_some result ≡ has_ended self.entry }
    {
        self.state.into_end()
    }

    // Takes the answer to a ticket, or that there is none. One that is not open is ignored. It takes no memory.
    pub(crate) fn answer(&mut self, ticket: u64, answer: Option<Reply>)
        ensures stands { (begun : Begun) (past : List Step) → Stands self.old begun past → Stands self.new begun (after_answer past ticket answer) }
        ensures state { self.new.state ≡ self.old.state }
        ensures count { length self.new.mailbox.tickets ≡ length self.old.mailbox.tickets }
    {
        self.mailbox.take(ticket, answer);
    }
}
