//! What a sync does next, once it has read every answer.

ghost use Rattle.std.specs.Prelude.{◌≡◌, ◌⊎◌, ◌∷◌, List, [], IfOk, IsTrue, MatchOption, OnErr, OnOk, false, length, true};
ghost use Rattle.sw_gather.specs.Mailbox.{IsOneMore};
ghost use Rattle.sw_hashpath.specs.Place.{IsPlace};
ghost use Rattle.sw_message.specs.Transcript.{Gave, Over, Step, Wait, is_waiting};
ghost use Rattle.sw_sync.specs.Standing.{IsReady, MayHand, Stands, has_ended};
ghost use Rattle.sw_sync.specs.Sync.{Begun, Fits, IsMessage, IsNext, advanced, settled};
ghost use Rattle.sw_sync.specs.declared.errand.Errand.{Errand as AnErrand};

use crate::errand::Errand;
use crate::heard::Heard;
use crate::planning::{asks_of, plan};
use crate::stage::Stage;
use crate::state::State;
use crate::sync::SyncJob;
use std::alloc::Global;
use std::mem::replace;
use sw_hashpath::Place;
use sw_message::{Msg, Sent, primaries};
use sw_ring::Cluster;
use sw_types::NoMemory;

impl<'a> SyncJob<'a> {
    /// Hands out what is due, unless it waits or is over.
    pub(crate) fn hand_out(&mut self) -> Result<Option<Sent>, NoMemory>
        requires { self.old.mailbox.unread ≡ [] }
        ensures hands { (begun : Begun) (past : List Step) → Stands self.old begun past → IfOk result (λ handed. MatchOption handed
            ((IsNext begun past Over × (has_ended self.new ≡ true)) ⊎ (IsNext begun past Wait × IsTrue (is_waiting past) × (has_ended self.new ≡ false)))
            (λ sent. MayHand begun past sent × (has_ended self.new ≡ false))) }
        ensures goes_on { (begun : Begun) (past : List Step) → Stands self.old begun past → IfOk result (λ handed. MatchOption handed
            (Stands self.new begun past) (λ sent. Stands self.new begun (Gave sent ∷ past))) }
        ensures count { IfOk result (λ handed. MatchOption handed
            (length self.new.mailbox.tickets ≡ length self.old.mailbox.tickets) (λ _. IsOneMore (length self.old.mailbox.tickets) (length self.new.mailbox.tickets))) }
        ensures refused { (begun : Begun) (past : List Step) → Stands self.old begun past → OnErr result (Stands self.new begun past) }
        ensures refused_ended { OnErr result (has_ended self.new ≡ has_ended self.old) }
        ensures refused_count { OnErr result (length self.new.mailbox.tickets ≡ length self.old.mailbox.tickets) }
    {
        self.settle()?;
        let Some(errand) = self.state.first_due() else {
            return Ok(None);
        };
        Ok(Some(self.hand_out_errand(errand)?))
    }

    // Works out what follows once nothing is due and nothing is open.
    fn settle(&mut self) -> Result<(), NoMemory>
        requires { self.old.mailbox.unread ≡ [] }
        ensures settled { (begun : Begun) (past : List Step) → Stands self.old begun past → OnOk result (IsReady self.new begun past) }
        ensures stands { (begun : Begun) (past : List Step) → Stands self.old begun past → Stands self.new begun past }
        ensures mailbox { self.new.mailbox ≡ self.old.mailbox }
        ensures ended { OnOk result (has_ended self.old ≡ true → has_ended self.new ≡ true) }
        ensures ready { OnOk result ((begun : Begun) × (past : List Step) × Stands self.new begun past × IsReady self.new begun past) }
        ensures refused { OnErr result (self.new ≡ self.old) }
    {
        let waiting = self.mailbox.is_waiting();
        let (alloc, cluster, device, place) = (self.alloc, self.cluster, self.device, self.place);
        settle_state(alloc, cluster, device, &place, waiting, &mut self.state)
    }

    // Hands out the errand that is due first.
    fn hand_out_errand(&mut self, errand: Errand) -> Result<Sent, NoMemory>
        requires unread { self.old.mailbox.unread ≡ [] }
        requires first { (later : List AnErrand) × (self.old.state.due ≡ errand ∷ later) }
        requires ready { (begun : Begun) × (past : List Step) × Stands self.old begun past × IsReady self.old begun past }
        ensures hands { (begun : Begun) (past : List Step) → Stands self.old begun past → IsReady self.old begun past → IfOk result (λ sent. MayHand begun past sent) }
        ensures goes_on { (begun : Begun) (past : List Step) → Stands self.old begun past → IsReady self.old begun past → IfOk result (λ sent. Stands self.new begun (Gave sent ∷ past)) }
        ensures stage { self.new.state.stage ≡ self.old.state.stage }
        ensures count { OnOk result (IsOneMore (length self.old.mailbox.tickets) (length self.new.mailbox.tickets)) }
        ensures refused { OnErr result (self.new ≡ self.old) }
    {
        let (device, msg) = message(self.alloc, self.place, &self.state, errand)?;
        let ticket = self.mailbox.hand_out(errand)?;
        self.state.drop_due();
        Ok(Sent {
            ticket,
            device,
            msg,
        })
    }
}

// Works out what follows, unless something is due or open.
fn settle_state(
    alloc: Global,
    cluster: &Cluster,
    device: u16,
    place: &Place,
    waiting: bool,
    state: &mut State,
) -> Result<(), NoMemory>
    requires { IsPlace cluster.now.part_power place.now }
    ensures ok { OnOk result (state.new ≡ settled (record { cluster = cluster.now; device = device; place = place.now }) waiting state.old) }
    ensures refused { OnErr result (state.new ≡ state.old) }
{
    if !state.due.is_empty() {
        return Ok(());
    }
    if waiting {
        return Ok(());
    }
    advance(alloc, cluster, device, place, state)
}

// What follows once nothing is due and nothing is open.
fn advance(
    alloc: Global,
    cluster: &Cluster,
    device: u16,
    place: &Place,
    state: &mut State,
) -> Result<(), NoMemory>
    requires right { IsPlace cluster.now.part_power place.now }
    requires nothing_due { state.old.due ≡ [] }
    ensures ok { OnOk result (state.new ≡ advanced (record { cluster = cluster.now; device = device; place = place.now }) state.old.stage) }
    ensures refused { OnErr result (state.new ≡ state.old) }
{
    match &mut state.stage {
        Stage::Handoffs(heard) => {
            let due = asks_of(alloc, &primaries(alloc, cluster, place.part())?)?;
            let heard = replace(heard, Heard::new(alloc));
            let stage = Stage::Primaries(heard);
            *state = State { stage, due };
        }
        Stage::Primaries(heard) => *state = plan(alloc, cluster, device, place, heard)?,
        Stage::Buries(burial) => *state = State::over(alloc, burial.end(alloc)?),
        Stage::Repairs(repair) => {
            let k = cluster.policy().k();
            *state = State::over(alloc, repair.end(alloc, k)?);
        }
        Stage::Ends(_) => {}
    }
    Ok(())
}

// The message of an errand, and the device that it goes to.
fn message(
    alloc: Global,
    place: Place,
    state: &State,
    errand: Errand,
) -> Result<(u16, Msg), NoMemory>
    requires { Fits state.now.stage errand }
    ensures { (begun : Begun) → begun.place ≡ place → IfOk result (λ sent. IsMessage begun state.now.stage errand sent.0 sent.1) }
{
    Ok(match (&state.stage, errand) {
        (_, Errand::Ask(device)) => (device, Msg::Ask { place }),
        (Stage::Buries(burial), Errand::Delete(device)) => {
            let stamp = burial.stamp();
            (device, Msg::Delete { place, stamp })
        }
        (Stage::Repairs(repair), Errand::Fetch(source)) => {
            let (stamp, index) = (repair.stamp(), source.index);
            let msg = Msg::Fetch {
                place,
                stamp,
                index,
            };
            (source.device, msg)
        }
        (Stage::Repairs(repair), Errand::Store(target)) => {
            let (stamp, index) = (repair.stamp(), target.index);
            let bytes = repair.rebuild(alloc, index)?;
            let msg = Msg::PutFrag {
                place,
                stamp,
                index,
                bytes,
            };
            (target.device, msg)
        }
        (Stage::Repairs(repair), Errand::Commit(target)) => {
            let (stamp, index) = (repair.stamp(), target.index);
            let msg = Msg::Commit {
                place,
                stamp,
                index,
            };
            (target.device, msg)
        }
        _ => unreachable!(),
    })
}
