//! What a get does next, once it has read every answer.

ghost use Rattle.std.specs.Prelude.{◌≡◌, ◌<◌, ◌⊎◌, [], ◌∷◌, List, IfOk, MatchOption, OnErr, OnOk, None, IsTrue, is_some, length, true};
ghost use Rattle.sw_message.specs.Transcript.{Gave, Over, Step, Wait, is_waiting};
ghost use Rattle.sw_get.specs.Get.{Begun, IsNext, most_kept};
ghost use Rattle.sw_gather.specs.Mailbox.{IsOneMore};
ghost use Rattle.sw_get.specs.Standing.{EndsWith, IsReady, MayHand, NeedsObject, Stands, going_of};
ghost use Rattle.sw_get.specs.declared.round_end.Going.TheVariants as going;

use crate::end::GetEnd;
use crate::errand::Errand;
use crate::get::GetOp;
use crate::round::Round;
use crate::round_end::{Going, KeptEvent, RoundEnd};
use std::alloc::Global;
use sw_message::{Msg, Sent, Target, sort_targets};
use sw_types::{Items, NoMemory, Stamp};

// So many rounds are kept and followed by another one.
const MOST_KEPT: usize = 7;

impl GetOp {
    /// Does what comes next.
    pub(crate) fn step(&mut self) -> Result<Option<Sent>, NoMemory>
        requires { IsReady self.old }
        ensures hands { (begun : Begun) (past : List Step) → Stands self.old begun past → IfOk result (λ handed. MatchOption handed
            ((IsNext begun past Over × (is_some self.new.end ≡ true)) ⊎ (IsNext begun past Wait × IsTrue (is_waiting past) × (self.new.end ≡ None)))
            (λ sent. MayHand begun past sent × (self.new.end ≡ None))) }
        ensures goes_on { (begun : Begun) (past : List Step) → Stands self.old begun past → IfOk result (λ handed. MatchOption handed
            (Stands self.new begun past) (λ sent. Stands self.new begun (Gave sent ∷ past))) }
        ensures count { IfOk result (λ handed. MatchOption handed
            (length self.new.mailbox.tickets ≡ length self.old.mailbox.tickets) (λ _. IsOneMore (length self.old.mailbox.tickets) (length self.new.mailbox.tickets))) }
        ensures refused { OnErr result (self.new ≡ self.old) }
    {
        match self.going()? {
            Going::Ask(device) => Ok(Some(self.ask(device)?)),
            Going::Fetch { stamp, source } => Ok(Some(self.fetch(stamp, source)?)),
            Going::Wait => Ok(None),
            Going::End(ending) => {
                self.finish(ending)?;
                Ok(None)
            }
            Going::Keep(event) => self.keep(event),
        }
    }

    // What that is.
    fn going(&self) -> Result<Going, NoMemory>
        ensures { IfOk result (λ going. going ≡ going_of self.now) }
    {
        self.round.going(
            self.alloc,
            &self.policy,
            &self.handoffs,
            &self.primaries,
            self.from,
        )
    }

    // Asks a device.
    fn ask(&mut self, device: u16) -> Result<Sent, NoMemory>
        requires ready { IsReady self.old }
        requires goes { going_of self.old ≡ going.Ask device }
        ensures hands { (begun : Begun) (past : List Step) → Stands self.old begun past → IfOk result (λ sent. MayHand begun past sent) }
        ensures goes_on { (begun : Begun) (past : List Step) → Stands self.old begun past → IfOk result (λ sent. Stands self.new begun (Gave sent ∷ past)) }
        ensures count { OnOk result (IsOneMore (length self.old.mailbox.tickets) (length self.new.mailbox.tickets)) }
        ensures end { self.new.end ≡ self.old.end }
        ensures refused { OnErr result (self.new ≡ self.old) }
    {
        let ticket = self.mailbox.hand_out(Errand::Ask(device))?;
        self.round.ask();
        let place = self.place;
        let msg = Msg::Ask { place };
        Ok(Sent {
            ticket,
            device,
            msg,
        })
    }

    // Fetches an archive from a source.
    fn fetch(&mut self, stamp: Stamp, source: Target) -> Result<Sent, NoMemory>
        requires ready { IsReady self.old }
        requires goes { going_of self.old ≡ going.Fetch stamp source }
        ensures hands { (begun : Begun) (past : List Step) → Stands self.old begun past → IfOk result (λ sent. MayHand begun past sent) }
        ensures goes_on { (begun : Begun) (past : List Step) → Stands self.old begun past → IfOk result (λ sent. Stands self.new begun (Gave sent ∷ past)) }
        ensures count { OnOk result (IsOneMore (length self.old.mailbox.tickets) (length self.new.mailbox.tickets)) }
        ensures end { self.new.end ≡ self.old.end }
        ensures refused { OnErr result (self.new ≡ self.old) }
    {
        self.round.make_room()?;
        let ticket = self.mailbox.hand_out(Errand::Fetch { stamp, source })?;
        self.round.fetch(source);
        let (place, index) = (self.place, source.index);
        let msg = Msg::Fetch {
            place,
            stamp,
            index,
        };
        Ok(Sent {
            ticket,
            device: source.device,
            msg,
        })
    }

    // Keeps the round as an event, and begins another one, or ends.
    fn keep(&mut self, event: KeptEvent) -> Result<Option<Sent>, NoMemory>
        requires ready { IsReady self.old }
        requires goes { going_of self.old ≡ going.Keep event }
        ensures hands { (begun : Begun) (past : List Step) → Stands self.old begun past → IfOk result (λ handed. MatchOption handed
            ((IsNext begun past Over × (is_some self.new.end ≡ true)) ⊎ (IsNext begun past Wait × IsTrue (is_waiting past) × (self.new.end ≡ None)))
            (λ sent. MayHand begun past sent × (self.new.end ≡ None))) }
        ensures goes_on { (begun : Begun) (past : List Step) → Stands self.old begun past → IfOk result (λ handed. MatchOption handed
            (Stands self.new begun past) (λ sent. Stands self.new begun (Gave sent ∷ past))) }
        ensures count { IfOk result (λ handed. MatchOption handed
            (length self.new.mailbox.tickets ≡ length self.old.mailbox.tickets) (λ _. IsOneMore (length self.old.mailbox.tickets) (length self.new.mailbox.tickets))) }
        ensures refused { OnErr result (self.new ≡ self.old) }
    {
        if self.events.len() < MOST_KEPT {
            return Ok(Some(self.begin_round(event)?));
        }
        let mut events = Vec::from_slice(self.alloc, &self.events)?;
        events.push(event)?;
        self.end = Some(GetEnd::Overtaken {
            events: Items::from(events),
        });
        Ok(None)
    }

    // Begins another round, and asks the first device.
    fn begin_round(&mut self, event: KeptEvent) -> Result<Sent, NoMemory>
        requires ready { IsReady self.old }
        requires goes { going_of self.old ≡ going.Keep event }
        requires few { length self.old.findings.events < most_kept }
        ensures hands { (begun : Begun) (past : List Step) → Stands self.old begun past → IfOk result (λ sent. MayHand begun past sent) }
        ensures goes_on { (begun : Begun) (past : List Step) → Stands self.old begun past → IfOk result (λ sent. Stands self.new begun (Gave sent ∷ past)) }
        ensures count { OnOk result (IsOneMore (length self.old.mailbox.tickets) (length self.new.mailbox.tickets)) }
        ensures end { self.new.end ≡ self.old.end }
        ensures refused { OnErr result (self.new ≡ self.old) }
    {
        let device = self.first_device();
        self.events.reserve(1)?;
        let ticket = self.mailbox.hand_out(Errand::Ask(device))?;
        self.events.push_reserved(event);
        self.from = self.target;
        self.round = Round::new(self.alloc);
        self.round.ask();
        let place = self.place;
        let msg = Msg::Ask { place };
        Ok(Sent {
            ticket,
            device,
            msg,
        })
    }

    // Ends as its last round ends.
    fn finish(&mut self, ending: RoundEnd) -> Result<(), NoMemory>
        requires ready { IsReady self.old }
        requires goes { going_of self.old ≡ going.End ending }
        ensures over { (begun : Begun) (past : List Step) → Stands self.old begun past → OnOk result (IsNext begun past Over) }
        ensures stands { (begun : Begun) (past : List Step) → Stands self.old begun past → OnOk result (Stands self.new begun past) }
        ensures ended { OnOk result (is_some self.new.end ≡ true) }
        ensures count { length self.new.mailbox.tickets ≡ length self.old.mailbox.tickets }
        ensures refused { OnErr result (self.new ≡ self.old) }
    {
        self.end = Some(end_of(self.alloc, &mut self.round, ending)?);
        Ok(())
    }
}

// The end of a get by that of its last round, out of which the object is taken.
fn end_of(alloc: Global, round: &mut Round, ending: RoundEnd) -> Result<GetEnd, NoMemory>
    requires { NeedsObject ending round.old.object }
    ensures ends { IfOk result (λ how. EndsWith round.old.facts round.old.object ending how) }
    ensures facts { round.new.facts ≡ round.old.facts }
    ensures refused { OnErr result (round.new ≡ round.old) }
{
    Ok(match ending {
        RoundEnd::Found { stamp } => {
            let mut sources = Vec::from_slice(alloc, round.sources())?;
            sort_targets(&mut sources);
            let object = round.take_object().unwrap();
            let sources = Items::from(sources);
            GetEnd::Found {
                stamp,
                object,
                sources,
            }
        }
        RoundEnd::Absent => GetEnd::Absent,
        RoundEnd::Buried { stamp } => GetEnd::Buried { stamp },
        RoundEnd::Unanswered => {
            let misses = Vec::from_slice(alloc, round.misses())?;
            GetEnd::Unanswered {
                misses: Items::from(misses),
            }
        }
        RoundEnd::TooFew { stamp, have } => GetEnd::TooFew { stamp, have },
    })
}
