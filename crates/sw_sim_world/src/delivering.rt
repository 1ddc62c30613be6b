//! Messages of a world that are delivered or given up.

ghost use Rattle.std.specs.Prelude.{◌≡◌, ◌≢◌, ◌≤◌, ◌<◌, ◌↔◌, ℕ, suc, [], None, Some, IfErr, IfOk, MatchOption, MatchResult, OnOk, false, length, slice_get, true};
ghost use Rattle.sw_core.specs.Event as core;
ghost use Rattle.sw_core.specs.World.{numbered};
ghost use Rattle.sw_script.specs.declared.event.Event.TheVariants as event;
ghost use Rattle.sw_sim_exchange.specs.Work.{work_of};
ghost use Rattle.sw_sim_exchange.specs.declared.letter.Letter.{Letter as ALetter};
ghost use Rattle.sw_sim_world.specs.Leading.{DeliversFrom, DoesIt, FaultsBy, GivesUpOpen, LeadsBy, LeadsByOne};
ghost use Rattle.sw_sim_world.specs.ScriptedWorld.{ScriptedWorld, open_tickets};
ghost use Rattle.sw_sim_world.specs.Standing.{Stands, StandsFor, exchange_of};
ghost use Rattle.sw_sim_world.specs.Unfolding.{RunsOut};

use crate::fault::StepFault;
use crate::inner::{Inner, ends_told};
use crate::told::Told;
use sw_message::Link;
use sw_sim_exchange::{Content, EndLine};
use sw_types::NoMemory;

impl<'a> Inner<'a> {
    /// Delivers the message of this number.
    pub(crate) fn deliver(&mut self, message: u64) -> Result<Told, StepFault>
        requires { Stands self.old }
        ensures does { (before : ScriptedWorld) → StandsFor self.old before → IfOk result (λ told. DoesIt (event.Deliver message) before told self.new) }
        ensures faults { (before : ScriptedWorld) → StandsFor self.old before → IfErr result (λ fault. FaultsBy (event.Deliver message) before fault self.old self.new) }
        ensures cluster { self.new.cluster ≡ self.old.cluster }
    {
        let slot = self.slot_of(message)?;
        let count = self.exchange.letters().len();
        let mut ends = Vec::new(self.alloc);
        self.deliver_at(slot, &mut ends)?;
        Ok(self.told_since(count, None, ends)?)
    }

    /// Delivers the least message that waits, until none does. All that there are count as delivered then, so that the next time may begin behind them.
    pub(crate) fn deliver_all(&mut self) -> Result<Told, NoMemory>
        requires { Stands self.old }
        ensures does { (before : ScriptedWorld) → StandsFor self.old before → IfOk result (λ told. DoesIt event.All before told self.new) }
        ensures behind { OnOk result (self.new.first ≡ length self.new.letters) }
        ensures cluster { self.new.cluster ≡ self.old.cluster }
    {
        let mut ends = Vec::new(self.alloc);
        self.deliver_from(self.first, &mut ends)?;
        self.first = self.exchange.letters().len();
        Ok(ends_told(self.alloc, ends))
    }

    /// Has an operation give up each message that is open.
    pub(crate) fn give_up_open(&mut self, number: u64) -> Result<Told, StepFault>
        requires { Stands self.old }
        ensures does { (before : ScriptedWorld) → StandsFor self.old before → IfOk result (λ told. DoesIt (event.GiveUp number) before told self.new) }
        ensures faults { (before : ScriptedWorld) → StandsFor self.old before → IfErr result (λ fault. FaultsBy (event.GiveUp number) before fault self.old self.new) }
        ensures cluster { self.new.cluster ≡ self.old.cluster }
    {
        if number == 0 || number > self.exchange.started() as u64 {
            return Err(StepFault::NoSuchOperation);
        }
        let count = self.exchange.letters().len();
        let mut ends = Vec::new(self.alloc);
        self.give_up_each(number, &mut ends)?;
        Ok(self.told_since(count, None, ends)?)
    }

    /// Takes an operation to its end: its own messages, which begin at this slot, are delivered until none waits; then it gives up
    /// those that are open, and so on.
    pub(crate) fn run_out(
        &mut self,
        number: u64,
        first: usize,
        ends: &mut Vec<EndLine>,
    ) -> Result<(), NoMemory>
        requires stands { Stands self.old }
        requires number { (0 < number) × (number ≤ length self.old.operations) }
        requires own { (slot : ℕ) (letter : ALetter) → slice_get self.old.letters slot ≡ Some letter → (letter.operation ≡ number) ↔ (first ≤ slot) }
        ensures leads { (before : ScriptedWorld) → StandsFor self.old before → OnOk result (LeadsBy (RunsOut number before []) before self.new ends.old.items ends.new.items) }
        ensures cluster { self.new.cluster ≡ self.old.cluster }
    {
        self.deliver_from(first, ends)?;
        'rounds: while !self.exchange.is_over(number) {
            let count = self.exchange.letters().len();
            self.give_up_each(number, ends)?;
            self.deliver_from(count, ends)?;
        }
        Ok(())
    }

    // Delivers the messages that wait, from this slot on, the first of them first, until none does.
    fn deliver_from(&mut self, from: usize, ends: &mut Vec<EndLine>) -> Result<(), NoMemory>
        requires stands { Stands self.old }
        ensures leads { (before : ScriptedWorld) → StandsFor self.old before → OnOk result (LeadsBy (DeliversFrom from before) before self.new ends.old.items ends.new.items) }
        ensures work { OnOk result (work_of (exchange_of self.new) ≤ work_of (exchange_of self.old)) }
        ensures first { self.new.first ≡ self.old.first }
        ensures cluster { self.new.cluster ≡ self.old.cluster }
    {
        let mut slot = from;
        'each: while let Some(next) = self.waiting_from(slot) {
            self.deliver_at(next, ends)?;
            slot = next;
        }
        Ok(())
    }

    // The slot of the first message that waits, from this slot on.
    fn waiting_from(&self, from: usize) -> Option<usize>
        ensures { MatchOption result
            ((slot : ℕ) (letter : ALetter) → from ≤ slot → slice_get self.now.letters slot ≡ Some letter → letter.is_delivered ≡ true)
            (λ next. (from ≤ next) × (letter : ALetter) × (slice_get self.now.letters next ≡ Some letter) × (letter.is_delivered ≡ false)
            × ((slot : ℕ) (one : ALetter) → from ≤ slot → slot < next → slice_get self.now.letters slot ≡ Some one → one.is_delivered ≡ true)) }
    {
        let letters = self.exchange.letters();
        'slots: for slot in from..letters.len() {
            if !letters[slot].is_delivered {
                return Some(slot);
            }
        }
        None
    }

    // Delivers the message at this slot: a request to its device, and a reply to its operation.
    fn deliver_at(&mut self, slot: usize, ends: &mut Vec<EndLine>) -> Result<(), NoMemory>
        requires stands { Stands self.old }
        requires slot { slot < length self.old.letters }
        ensures leads { (before : ScriptedWorld) → StandsFor self.old before → OnOk result (LeadsByOne (core.Deliver (suc slot)) before self.new ends.old.items ends.new.items) }
        ensures work { (letter : ALetter) → slice_get self.old.letters slot ≡ Some letter → letter.is_delivered ≡ false → OnOk result (work_of (exchange_of self.new) < work_of (exchange_of self.old)) }
        ensures first { self.new.first ≡ self.old.first }
        ensures cluster { self.new.cluster ≡ self.old.cluster }
    {
        let letter = &self.exchange.letters()[slot];
        let (operation, ticket, device) = (letter.operation, letter.ticket, letter.device);
        match &letter.content {
            Content::Request(msg) => {
                let reply = self.nodes.call(device, msg);
                if self.nodes.is_wanting() {
                    return Err(NoMemory);
                }
                self.exchange.mark(slot);
                self.exchange.answered(operation, ticket, device, reply)
            }
            Content::Answer(_) => match self.exchange.take_reply(slot) {
                Some(reply) => self.exchange.tell(operation, ticket, Some(reply), ends),
                None => Ok(()),
            },
        }
    }

    // An operation gives up each ticket that is open, one after the other.
    fn give_up_each(&mut self, number: u64, ends: &mut Vec<EndLine>) -> Result<(), NoMemory>
        requires stands { Stands self.old }
        requires number { (0 < number) × (number ≤ length self.old.operations) }
        ensures leads { (before : ScriptedWorld) → StandsFor self.old before → OnOk result (LeadsBy (GivesUpOpen number before) before self.new ends.old.items ends.new.items) }
        ensures work { OnOk result (work_of (exchange_of self.new) ≤ work_of (exchange_of self.old)) }
        ensures fewer { (before : ScriptedWorld) → StandsFor self.old before → open_tickets number before ≢ [] → OnOk result (work_of (exchange_of self.new) < work_of (exchange_of self.old)) }
        ensures first { self.new.first ≡ self.old.first }
        ensures cluster { self.new.cluster ≡ self.old.cluster }
    {
        let count = self.exchange.handed_out(number);
        'tickets: for ticket in 0..count {
            self.exchange.tell(number, ticket as u64, None, ends)?;
        }
        Ok(())
    }

    /// The slot of the message of this number.
    pub(crate) fn slot_of(&self, message: u64) -> Result<usize, StepFault>
        ensures { MatchResult result
            (λ slot. (message ≡ suc slot) × (slot < length self.now.letters))
            (λ fault. (fault ≡ StepFault.NoSuchMessage) × (numbered self.now.letters message ≡ None)) }
    {
        self.exchange
            .slot_of(message)
            .ok_or(StepFault::NoSuchMessage)
    }
}
