//! An operation that was started, as a world keeps it.

ghost use Rattle.std.specs.Prelude.{◌≡◌, ◌≤◌, ◌<◌, ◌⊎◌, ◌+◌, ℕ, suc, [], ◌∷◌, List, None, Some, IfOk, IfSome, MatchOption, false, is_none, is_some, length, true};
ghost use Rattle.sw_message.specs.Running.{IsOf};
ghost use Rattle.sw_message.specs.Transcript.{Gave, Hand, Over, Step, Wait, after_answer, open_at};
ghost use Rattle.sw_operation.specs.Operating.{Begun, IsNext, cluster_of};
ghost use Rattle.sw_operation.specs.Ends.{IsEndOf};
ghost use Rattle.sw_sim_exchange.specs.Kept.{IsAt, ended_in};
ghost use Rattle.sw_sim_exchange.specs.Work.{left_in, work_in};

use std::alloc::Global;
use sw_message::{Operation, Reply, Sent, Tickets};
use sw_operation::{AnyOp, OpEnd};
use sw_types::NoMemory;

/// An operation that was started; once it is over nothing is kept of it.
#[derive(Drop)]
pub(crate) struct Operating<'a> {
    op: Option<AnyOp<'a>>,
    // Which of its messages are open.
    tickets: Tickets,
}

impl<'a> Operating<'a> {
    /// One that has handed out nothing.
    pub(crate) fn new(alloc: Global, op: AnyOp<'a>) -> Operating<'a>
        ensures { result ≡ record { op = Some op.entry; tickets = [] } }
    {
        Operating {
            op: Some(op),
            tickets: Tickets::new(alloc),
        }
    }

    /// Whether it is over.
    pub(crate) fn is_over(&self) -> bool
        ensures { result ≡ is_none self.now.op }
    {
        self.op.is_none()
    }

    /// How many messages it has handed out.
    pub(crate) fn count(&self) -> usize
        ensures { result ≡ length self.now.tickets }
    {
        self.tickets.count()
    }

    /// Takes the answer to a ticket, or that it is given up where there is none, and says whether it was open.
    pub(crate) fn hear(&mut self, ticket: u64, answer: Option<Reply>) -> bool
        ensures over { self.old.op ≡ None → (result ≡ false) × (self.new ≡ self.old) }
        ensures was_open { (begun : Begun) (past : List Step) → IsAt self.old begun past → result ≡ is_some (open_at ticket past) }
        ensures goes_on { (begun : Begun) (past : List Step) → IsAt self.old begun past → IsAt self.new begun (after_answer past ticket answer) }
        ensures ended { ended_in self.new.op ≡ ended_in self.old.op }
        ensures count { length self.new.tickets ≡ length self.old.tickets }
        ensures work { (begun : Begun) (past : List Step) → IsAt self.old begun past → result ≡ true → suc (work_in self.new) ≡ work_in self.old }
        ensures idle { (begun : Begun) (past : List Step) → IsAt self.old begun past → result ≡ false → self.new ≡ self.old }
    {
        let Some(op) = &mut self.op else {
            return false;
        };
        if !self.tickets.close(ticket) {
            return false;
        }
        match answer {
            Some(reply) => op.take(ticket, reply),
            None => op.give_up(ticket),
        }
        true
    }

    /// The next message that it hands out.
    pub(crate) fn next(&mut self) -> Result<Option<Sent>, NoMemory>
        ensures over { self.old.op ≡ None → IfOk result (λ handed. (handed ≡ None) × (self.new ≡ self.old)) }
        ensures hands { (begun : Begun) (past : List Step) → IsAt self.old begun past → IfOk result (λ handed. MatchOption handed
            (IsAt self.new begun past × ((IsNext begun past Over × (ended_in self.new.op ≡ true)) ⊎ (IsNext begun past Wait × (ended_in self.new.op ≡ false))))
            (λ sent. IsNext begun past (Hand sent) × IsOf (cluster_of begun) sent.device sent.msg × IsAt self.new begun (Gave sent ∷ past) × (ended_in self.new.op ≡ false))) }
        ensures work { (begun : Begun) (past : List Step) → IsAt self.old begun past → IfOk result (λ handed. MatchOption handed
            (work_in self.new ≤ work_in self.old) (λ sent. work_in self.new + 3 ≤ work_in self.old)) }
        ensures fewer { IfOk result (λ handed. IfSome handed (λ sent. left_in self.new.op < left_in self.old.op)) }
    {
        let Some(op) = &mut self.op else {
            return Ok(None);
        };
        let Some(sent) = op.next()? else {
            return Ok(None);
        };
        self.tickets.hand_out()?;
        Ok(Some(sent))
    }

    /// How it ended, if it has; then nothing is kept of it.
    pub(crate) fn take_end(&mut self) -> Option<OpEnd>
        ensures ended { ended_in self.old.op ≡ true → MatchOption result ⊥ (λ end. (self.new.op ≡ None) × ((begun : Begun) (past : List Step) → IsAt self.old begun past → IsEndOf begun past end)) }
        ensures goes { ended_in self.old.op ≡ false → (result ≡ None) × (self.new ≡ self.old) }
        ensures work { work_in self.new ≤ work_in self.old }
    {
        match &self.op {
            Some(op) if op.ended() => self.op.take()?.into_end(),
            _ => None,
        }
    }
}
