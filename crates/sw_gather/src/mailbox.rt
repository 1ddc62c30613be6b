//! What an operation has handed out, and the answers that are to be read.

ghost use Rattle.std.specs.Prelude.{◌≡◌, ◌+◌, ◌<◌, ◌++◌, ◌∷◌, [], List, Some, IfOk, IsSome, MatchOption, OnErr, drop, length, nat_lt, slice_get};
ghost use Rattle.std.specs.VecDeque.{deque_capacity, deque_len};
ghost use Rattle.sw_message.specs.Transcript.{Gave, Step, after_answer, open_at};
ghost use Rattle.sw_message.specs.declared.sent.Sent.{Sent as ASent};
ghost use Rattle.sw_gather.specs.Mailbox.{GoesWith, IsOneMore, Unread, answer_to};

use std::alloc::Global;
use std::collections::VecDeque;
use std::marker::Model;
use sw_message::{Reply, Tickets};
use sw_types::NoMemory;

/// The errands that were handed out, by their tickets, and the answers that were taken and are to be read. There is room for an
/// answer to each open one.
#[derive(Debug, Drop)]
pub struct Mailbox<E> {
    tickets: Tickets,
    errands: Vec<E>,
    waiting: usize,
    unread: VecDeque<(E, Option<Reply>)>,
}

impl<E> Model for Mailbox<E> {
    ghost use Rattle.std.specs.Prelude.{◌+◌, ◌≤◌, List, length};
    ghost use Rattle.std.specs.VecDeque.{deque_capacity};
    ghost use Rattle.sw_message.specs.Transcript.{Step};
    ghost use Rattle.sw_gather.specs.MailboxInside.{mailbox_seen};
    ghost use Rattle.sw_gather.specs.Mailbox.{GoesWith, MailboxModel};

    ghost Value = { MailboxModel E };

    ghost view = { mailbox_seen };

    ghost invariant = { λ mailbox. ((past : List Step) × GoesWith (mailbox_seen mailbox) past) × (length mailbox.unread.items + mailbox.waiting ≤ deque_capacity mailbox.unread) };
}

impl<E: Copy> Mailbox<E> {
    /// Nothing was handed out.
    pub fn new(alloc: Global) -> Mailbox<E>
        ensures goes_with { GoesWith result [] }
        ensures unread { result.unread ≡ [] }
    {
        Mailbox {
            tickets: Tickets::new(alloc),
            errands: Vec::new(alloc),
            waiting: 0,
            unread: VecDeque::new(alloc),
        }
    }

    /// The ticket of one errand more.
    pub fn hand_out(&mut self, errand: E) -> Result<u64, NoMemory>
        ensures ticket { IfOk result (λ ticket. ticket ≡ length self.old.tickets) }
        ensures goes_with { IfOk result (λ ticket. (past : List Step) (sent : ASent) → GoesWith self.old past → sent.ticket ≡ ticket → GoesWith self.new (Gave sent ∷ past)) }
        ensures count { IfOk result (λ _. IsOneMore (length self.old.tickets) (length self.new.tickets)) }
        ensures errands { IfOk result (λ _. self.new.errands ≡ self.old.errands ++ errand ∷ []) }
        ensures unread { IfOk result (λ _. self.new.unread ≡ self.old.unread) }
        ensures refused { OnErr result (self.new ≡ self.old) }
    {
        self.unread.reserve(self.waiting + 1)?;
        self.errands.reserve(1)?;
        let ticket = self.tickets.hand_out()?;
        self.errands.push_reserved(errand);
        self.waiting += 1;
        Ok(ticket)
    }

    /// Takes the answer to a ticket, or that there is none. A ticket that is not open is ignored. It takes no memory.
    pub fn take(&mut self, ticket: u64, answer: Option<Reply>)
        ensures goes_with { (past : List Step) → GoesWith self.old past → GoesWith self.new (after_answer past ticket answer) }
        ensures taken { (past : List Step) → GoesWith self.old past → MatchOption (open_at ticket past)
            (self.new.unread ≡ self.old.unread)
            (λ sent. (errand : E) × (slice_get self.old.errands sent.ticket ≡ Some errand) × (self.new.unread ≡ self.old.unread ++ (errand, answer) ∷ [])) }
        ensures errands { self.new.errands ≡ self.old.errands }
        ensures count { length self.new.tickets ≡ length self.old.tickets }
    {
        let mut errand = None;
        if self.tickets.close(ticket) {
            errand = self.errands.get(ticket as usize).copied();
            self.waiting -= 1;
        }
        push_answer(&mut self.unread, errand, answer);
    }

    /// The first answer that is to be read.
    pub fn first(&self) -> Option<&(E, Option<Reply>)>
        ensures { MatchOption result (self.now.unread ≡ []) (λ first. (rest : List (Unread E)) × (self.now.unread ≡ first.now ∷ rest)) }
    {
        self.unread.front()
    }

    /// Takes out the first answer that is to be read.
    pub fn take_first(&mut self) -> Option<(E, Option<Reply>)>
        ensures { MatchOption result ((self.old.unread ≡ []) × (self.new ≡ self.old)) (λ first. (self.old.unread ≡ first ∷ self.new.unread) × (self.new ≡ record self.old { unread = self.new.unread })) }
    {
        self.unread.pop_front()
    }

    /// Lets the first answer go.
    pub fn drop_first(&mut self)
        ensures { self.new ≡ record self.old { unread = drop 1 self.old.unread } }
    {
        self.unread.pop_front();
    }

    /// Whether an errand is open.
    pub fn is_waiting(&self) -> bool
        ensures { result ≡ nat_lt 0 self.now.waiting }
    {
        self.waiting > 0
    }

    /// How many errands were handed out.
    pub fn count(&self) -> usize
        ensures { result ≡ length self.now.tickets }
    {
        self.tickets.count()
    }
}

// Puts the answer to an errand last, if there is an errand. It takes no memory.
fn push_answer<E>(
    unread: &mut VecDeque<(E, Option<Reply>)>,
    errand: Option<E>,
    answer: Option<Reply>,
)
    requires { IsSome errand → deque_len unread.old < deque_capacity unread.old }
    ensures items { unread.new.items ≡ unread.old.items ++ answer_to errand answer }
    ensures capacity { deque_capacity unread.new ≡ deque_capacity unread.old }
{
    if let Some(errand) = errand {
        unread.push_back_reserved((errand, answer));
    }
}
