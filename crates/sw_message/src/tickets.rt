//! The tickets of an operation.

ghost use Rattle.std.specs.Prelude.{◌≡◌, ◌+◌, [], ◌∷◌, List, Option, IfOk, OnErr, is_some, length};
ghost use Rattle.sw_message.specs.Tickets.{AreTickets};
ghost use Rattle.sw_message.specs.Transcript.{Gave, Step, after_answer, given, is_waiting, open_at};
ghost use Rattle.sw_message.specs.declared.reply.Reply.{Reply as AReply};
ghost use Rattle.sw_message.specs.declared.sent.Sent.{Sent as ASent};

use std::alloc::Global;
use std::marker::Model;
use sw_types::NoMemory;

/// Which messages of an operation are open. A ticket is the number of messages that were handed out before it.
#[derive(Debug, Drop)]
pub struct Tickets {
    are_open: Vec<bool>,
}

impl Model for Tickets {
    ghost use Rattle.std.specs.Prelude.{Bool, List};

    ghost Value = { List Bool };

    ghost view = { λ tickets. tickets.are_open.items };
}

impl Tickets {
    /// Those of an operation that has handed out nothing.
    pub fn new(alloc: Global) -> Tickets
        ensures { AreTickets result [] }
    {
        Tickets {
            are_open: Vec::new(alloc),
        }
    }

    /// How many messages were handed out.
    pub fn count(&self) -> usize
        ensures counted { result ≡ length self.now }
        ensures given { (past : List Step) → AreTickets self.now past → result ≡ length (given past) }
    {
        self.are_open.len()
    }

    /// The ticket of one message more.
    pub fn hand_out(&mut self) -> Result<u64, NoMemory>
        ensures ticket { IfOk result (λ ticket. ticket ≡ length self.old) }
        ensures goes_on { IfOk result (λ ticket. (past : List Step) (sent : ASent) → AreTickets self.old past → sent.ticket ≡ ticket → AreTickets self.new (Gave sent ∷ past)) }
        ensures count { IfOk result (λ ticket. length self.new ≡ length self.old + 1) }
        ensures refused { OnErr result (self.new ≡ self.old) }
    {
        let ticket = self.are_open.len() as u64;
        self.are_open.push(true)?;
        Ok(ticket)
    }

    /// Closes a ticket, and says whether it was open.
    pub fn close(&mut self, ticket: u64) -> bool
        ensures was_open { (past : List Step) → AreTickets self.old past → result ≡ is_some (open_at ticket past) }
        ensures goes_on { (past : List Step) (answer : Option AReply) → AreTickets self.old past → AreTickets self.new (after_answer past ticket answer) }
        ensures count { length self.new ≡ length self.old }
    {
        match self.are_open.get_mut(ticket as usize) {
            Some(is_open) => std::mem::replace(is_open, false),
            None => false,
        }
    }

    /// Whether some message is open.
    pub fn is_waiting(&self) -> bool
        ensures { (past : List Step) → AreTickets self.now past → result ≡ is_waiting past }
    {
        self.are_open.contains(&true)
    }
}
