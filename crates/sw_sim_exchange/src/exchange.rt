//! The messages that were made, and the operations that were started.

ghost use Rattle.std.specs.Prelude.{◌≡◌, ◌≤◌, ◌<◌, ◌++◌, ◌↔◌, suc, [], ◌∷◌, List, None, Some, IfOk, MatchOption, OnOk, Option, length, map, option_to_list, slice_get, slice_set, true};
ghost use Rattle.sw_message.specs.Transcript.{Step, after_answer, open_at};
ghost use Rattle.sw_message.specs.declared.reply.Reply.{Reply as AReply};
ghost use Rattle.sw_message.specs.declared.sent.Sent.{Sent as ASent};
ghost use Rattle.sw_operation.specs.Operating.{Begun};
ghost use Rattle.sw_core.specs.World.{numbered};
ghost use Rattle.sw_sim_exchange.specs.Exchange.{Proceeded, slot_of};
ghost use Rattle.sw_sim_exchange.specs.Kept.{IsAt};
ghost use Rattle.sw_sim_exchange.specs.Letters.{answer_letter, emptied, marked};
ghost use Rattle.sw_sim_exchange.specs.Work.{work_of};
ghost use Rattle.sw_sim_exchange.specs.declared.letter.Content.TheVariants.{Answer};
ghost use Rattle.sw_sim_exchange.specs.declared.letter.Letter.{Letter as ALetter};
ghost use Rattle.sw_sim_exchange.specs.declared.operating.Operating.{Operating as AnOperating};

use crate::letter::{Content, Letter};
use crate::lines::EndLine;
use crate::operating::Operating;
use std::alloc::Global;
use std::marker::Model;
use sw_message::Reply;
use sw_operation::AnyOp;
use sw_types::NoMemory;

/// The messages that were made and the operations that were started, both numbered from 1 in the order in which they were.
#[derive(Drop)]
pub struct Exchange<'a> {
    alloc: Global,
    letters: Vec<Letter>,
    operations: Vec<Operating<'a>>,
}

impl<'a> Model for Exchange<'a> {
    ghost use Rattle.sw_sim_exchange.specs.Exchange.{ExchangeModel};
    ghost use Rattle.sw_sim_exchange.specs.ExchangeInside.{exchange_seen};

    ghost Value = { ExchangeModel };

    ghost view = { exchange_seen };
}

impl<'a> Exchange<'a> {
    /// One in which nothing was started.
    pub fn new(alloc: Global) -> Exchange<'a>
        ensures { result ≡ record { letters = []; operations = [] } }
    {
        Exchange {
            alloc,
            letters: Vec::new(alloc),
            operations: Vec::new(alloc),
        }
    }

    /// The messages that were made, the first of them first.
    pub fn letters(&self) -> &[Letter]
        ensures { result.now ≡ self.now.letters }
    {
        &self.letters
    }

    /// How many operations were started.
    pub fn started(&self) -> usize
        ensures { result ≡ length self.now.operations }
    {
        self.operations.len()
    }

    /// The slot of the message of this number, if there is one.
    pub fn slot_of(&self, message: u64) -> Option<usize>
        ensures { MatchOption result
            (numbered self.now.letters message ≡ None)
            (λ slot. (message ≡ suc slot) × (slot < length self.now.letters)) }
    {
        if message == 0 || message > self.letters.len() as u64 {
            return None;
        }
        Some((message - 1) as usize)
    }

    /// Marks the message at this slot as delivered.
    pub fn mark(&mut self, slot: usize)
        requires { slot < length self.old.letters }
        ensures { (letter : ALetter) → slice_get self.old.letters slot ≡ Some letter → self.new ≡ record self.old { letters = slice_set self.old.letters slot (marked letter) } }
    {
        self.letters[slot].is_delivered = true;
    }

    /// Delivers the reply at this slot, whose content is none once it was delivered.
    pub fn take_reply(&mut self, slot: usize) -> Option<Reply>
        requires { slot < length self.old.letters }
        ensures { (letter : ALetter) (kept : Option AReply) → slice_get self.old.letters slot ≡ Some letter → letter.content ≡ Answer kept →
            (result ≡ kept) × (self.new ≡ record self.old { letters = slice_set self.old.letters slot (emptied letter) }) }
    {
        let letter = &mut self.letters[slot];
        letter.is_delivered = true;
        match &mut letter.content {
            Content::Request(_) => None,
            Content::Answer(reply) => reply.take(),
        }
    }

    /// Keeps the reply to a request as a message, if there is one.
    pub fn answered(
        &mut self,
        operation: u64,
        ticket: u64,
        device: u16,
        reply: Option<Reply>,
    ) -> Result<(), NoMemory>
        ensures { OnOk result (self.new ≡ record self.old { letters = self.old.letters ++ map (answer_letter operation ticket device) (option_to_list reply) }) }
    {
        if reply.is_some() {
            self.letters.push(Letter {
                operation,
                ticket,
                device,
                is_delivered: false,
                content: Content::Answer(reply),
            })?;
        }
        Ok(())
    }

    /// Keeps an operation as one more, and answers its number.
    pub fn keep(&mut self, op: AnyOp<'a>) -> Result<u64, NoMemory>
        ensures { IfOk result (λ number. (number ≡ suc (length self.old.operations))
            × (self.new ≡ record self.old { operations = self.old.operations ++ record { op = Some op.entry; tickets = [] } ∷ [] })) }
    {
        self.operations.push(Operating::new(self.alloc, op))?;
        Ok(self.operations.len() as u64)
    }

    /// An operation hands out what it can, and its end is told where it is over.
    pub fn proceed(&mut self, number: u64, ends: &mut Vec<EndLine>) -> Result<(), NoMemory>
        requires { (0 < number) × (number ≤ length self.old.operations) }
        ensures { (kept : AnOperating) (begun : Begun) (past : List Step) → slice_get self.old.operations (slot_of number) ≡ Some kept → IsAt kept begun past →
            OnOk result (Proceeded number begun past self.old self.new ends.old.items ends.new.items × (work_of self.new ≤ work_of self.old)) }
    {
        let operating = &mut self.operations[(number - 1) as usize];
        let letters = &mut self.letters;
        'messages: while let Some(sent) = operating.next()? {
            letters.push(Letter::request(number, sent))?;
        }
        if let Some(end) = operating.take_end() {
            ends.push(EndLine {
                operation: number,
                end,
            })?;
        }
        Ok(())
    }

    /// An operation takes the answer to a ticket, or gives it up, and goes on; one that is not open is ignored.
    pub fn tell(
        &mut self,
        number: u64,
        ticket: u64,
        answer: Option<Reply>,
        ends: &mut Vec<EndLine>,
    ) -> Result<(), NoMemory>
        requires { (0 < number) × (number ≤ length self.old.operations) }
        ensures over { (kept : AnOperating) → slice_get self.old.operations (slot_of number) ≡ Some kept → kept.op ≡ None → OnOk result ((self.new ≡ self.old) × (ends.new.items ≡ ends.old.items)) }
        ensures closed { (kept : AnOperating) (begun : Begun) (past : List Step) → slice_get self.old.operations (slot_of number) ≡ Some kept → IsAt kept begun past → open_at ticket past ≡ None →
            OnOk result ((self.new ≡ self.old) × (ends.new.items ≡ ends.old.items)) }
        ensures heard { (kept : AnOperating) (begun : Begun) (past : List Step) (sent : ASent) → slice_get self.old.operations (slot_of number) ≡ Some kept → IsAt kept begun past → open_at ticket past ≡ Some sent →
            OnOk result (Proceeded number begun (after_answer past ticket answer) self.old self.new ends.old.items ends.new.items × (work_of self.new < work_of self.old)) }
    {
        if self.operations[(number - 1) as usize].hear(ticket, answer) {
            self.proceed(number, ends)?;
        }
        Ok(())
    }

    /// How many messages an operation has handed out; none where nothing is kept of it.
    pub fn handed_out(&self, number: u64) -> usize
        requires { (0 < number) × (number ≤ length self.now.operations) }
        ensures { (kept : AnOperating) → slice_get self.now.operations (slot_of number) ≡ Some kept → result ≡ length kept.tickets }
    {
        self.operations[(number - 1) as usize].count()
    }

    /// Whether an operation is over.
    pub fn is_over(&self, number: u64) -> bool
        requires { (0 < number) × (number ≤ length self.now.operations) }
        ensures { (kept : AnOperating) → slice_get self.now.operations (slot_of number) ≡ Some kept → (result ≡ true) ↔ (kept.op ≡ None) }
    {
        self.operations[(number - 1) as usize].is_over()
    }
}
