//! A put as an operation.

ghost use Rattle.std.specs.Prelude.{◌-◌, is_some, length};
ghost use Rattle.sw_message.specs.Learnt.{OwnPut};
ghost use Rattle.sw_put.specs.Put.{Begun, IsNext};
ghost use Rattle.sw_put.specs.Standing.{Stands, most_messages};

use crate::put::PutOp;
use sw_message::{Operation, Reply, Sent};
use sw_types::NoMemory;

impl Operation for PutOp {
    ghost Begun = { Begun };

    ghost cluster = { λ begun. begun.cluster };

    ghost own = { λ begun. OwnPut (record { stamp = begun.stamp; name = begun.name; object = begun.object }) };

    ghost machine = { IsNext };

    ghost stands = { λ op begun past. Stands op begun past };

    ghost has_ended = { λ op. is_some op.end };

    ghost left = { λ op. most_messages op - length op.tickets };

    fn next(&mut self) -> Result<Option<Sent>, NoMemory> {
        if self.end.is_some() {
            return Ok(None);
        }
        let count = self.tickets.count();
        if let Some(errand) = self.due(count) {
            return Ok(Some(self.hand_out(errand)?));
        }
        if self.lacks_answers() {
            return Ok(None);
        }
        self.end = Some(self.ending()?);
        Ok(None)
    }

    fn take(&mut self, ticket: u64, reply: Reply) {
        self.answer(ticket, Some(reply));
    }

    fn give_up(&mut self, ticket: u64) {
        self.answer(ticket, None);
    }

    fn ended(&self) -> bool {
        self.end.is_some()
    }
}
