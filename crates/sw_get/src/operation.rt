//! A get as an operation.

ghost use Rattle.std.specs.Prelude.{◌-◌, ◌^◌, is_some, length};
ghost use Rattle.sw_message.specs.Learnt.{Nothing};
ghost use Rattle.sw_get.specs.Get.{Begun, IsNext};
ghost use Rattle.sw_get.specs.Standing.{Stands};

use crate::get::GetOp;
use sw_message::{Operation, Reply, Sent};
use sw_types::NoMemory;

impl Operation for GetOp {
    ghost Begun = { Begun };

    ghost cluster = { λ begun. begun.cluster };

    ghost own = { λ begun. Nothing };

    ghost machine = { IsNext };

    ghost stands = { λ op begun past. Stands op begun past };

    ghost has_ended = { λ op. is_some op.end };

    ghost left = { λ op. 2 ^ 64 - length op.mailbox.tickets };

    fn next(&mut self) -> Result<Option<Sent>, NoMemory> {
        if self.end.is_some() {
            return Ok(None);
        }
        self.read_all()?;
        self.step()
    }

    fn take(&mut self, ticket: u64, reply: Reply) {
        self.answer(ticket, Some(reply));
    }

    fn give_up(&mut self, ticket: u64) {
        self.answer(ticket, None);
    }

    fn ended(&self) -> bool {
        self.end.is_some()
    }
}
