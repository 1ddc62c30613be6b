//! A revert as an operation.

ghost use Rattle.std.specs.Prelude.{◌-◌, ◌^◌, length};
ghost use Rattle.sw_message.specs.Learnt.{Nothing};
ghost use Rattle.sw_recon.specs.Revert.{Begun, IsNext};
ghost use Rattle.sw_recon.specs.Standing.{Stands, has_ended};

use crate::revert::RevertJob;
use crate::status::Status;
use sw_message::{Operation, Reply, Sent};
use sw_types::NoMemory;

impl<'a> Operation for RevertJob<'a> {
    ghost Begun = { Begun };

    ghost cluster = { λ begun. begun.cluster };

    ghost own = { λ begun. Nothing };

    ghost machine = { IsNext };

    ghost stands = { λ job begun past. Stands job begun past };

    ghost has_ended = { has_ended };

    ghost left = { λ job. 2 ^ 64 - length job.tickets };

    fn next(&mut self) -> Result<Option<Sent>, NoMemory> {
        self.read()?;
        if self.is_waiting {
            return Ok(None);
        }
        self.hand_out()
    }

    fn take(&mut self, ticket: u64, reply: Reply) {
        self.answer(ticket, Some(reply));
    }

    fn give_up(&mut self, ticket: u64) {
        self.answer(ticket, None);
    }

    fn ended(&self) -> bool {
        match self.status {
            Status::Ends(_) => true,
            _ => false,
        }
    }
}
