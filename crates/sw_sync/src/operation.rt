//! A sync as an operation.

ghost use Rattle.std.specs.Prelude.{◌-◌, ◌^◌, length};
ghost use Rattle.sw_message.specs.Learnt.{Nothing};
ghost use Rattle.sw_sync.specs.Standing.{Stands, has_ended};
ghost use Rattle.sw_sync.specs.Sync.{Begun, IsNext};

use crate::sync::SyncJob;
use sw_message::{Operation, Reply, Sent};
use sw_types::NoMemory;

impl<'a> Operation for SyncJob<'a> {
    ghost Begun = { Begun };

    ghost cluster = { λ begun. begun.cluster };

    ghost own = { λ begun. Nothing };

    ghost machine = { IsNext };

    ghost stands = { λ job begun past. Stands job begun past };

    ghost has_ended = { has_ended };

    ghost left = { λ job. 2 ^ 64 - length job.mailbox.tickets };

    fn next(&mut self) -> Result<Option<Sent>, NoMemory> {
        self.read_all()?;
        self.hand_out()
    }

    fn take(&mut self, ticket: u64, reply: Reply) {
        self.answer(ticket, Some(reply));
    }

    fn give_up(&mut self, ticket: u64) {
        self.answer(ticket, None);
    }

    fn ended(&self) -> bool {
        self.state.end().is_some()
    }
}
