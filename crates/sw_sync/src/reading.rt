//! A sync reads the answers that it took.

ghost use Rattle.std.specs.Prelude.{◌≡◌, ◌<◌, List, [], IfOk, OnErr, OnOk, false, length, true};
ghost use Rattle.sw_message.specs.Transcript.{Step};
ghost use Rattle.sw_sync.specs.Standing.{Stands, has_ended};
ghost use Rattle.sw_sync.specs.Sync.{Begun};

use crate::sync::SyncJob;
use sw_types::NoMemory;

impl<'a> SyncJob<'a> {
    /// Reads the answers that were taken, the first of them first. Where memory is wanted, those that were read stay read.
    pub(crate) fn read_all(&mut self) -> Result<(), NoMemory>
        ensures stands { (begun : Begun) (past : List Step) → Stands self.old begun past → Stands self.new begun past }
        ensures read { OnOk result (self.new.mailbox.unread ≡ []) }
        ensures count { length self.new.mailbox.tickets ≡ length self.old.mailbox.tickets }
        ensures ended { has_ended self.new ≡ has_ended self.old }
    {
        while self.read_first()? {}
        Ok(())
    }

    // Reads the first answer, if there is one.
    fn read_first(&mut self) -> Result<bool, NoMemory>
        ensures stands { (begun : Begun) (past : List Step) → Stands self.old begun past → Stands self.new begun past }
        ensures fewer { IfOk result (λ found. found ≡ true → length self.new.mailbox.unread < length self.old.mailbox.unread) }
        ensures read { IfOk result (λ found. found ≡ false → self.new.mailbox.unread ≡ []) }
        ensures count { length self.new.mailbox.tickets ≡ length self.old.mailbox.tickets }
        ensures ended { has_ended self.new ≡ has_ended self.old }
        ensures refused { OnErr result (self.new ≡ self.old) }
    {
        let Some((errand, _)) = self.mailbox.first() else {
            return Ok(false);
        };
        let errand = *errand;
        let (state, mailbox) = (&mut self.state, &mut self.mailbox);
        state.hear_first(self.alloc, self.cluster, &self.place, errand, mailbox)?;
        Ok(true)
    }
}
