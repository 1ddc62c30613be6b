//! A get reads the answers that it took.

ghost use Rattle.std.specs.Prelude.{◌≡◌, ◌+◌, ◌<◌, [], List, OnOk, IfOk, length, true, false};
ghost use Rattle.sw_message.specs.Floors.{highest_from};
ghost use Rattle.sw_message.specs.Transcript.{Step};
ghost use Rattle.sw_get.specs.Get.{Begun, shown_by};
ghost use Rattle.sw_get.specs.Meaning.{asked_meaning};
ghost use Rattle.sw_get.specs.Standing.{BeginsWith, Stands, shown_gone};
ghost use Rattle.sw_get.specs.declared.errand.Errand.TheVariants as errand;

use crate::errand::Errand;
use crate::get::GetOp;
use sw_hashdir::Floor;
use sw_message::{Reply, Target, highest_with};
use sw_types::{NoMemory, Stamp};

impl GetOp {
    /// Reads the answers that were taken, the first of them first. Where memory is wanted, those that were read stay read.
    pub(crate) fn read_all(&mut self) -> Result<(), NoMemory>
        ensures stands { (begun : Begun) (past : List Step) → Stands self.old begun past → Stands self.new begun past }
        ensures read { OnOk result (self.new.mailbox.unread ≡ []) }
        ensures count { length self.new.mailbox.tickets ≡ length self.old.mailbox.tickets }
        ensures end { self.new.end ≡ self.old.end }
    {
        while self.read_first()? {}
        Ok(())
    }

    // Reads the first answer, if there is one.
    fn read_first(&mut self) -> Result<bool, NoMemory>
        ensures stands { (begun : Begun) (past : List Step) → Stands self.old begun past → Stands self.new begun past }
        ensures fewer { IfOk result (λ found. found ≡ true → length self.new.mailbox.unread < length self.old.mailbox.unread) }
        ensures read { IfOk result (λ found. found ≡ false → self.new.mailbox.unread ≡ []) }
        ensures count { length self.new.mailbox.tickets ≡ length self.old.mailbox.tickets }
        ensures end { self.new.end ≡ self.old.end }
    {
        let Some((errand, _)) = self.mailbox.first() else {
            return Ok(false);
        };
        match *errand {
            Errand::Ask(device) => self.read_asked(device)?,
            Errand::Fetch { stamp, source } => self.read_fetched(stamp, source)?,
        }
        Ok(true)
    }

    // Reads the first answer, which is that of a device that was asked.
    fn read_asked(&mut self, device: u16) -> Result<(), NoMemory>
        requires { BeginsWith self.old.mailbox.unread (errand.Ask device) }
        ensures stands { (begun : Begun) (past : List Step) → Stands self.old begun past → Stands self.new begun past }
        ensures fewer { OnOk result (length self.new.mailbox.unread < length self.old.mailbox.unread) }
        ensures count { length self.new.mailbox.tickets ≡ length self.old.mailbox.tickets }
        ensures end { self.new.end ≡ self.old.end }
    {
        self.round.make_room()?;
        if let Some((_, answer)) = self.mailbox.take_first() {
            self.target = target_asked(self.target, &answer);
            self.round.hear_asked(device, answer);
        }
        Ok(())
    }

    // Reads the first answer, which is that of a source from which an archive was fetched.
    fn read_fetched(&mut self, stamp: Stamp, source: Target) -> Result<(), NoMemory>
        requires { BeginsWith self.old.mailbox.unread (errand.Fetch stamp source) }
        ensures stands { (begun : Begun) (past : List Step) → Stands self.old begun past → Stands self.new begun past }
        ensures fewer { OnOk result (length self.new.mailbox.unread < length self.old.mailbox.unread) }
        ensures count { length self.new.mailbox.tickets ≡ length self.old.mailbox.tickets }
        ensures end { self.new.end ≡ self.old.end }
    {
        let Some((_, answer)) = self.mailbox.first() else {
            return Ok(());
        };
        self.round.hear_fetched(self.alloc, &self.policy, &self.name, stamp, source, answer)?;
        self.target = target_fetched(self.target, answer);
        self.mailbox.drop_first();
        Ok(())
    }
}

// The greatest floor, with those that the answer to a question shows.
fn target_asked(target: Option<Floor>, answer: &Option<Reply>) -> Option<Floor>
    ensures { result ≡ highest_from target (shown_by (asked_meaning answer.now)) }
{
    match answer {
        Some(Reply::Held(listing)) => highest_with(target, listing),
        _ => target,
    }
}

// The greatest floor, with those that the answer to a fetch shows.
fn target_fetched(target: Option<Floor>, answer: &Option<Reply>) -> Option<Floor>
    ensures { result ≡ highest_from target (shown_gone answer.now) }
{
    match answer {
        Some(Reply::Gone(listing)) => highest_with(target, listing),
        _ => target,
    }
}
