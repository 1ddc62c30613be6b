//! Questions to one device.

ghost use Rattle.std.specs.Prelude.{◌≡◌, List, [], IfSome, is_some};
ghost use Rattle.sw_ring.specs.Cluster.{ClusterModel};
ghost use Rattle.sw_message.specs.Learnt.{Nothing};
ghost use Rattle.sw_message.specs.Message.{IsMember};
ghost use Rattle.sw_message.specs.Transcript.{Step, after_answer};
ghost use Rattle.sw_daemon.specs.Asking.{Stands, has_ended, left};
ghost use Rattle.sw_daemon.specs.Question.{Begun, IsEnd, IsNext};

use crate::progress::Progress;
use crate::survey::Survey;
use std::mem::replace;
use sw_message::{Operation, Reply, Sent};
use sw_types::NoMemory;

/// A question to one device about what it has: an operation of one message.
#[derive(Debug, Drop)]
pub(crate) struct Question {
    device: u16,
    survey: Survey,
    progress: Progress,
}

impl Question {
    /// One that was not yet asked.
    pub(crate) fn new(device: u16, survey: Survey) -> Question
        ensures { (cluster : ClusterModel) → IsMember cluster device → Stands result (record { cluster = cluster; device = device; survey = survey }) [] }
    {
        Question {
            device,
            survey,
            progress: Progress::Starts,
        }
    }

    /// The answer, or that there is none, once it is over, as far as `next` has seen.
    pub(crate) fn answer(&self) -> Option<&Option<Reply>>
        ensures end { (begun : Begun) (past : List Step) → Stands self.now begun past → IfSome result (λ answer. IsEnd begun past answer.now) }
        ensures ended { is_some result ≡ has_ended self.now.progress }
    {
        match &self.progress {
            Progress::Ended(answer) => Some(answer),
            _ => None,
        }
    }

    // Takes the answer to a ticket, or that there is none. One that is not open is ignored.
    fn hear(&mut self, ticket: u64, answer: Option<Reply>)
        ensures stands { (begun : Begun) (past : List Step) → Stands self.old begun past → Stands self.new begun (after_answer past ticket answer) }
        ensures ended { has_ended self.new.progress ≡ has_ended self.old.progress }
        ensures left { left self.new.progress ≡ left self.old.progress }
    {
        if ticket == 0 && matches!(self.progress, Progress::Waits) {
            self.progress = Progress::Told(answer);
        }
    }
}

impl Operation for Question {
    ghost Begun = { Begun };

    ghost cluster = { λ begun. begun.cluster };

    ghost own = { λ begun. Nothing };

    ghost machine = { IsNext };

    ghost stands = { λ question begun past. Stands question begun past };

    ghost has_ended = { λ question. has_ended question.progress };

    ghost left = { λ question. left question.progress };

    fn next(&mut self) -> Result<Option<Sent>, NoMemory> {
        match replace(&mut self.progress, Progress::Waits) {
            Progress::Starts => Ok(Some(Sent {
                ticket: 0,
                device: self.device,
                msg: self.survey.message(),
            })),
            Progress::Waits => Ok(None),
            Progress::Told(answer) | Progress::Ended(answer) => {
                self.progress = Progress::Ended(answer);
                Ok(None)
            }
        }
    }

    fn take(&mut self, ticket: u64, reply: Reply) {
        self.hear(ticket, Some(reply));
    }

    fn give_up(&mut self, ticket: u64) {
        self.hear(ticket, None);
    }

    fn ended(&self) -> bool {
        matches!(self.progress, Progress::Ended(_))
    }
}
