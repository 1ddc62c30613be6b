//! What a device is asked about all that it has.

ghost use Rattle.std.specs.Prelude.{◌≡◌};
ghost use Rattle.sw_daemon.specs.Question.{message_of};

use sw_message::Msg;

/// What a device is asked.
#[derive(Clone, Copy, Debug, PartialEq, Eq)]
pub enum Survey {
    /// For its partitions.
    Parts,
    /// For the places of a partition.
    Places { part: u32 },
    /// For the suffixes of a partition, with their hashes.
    Suffixes { part: u32 },
}

impl Survey {
    /// Its message.
    pub(crate) fn message(self) -> Msg
        ensures { result ≡ message_of self }
    {
        match self {
            Survey::Parts => Msg::Parts,
            Survey::Places { part } => Msg::Places { part },
            Survey::Suffixes { part } => Msg::Suffixes { part },
        }
    }
}
