//! Why a device did not do what it was asked.

ghost use Rattle.std.specs.Prelude.{◌≡◌};
ghost use Rattle.sw_message.specs.Miss.{miss_of};

use crate::reply::Reply;
use crate::spoil::Spoil;

/// Why a device did not do what it was asked.
#[derive(Clone, Copy, Debug, PartialEq, Eq)]
pub enum Miss {
    /// The message was given up.
    NoReply,
    /// It replied that its disk failed,
    DiskFault,
    /// that the disk is full,
    NoSpace { need: u64, free: u64 },
    /// that memory was wanted,
    NoMemory,
    /// that the bytes are not the archive's,
    Spoiled(Spoil),
    /// that an archive to be made durable or removed is not there,
    Missing,
    /// that an archive that was asked for is not there.
    Gone,
    /// The reply is of a kind that does not answer the message.
    Odd,
}

impl Miss {
    /// What a reply is a miss of that does not answer its message: a refusal that each message can have, or else an odd one.
    pub fn of(reply: &Reply) -> Miss
        ensures { result ≡ miss_of reply.now }
    {
        match reply {
            Reply::DiskFault => Miss::DiskFault,
            Reply::NoSpace { need, free } => Miss::NoSpace {
                need: *need,
                free: *free,
            },
            Reply::NoMemory => Miss::NoMemory,
            Reply::Spoiled(spoil) => Miss::Spoiled(*spoil),
            _ => Miss::Odd,
        }
    }
}
