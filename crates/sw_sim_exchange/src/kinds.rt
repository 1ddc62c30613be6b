//! What is told of messages and replies.

ghost use Rattle.std.specs.Prelude.{◌≡◌};
ghost use Rattle.sw_sim_exchange.specs.Kinds.{answer_kind, request_kind};

use sw_message::{Msg, Reply};
use sw_types::Stamp;

/// What a message asks of a device, in the folder of a place.
#[derive(Clone, Copy, Debug)]
pub enum RequestKind {
    Put { index: u32 },
    Commit { index: u32 },
    Delete,
    Ask,
    Fetch { index: u32 },
    Remove { index: u32 },
}

/// What a reply to such a message says.
#[derive(Clone, Copy, Debug)]
pub enum AnswerKind {
    Synced,
    Committed,
    Deleted { existed: bool },
    Superseded { stamp: Stamp },
    Missing,
    Held,
    Fragment,
    Gone,
    Removed,
    Kept,
    NoSpace { need: u64, free: u64 },
    Spoiled,
}

impl RequestKind {
    /// What a message asks, or `None` where it is about no place.
    pub fn of(msg: &Msg) -> Option<RequestKind>
        ensures { result ≡ request_kind msg.now }
    {
        match msg {
            Msg::PutFrag { index, .. } => Some(RequestKind::Put { index: *index }),
            Msg::Commit { index, .. } => Some(RequestKind::Commit { index: *index }),
            Msg::Delete { .. } => Some(RequestKind::Delete),
            Msg::Ask { .. } => Some(RequestKind::Ask),
            Msg::Fetch { index, .. } => Some(RequestKind::Fetch { index: *index }),
            Msg::Remove { index, .. } => Some(RequestKind::Remove { index: *index }),
            Msg::Parts | Msg::Suffixes { .. } | Msg::Places { .. } => None,
        }
    }
}

impl AnswerKind {
    /// What a reply says, or `None` where it answers a message about no place, the disk failed or memory was wanted.
    pub fn of(reply: &Reply) -> Option<AnswerKind>
        ensures { result ≡ answer_kind reply.now }
    {
        match reply {
            Reply::Synced => Some(AnswerKind::Synced),
            Reply::Committed => Some(AnswerKind::Committed),
            Reply::Deleted { existed } => Some(AnswerKind::Deleted { existed: *existed }),
            Reply::Superseded(floor) => Some(AnswerKind::Superseded { stamp: floor.stamp }),
            Reply::Missing => Some(AnswerKind::Missing),
            Reply::Held(_) => Some(AnswerKind::Held),
            Reply::Fragment(_) => Some(AnswerKind::Fragment),
            Reply::Gone(_) => Some(AnswerKind::Gone),
            Reply::Spoiled(_) => Some(AnswerKind::Spoiled),
            Reply::Kept => Some(AnswerKind::Kept),
            Reply::Removed => Some(AnswerKind::Removed),
            Reply::NoSpace { need, free } => Some(AnswerKind::NoSpace {
                need: *need,
                free: *free,
            }),
            Reply::PartList(_) | Reply::SuffixList(_) | Reply::PlaceList(_) => None,
            Reply::DiskFault | Reply::NoMemory => None,
        }
    }
}
