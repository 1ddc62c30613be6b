//! What the answer to a delete says.

ghost use Rattle.std.specs.Prelude.{◌≡◌};
ghost use Rattle.sw_delete.specs.Delete.{says_existed};

use sw_message::Reply;

/// Whether it says that the floor was durable.
pub(crate) fn says_existed(answer: &Option<Reply>) -> bool
    ensures { result ≡ says_existed answer.now }
{
    match answer {
        Some(Reply::Deleted { existed }) => *existed,
        _ => false,
    }
}
