//! How operations ended.

ghost use Rattle.std.specs.Prelude.{◌≡◌, List, MatchOption, is_some, true};
ghost use Rattle.sw_message.specs.Transcript.{Step};
ghost use Rattle.sw_operation.specs.Operating.{Begun};
ghost use Rattle.sw_operation.specs.Ends.{IsEndOf};
ghost use Rattle.sw_operation.specs.Standing.{Stands, has_ended};

use crate::any_op::AnyOp;
use crate::end::OpEnd;

impl<'a> AnyOp<'a> {
    /// How it ended, once `next` has found that it is over, handed out.
    pub fn into_end(self) -> Option<OpEnd>
        ensures ends { (begun : Begun) (past : List Step) → Stands self.entry begun past → has_ended self.entry ≡ true → MatchOption result ⊥ (IsEndOf begun past) }
        ensures ended { is_some result ≡ has_ended self.entry }
    {
        match self {
            AnyOp::Put(op) => Some(OpEnd::Put(op.into_end()?)),
            AnyOp::Get(op) => Some(OpEnd::Get(op.into_end()?)),
            AnyOp::Head(op) => Some(OpEnd::Head(op.into_end()?)),
            AnyOp::Delete(op) => Some(OpEnd::Delete(op.into_end()?)),
            AnyOp::Sync(job) => Some(OpEnd::Sync(job.into_end()?)),
            AnyOp::Revert(job) => Some(OpEnd::Revert(job.into_end()?)),
        }
    }
}
