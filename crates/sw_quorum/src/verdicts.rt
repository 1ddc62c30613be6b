//! What the answers to writes of a stamp mean.

ghost use Rattle.std.specs.Prelude.{◌≡◌};
ghost use Rattle.sw_quorum.specs.Verdicts.{commit_verdict, delete_verdict, store_verdict};

use crate::verdict::Verdict;
use sw_message::{Miss, Reply, refuses, stands_above};
use sw_types::Stamp;

/// What the answer to a fragment of a stamp means.
pub fn store_verdict(stamp: Stamp, answer: &Option<Reply>) -> Verdict
    ensures { result ≡ store_verdict stamp answer.now }
{
    match answer {
        None => Verdict::Missed(Miss::NoReply),
        Some(Reply::Synced) => Verdict::Done,
        Some(Reply::Superseded(floor)) if stands_above(floor, stamp) => Verdict::Forbidden(*floor),
        Some(Reply::Superseded(_)) => Verdict::Missed(Miss::Odd),
        Some(other) => Verdict::Missed(Miss::of(other)),
    }
}

/// What the answer to a commit of a stamp means.
pub fn commit_verdict(stamp: Stamp, answer: &Option<Reply>) -> Verdict
    ensures { result ≡ commit_verdict stamp answer.now }
{
    match answer {
        None => Verdict::Missed(Miss::NoReply),
        Some(Reply::Committed) => Verdict::Done,
        Some(Reply::Superseded(floor)) if stands_above(floor, stamp) => Verdict::Forbidden(*floor),
        Some(Reply::Superseded(_)) => Verdict::Missed(Miss::Odd),
        Some(Reply::Missing) => Verdict::Missed(Miss::Missing),
        Some(other) => Verdict::Missed(Miss::of(other)),
    }
}

/// What the answer to a delete of a stamp means.
pub fn delete_verdict(stamp: Stamp, answer: &Option<Reply>) -> Verdict
    ensures { result ≡ delete_verdict stamp answer.now }
{
    match answer {
        None => Verdict::Missed(Miss::NoReply),
        Some(Reply::Deleted { .. }) => Verdict::Done,
        Some(Reply::Superseded(floor)) if refuses(floor, stamp) => Verdict::Forbidden(*floor),
        Some(Reply::Superseded(_)) => Verdict::Missed(Miss::Odd),
        Some(other) => Verdict::Missed(Miss::of(other)),
    }
}
