//! What the answer to a write means.

use sw_hashdir::Floor;
use sw_message::Miss;

/// What the answer to a write means.
#[derive(Clone, Copy, Debug, PartialEq, Eq)]
pub enum Verdict {
    /// The device did what was asked.
    Done,
    /// The floor of its folder forbids it.
    Forbidden(Floor),
    /// It did not.
    Missed(Miss),
}
