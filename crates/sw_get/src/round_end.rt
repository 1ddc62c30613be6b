//! What a round does next, and how it ends.

use sw_hashdir::Floor;
use sw_message::Target;
use sw_types::Stamp;

/// How a round ends a get.
#[derive(Clone, Copy, Debug, PartialEq, Eq)]
pub enum RoundEnd {
    /// Archives of k indices were brought.
    Found { stamp: Stamp },
    /// No floor was shown, and fewer than c devices missed.
    Absent,
    /// The greatest floor that was shown is a tombstone.
    Buried { stamp: Stamp },
    /// Too many devices or sources missed.
    Unanswered,
    /// Every device answered, and archives of fewer than k indices are listed.
    TooFew { stamp: Stamp, have: u32 },
}

/// Why a round did not end the get, and another one follows.
#[derive(Clone, Copy, Debug, PartialEq, Eq)]
pub enum KeptEvent {
    /// An archive that a device listed was gone once it was fetched: the first such of the round.
    Gone { device: u16, index: u32 },
    /// The greatest floor that was shown rose within the round.
    Rose { from: Option<Floor>, to: Floor },
}

/// What a round does next.
#[derive(Clone, Copy, Debug, PartialEq, Eq)]
pub enum Going {
    /// It asks a device what it has.
    Ask(u16),
    /// It fetches the archive of an index at a stamp.
    Fetch { stamp: Stamp, source: Target },
    /// It waits for an answer.
    Wait,
    /// It ends the get.
    End(RoundEnd),
    /// It is kept as an event, and another round follows.
    Keep(KeptEvent),
}
