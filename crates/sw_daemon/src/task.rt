//! What a pass does next.

use crate::comparing::Comparing;
use sw_hashpath::Place;

/// What a pass does next.
#[derive(Debug, Drop)]
pub(crate) enum Task {
    /// Its own device is asked for its partitions.
    ListParts,
    /// It is asked for the places of one.
    ListPlaces { part: u32 },
    /// It is asked for the suffixes of one.
    ListOwn { part: u32 },
    /// Another primary is asked for them.
    ListOther(Comparing),
    /// A place is synced or reverted.
    Treat { place: Place },
    /// Nothing: it is over.
    Over,
}
