//! What a seat of the table knows. No value of these types is made: they exist in the proofs alone.

use std::collections::LinkedList;
use sw_types::{Name, Object, Stamp};
use sw_view::Event;

/// A put of an object, or a delete where there is none, that drew a stamp. The mark is how many losses had been counted before.
pub struct Drawn {
    pub stamp: Stamp,
    pub name: Name,
    pub object: Option<Object>,
    pub mark: u64,
}

/// What a seat is for.
pub enum Kind {
    /// It draws stamps.
    Pass,
    /// It carries what is known to another seat.
    Note,
    /// It adds the events of the device at this slot.
    Node { slot: u64 },
    /// It was joined into another seat.
    Spent,
}

/// What was known before a join.
pub struct Old {
    pub drawn: LinkedList<Drawn>,
    pub histories: LinkedList<LinkedList<Event>>,
}

/// What a seat knows, and what it did.
pub struct Known {
    pub kind: Kind,
    /// How many passes it may be split into; 0 where it draws no stamps.
    pub passes: u64,
    /// What drew a stamp.
    pub drawn: LinkedList<Drawn>,
    /// The history of each device, by its slot, the latest event first.
    pub histories: LinkedList<LinkedList<Event>>,
    /// What the two seats of the last join knew, until it is learnt.
    pub olds: LinkedList<Old>,
    /// How many losses it found when it last looked.
    pub mark: u64,
    /// The greatest clock that it raised to.
    pub clock: u64,
    /// It is between its raise and its draw.
    pub raising: bool,
    /// How many stamps it drew.
    pub draws: u64,
    /// The seat of a node found that another loss can be counted, and drew none since.
    pub losing: bool,
    /// The loss that it drew and that is not in its history yet.
    pub owing: Option<u64>,
    /// The slots that it found to be claimed.
    pub late: LinkedList<u64>,
    /// It found that the stamps are spent.
    pub full: bool,
}
