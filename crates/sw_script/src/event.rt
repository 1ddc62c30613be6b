//! What a line of a script tells.

use sw_types::{Name, Object, Stamp};

/// An operation of a script.
#[derive(Debug, Drop)]
pub enum Job {
    /// `put NAME HEX`: the name is to stand for this object from now on.
    Put { name: Name, object: Object },
    /// `get NAME`: the object is wanted.
    Get(Name),
    /// `head NAME`: its length and MD5 are wanted.
    Head(Name),
    /// `del NAME`: it is to be gone.
    Delete(Name),
    /// `recon J NAME`: the device's part of the name is to be repaired.
    Recon { device: u64, name: Name },
}

/// What a line of a script tells.
#[derive(Debug, Drop)]
pub enum Event {
    /// A job alone: it is started and taken to its end.
    Run(Job),
    /// `start` and a job: it is started.
    Start(Job),
    /// `msg M`: a message is delivered.
    Deliver(u64),
    /// `all`: undelivered messages are delivered until none is left.
    All,
    /// `crash M CALLS PICK`: a device stops within its handling of a message, after so many device calls.
    Crash { message: u64, calls: u64, pick: u64 },
    /// `stop J`, `restart J`, `lose J`: a device stops, comes back, loses its disk.
    Stop(u64),
    Restart(u64),
    Lose(u64),
    /// `giveup R`: an operation gives its open messages up.
    GiveUp(u64),
    /// `clock STAMP`: the clock is set.
    SetClock(Stamp),
    /// `show J NAME`: what a device keeps of a name is wanted.
    Show { device: u64, name: Name },
}
