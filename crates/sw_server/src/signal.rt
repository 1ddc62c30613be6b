//! A signal of connections that have ended.

use std::sync::{Condvar, Mutex, Wait};

/// How many connections have ended, and whether that was the last one.
#[derive(Clone, Copy, Debug, PartialEq, Eq, Drop)]
pub(crate) struct Ends {
    pub(crate) count: u64,
    pub(crate) are_all: bool,
}

/// Tells a thread of ends of connections.
#[derive(Drop)]
pub(crate) struct EndSignal {
    ends: Mutex<Ends>,
    changed: Condvar,
}

impl EndSignal {
    pub(crate) fn new() -> EndSignal {
        EndSignal {
            ends: Mutex::new(Ends {
                count: 0,
                are_all: false,
            }),
            changed: Condvar::new(),
        }
    }

    /// Tells of one more.
    pub(crate) fn tell<R: Wait>(&self, rt: &R) {
        let mut ends = self.ends.lock(rt);
        ends.count = ends.count.wrapping_add(1);
        self.changed.notify_all();
    }

    /// Tells that no other one will be told of.
    pub(crate) fn close<R: Wait>(&self, rt: &R) {
        let mut ends = self.ends.lock(rt);
        ends.are_all = true;
        self.changed.notify_all();
    }

    /// Waits until another number of ends was told of than this one, or that these are all.
    pub(crate) fn wait<R: Wait>(&self, rt: &R, seen: u64) -> Ends {
        let ends = self.changed.wait_while(rt, self.ends.lock(rt), |ends| {
            ends.count == seen && !ends.are_all
        });
        *ends
    }
}
