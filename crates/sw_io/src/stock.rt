//! Bytes that are given piece by piece.

ghost use Rattle.std.specs.Prelude.{◌≡◌, ◌++◌, length, min, take};

use std::marker::Model;

/// Bytes that are left to give.
#[derive(Debug, Drop)]
pub(crate) struct Stock {
    all: Vec<u8>,
    given: usize,
}

impl Model for Stock {
    ghost use Rattle.std.specs.Prelude.{◌≤◌, ℕ, List, drop, vec_len};

    ghost Value = { List ℕ };

    ghost view = { λ s. drop s.given s.all.items };

    ghost invariant = { λ s. s.given ≤ vec_len s.all };
}

impl Stock {
    pub(crate) fn new(bytes: Vec<u8>) -> Self
        ensures { result ≡ bytes.items }
    {
        Stock {
            all: bytes,
            given: 0,
        }
    }

    /// Gives as many of the bytes as the room holds, and answers how many.
    pub(crate) fn give(&mut self, room: &mut [u8]) -> usize
        ensures count { result ≡ min (length self.old) (length room.new) }
        ensures bytes { self.old ≡ take result room.new ++ self.new }
    {
        let left = &self.all[self.given..];
        let count = left.len().min(room.len());
        room[..count].copy_from_slice(&left[..count]);
        self.given += count;
        count
    }
}
