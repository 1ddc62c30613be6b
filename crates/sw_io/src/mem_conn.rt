//! A connection in memory, for tests: it tells all that comes and goes, and can be set to fail.

ghost use Rattle.std.specs.Prelude.{◌≡◌, ◌↔◌, ◌<◌, ◌^◌, ◌-◌, [], false, true, length, min, IsErr, IfOk};
ghost use Rattle.std.specs.Io.KnownBytes.{ReadConsumes, WriteAppends};
ghost use Rattle.sw_words.specs.Counts.{CountsFailure, FailsByCount};
ghost use Rattle.sw_io.specs.Memory.{one_fewer};

use crate::fuse::Fuse;
use crate::stock::Stock;
use crate::{Conn, ReadFailed, WriteFailed};
use std::alloc::Global;
use std::marker::Model;

/// A connection whose peer sends the bytes that it was made with, and keeps what is written. A read gives as many bytes as
/// there is room for, or at most so many as it is set to. A write takes the whole piece, or fails for want of memory. Reads
/// and writes have one fuse.
#[derive(Debug, Drop)]
pub struct MemConn {
    stock: Stock,
    most: usize,
    kept: Vec<u8>,
    fuse: Fuse,
    is_closed: bool,
}

impl Model for MemConn {
    ghost use Rattle.std.specs.Prelude.{◌<◌};
    ghost use Rattle.sw_io.specs.Memory.{ConnModel};

    ghost Value = { ConnModel };

    ghost view = { λ c. record { remaining = c.stock; most = c.most; written = c.kept.items; calls_left = c.fuse.calls_left; faults = c.fuse.faults; is_closed = c.is_closed } };

    ghost invariant = { λ c. 0 < c.most };
}

impl MemConn {
    /// A connection whose peer sends these bytes and then no more.
    pub fn new(alloc: Global, bytes: Vec<u8>) -> Self
        ensures { result ≡ record { remaining = bytes.items; most = 2 ^ 64 - 1; written = []; calls_left = None; faults = 0; is_closed = false } }
    {
        MemConn {
            stock: Stock::new(bytes),
            most: usize::MAX,
            kept: Vec::new(alloc),
            fuse: Fuse::new(),
            is_closed: false,
        }
    }

    /// From now on a read gives at most so many bytes.
    pub fn give_at_most(&mut self, most: usize)
        requires { 0 < most }
        ensures { self.new ≡ record self.old { most = most } }
    {
        self.most = most;
    }

    /// Lets `calls` further reads and writes go on. Each one after them fails: it gives and keeps nothing, and is counted as
    /// a fault.
    pub fn fuse(&mut self, calls: u64)
        ensures { self.new ≡ record self.old { calls_left = Some calls } }
    {
        self.fuse.calls_left = Some(calls);
    }

    /// What was written.
    pub fn written(&self) -> &[u8]
        ensures { result.now ≡ self.now.written }
    {
        &self.kept
    }

    /// How many reads and writes have failed.
    pub fn faults(&self) -> u64
        ensures { result ≡ self.now.faults }
    {
        self.fuse.faults
    }

    /// Whether it was closed.
    pub fn is_closed(&self) -> bool
        ensures { result ≡ self.now.is_closed }
    {
        self.is_closed
    }
}

impl Conn for MemConn {
    ghost use Rattle.std.specs.Prelude.{Some};

    ghost remaining = { λ c. Some c.remaining };

    ghost written = { λ c. Some c.written };

    ghost faults = { λ c. c.faults };

    ghost closed = { λ c. c.is_closed };

    fn read(&mut self, room: &mut [u8]) -> Result<usize, ReadFailed>
        requires { 0 < length room.old }
        ensures count { IfOk result (λ n. n ≡ min self.old.most (min (length self.old.remaining) (length room.new))) }
        ensures bytes { ReadConsumes (Some self.old.remaining) (Some self.new.remaining) result room.new }
        ensures written { Some self.new.written ≡ Some self.old.written }
        ensures closed { self.new.is_closed ≡ self.old.is_closed }
        ensures most { self.new.most ≡ self.old.most }
        ensures cause { FailsByCount self.old.faults self.new.faults result }
        ensures counted { CountsFailure self.old.faults self.new.faults result }
        ensures fails { IsErr result ↔ (self.old.calls_left ≡ Some 0) }
        ensures calls { self.new.calls_left ≡ one_fewer self.old.calls_left }
    {
        if !self.fuse.passes() {
            return Err(ReadFailed);
        }
        let most = self.most.min(room.len());
        Ok(self.stock.give(&mut room[..most]))
    }

    fn write(&mut self, piece: &[u8]) -> Result<usize, WriteFailed>
        requires { 0 < length piece.now }
        ensures count { IfOk result (λ n. n ≡ length piece.now) }
        ensures bytes { WriteAppends (Some self.old.written) (Some self.new.written) result piece.now }
        ensures remaining { Some self.new.remaining ≡ Some self.old.remaining }
        ensures closed { self.new.is_closed ≡ self.old.is_closed }
        ensures most { self.new.most ≡ self.old.most }
        ensures cause { FailsByCount self.old.faults self.new.faults result }
        ensures counted { CountsFailure self.old.faults self.new.faults result }
        ensures fails { self.old.calls_left ≡ Some 0 → IsErr result }
        ensures calls { self.new.calls_left ≡ one_fewer self.old.calls_left }
    {
        if !self.fuse.passes() {
            return Err(WriteFailed);
        }
        if self.kept.extend_from_slice(piece).is_err() {
            self.fuse.fail();
            return Err(WriteFailed);
        }
        Ok(piece.len())
    }

    fn close(&mut self)
        ensures remaining { Some self.new.remaining ≡ Some self.old.remaining }
        ensures written { Some self.new.written ≡ Some self.old.written }
        ensures faults { self.new.faults ≡ self.old.faults }
        ensures closed { self.new.is_closed ≡ true }
        ensures same { self.new ≡ record self.old { is_closed = true } }
    {
        self.is_closed = true;
    }
}
