//! A source and a sink in memory, for tests: each tells all that it has, and can be set to fail.

ghost use Rattle.std.specs.Prelude.{◌≡◌, ◌↔◌, ◌<◌, ◌≤◌, [], length, IsErr, IfOk};
ghost use Rattle.std.specs.Io.KnownBytes.{ReadConsumes, WriteAppends};
ghost use Rattle.sw_words.specs.Counts.{CountsFailure, FailsByCount};
ghost use Rattle.sw_io.specs.Memory.{one_fewer};

use crate::fuse::Fuse;
use crate::stock::Stock;
use crate::{ReadFailed, Sink, Source, WriteFailed};
use std::alloc::Global;
use std::marker::Model;

/// A source that gives the bytes that it was made with. It fails only by its fuse.
#[derive(Debug, Drop)]
pub struct MemSource {
    stock: Stock,
    fuse: Fuse,
}

impl Model for MemSource {
    ghost use Rattle.sw_io.specs.Memory.{MemoryModel};

    ghost Value = { MemoryModel };

    ghost view = { λ s. record { bytes = s.stock; calls_left = s.fuse.calls_left; faults = s.fuse.faults } };
}

impl MemSource {
    /// A source that has these bytes to give.
    pub fn new(bytes: Vec<u8>) -> Self
        ensures left { result.bytes ≡ bytes.items }
        ensures no_fuse { result.calls_left ≡ None }
        ensures no_fault { result.faults ≡ 0 }
    {
        MemSource {
            stock: Stock::new(bytes),
            fuse: Fuse::new(),
        }
    }

    /// Lets `calls` further reads go on. Each one after them fails: it gives nothing, and is counted as a fault.
    pub fn fuse(&mut self, calls: u64)
        ensures { self.new ≡ record self.old { calls_left = Some calls } }
    {
        self.fuse.calls_left = Some(calls);
    }
}

impl Source for MemSource {
    ghost use Rattle.std.specs.Prelude.{Some};

    ghost remaining = { λ s. Some s.bytes };

    ghost faults = { λ s. s.faults };

    fn read(&mut self, room: &mut [u8]) -> Result<usize, ReadFailed>
        requires { 0 < length room.old }
        ensures count { IfOk result (λ n. n ≤ length room.new) }
        ensures bytes { ReadConsumes (Some self.old.bytes) (Some self.new.bytes) result room.new }
        ensures cause { FailsByCount self.old.faults self.new.faults result }
        ensures counted { CountsFailure self.old.faults self.new.faults result }
        ensures fails { IsErr result ↔ (self.old.calls_left ≡ Some 0) }
        ensures calls { self.new.calls_left ≡ one_fewer self.old.calls_left }
    {
        if !self.fuse.passes() {
            return Err(ReadFailed);
        }
        Ok(self.stock.give(room))
    }
}

/// A sink that keeps what is written to it. A write takes the whole piece, or fails by the fuse or for want of memory.
#[derive(Debug, Drop)]
pub struct MemSink {
    kept: Vec<u8>,
    fuse: Fuse,
}

impl Model for MemSink {
    ghost use Rattle.sw_io.specs.Memory.{MemoryModel};

    ghost Value = { MemoryModel };

    ghost view = { λ s. record { bytes = s.kept.items; calls_left = s.fuse.calls_left; faults = s.fuse.faults } };
}

impl MemSink {
    /// A sink to which nothing was written.
    pub fn new(alloc: Global) -> Self
        ensures empty { result.bytes ≡ [] }
        ensures no_fuse { result.calls_left ≡ None }
        ensures no_fault { result.faults ≡ 0 }
    {
        MemSink {
            kept: Vec::new(alloc),
            fuse: Fuse::new(),
        }
    }

    /// Lets `calls` further writes go on. Each one after them fails: it keeps nothing, and is counted as a fault.
    pub fn fuse(&mut self, calls: u64)
        ensures { self.new ≡ record self.old { calls_left = Some calls } }
    {
        self.fuse.calls_left = Some(calls);
    }

    /// What was written.
    pub fn bytes(&self) -> &[u8]
        ensures { result.now ≡ self.now.bytes }
    {
        &self.kept
    }
}

impl Sink for MemSink {
    ghost use Rattle.std.specs.Prelude.{Some};

    ghost written = { λ s. Some s.bytes };

    ghost faults = { λ s. s.faults };

    fn write(&mut self, piece: &[u8]) -> Result<usize, WriteFailed>
        requires { 0 < length piece.now }
        ensures count { IfOk result (λ n. n ≡ length piece.now) }
        ensures bytes { WriteAppends (Some self.old.bytes) (Some self.new.bytes) result piece.now }
        ensures cause { FailsByCount self.old.faults self.new.faults result }
        ensures counted { CountsFailure self.old.faults self.new.faults result }
        ensures fails { self.old.calls_left ≡ Some 0 → IsErr result }
        ensures calls { self.new.calls_left ≡ one_fewer self.old.calls_left }
    {
        if !self.fuse.passes() {
            return Err(WriteFailed);
        }
        if self.kept.extend_from_slice(piece).is_err() {
            self.fuse.fail();
            return Err(WriteFailed);
        }
        Ok(piece.len())
    }
}
