//! Sources and sinks over std's readers and writers, as standard input and output. They tell what these tell.

ghost use Rattle.std.specs.Prelude.{◌≡◌, ◌<◌, ◌≤◌, length, IfOk};
ghost use Rattle.std.specs.Io.KnownBytes.{ReadConsumes, WriteAppends};
ghost use Rattle.sw_words.specs.Counts.{CountsFailure, FailsByCount};

use crate::{ReadFailed, Sink, Source, WriteFailed};
use std::io::{Read, Write};

/// A source over a reader. Each error of the reader is a fault and counts one, also an error after which a second try would
/// go well.
#[derive(Debug, Drop)]
pub struct ReadSource<R> {
    reader: R,
    faults: u64,
}

impl<R: Read> ReadSource<R> {
    /// A source that gives what the reader gives.
    pub fn new(reader: R) -> Self
        ensures told { ⟦<ReadSource<R> as Source>⟧.remaining result ≡ R.remaining reader }
        ensures no_fault { ⟦<ReadSource<R> as Source>⟧.faults result ≡ 0 }
    {
        ReadSource { reader, faults: 0 }
    }
}

impl<R: Read> Source for ReadSource<R> {
    ghost remaining = { λ s. R.remaining s.reader };

    ghost faults = { λ s. s.faults };

    fn read(&mut self, room: &mut [u8]) -> Result<usize, ReadFailed>
        requires { 0 < length room.old }
        ensures count { IfOk result (λ n. n ≤ length room.new) }
        ensures bytes { let source = ⟦<ReadSource<R> as Source>⟧ in
            ReadConsumes (source.remaining self.old) (source.remaining self.new) result room.new }
        ensures cause { let source = ⟦<ReadSource<R> as Source>⟧ in
            FailsByCount (source.faults self.old) (source.faults self.new) result }
        ensures counted { let source = ⟦<ReadSource<R> as Source>⟧ in
            CountsFailure (source.faults self.old) (source.faults self.new) result }
    {
        match self.reader.read(room) {
            Ok(count) => Ok(count),
            Err(_) => {
                self.faults = self.faults.saturating_add(1);
                Err(ReadFailed)
            }
        }
    }
}

/// A sink over a writer. Each error of the writer is a fault and counts one, and so is an answer that it took nothing. A
/// writer that keeps bytes back is not flushed.
#[derive(Debug, Drop)]
pub struct WriteSink<W> {
    writer: W,
    faults: u64,
}

impl<W: Write> WriteSink<W> {
    /// A sink that hands on to the writer.
    pub fn new(writer: W) -> Self
        ensures told { ⟦<WriteSink<W> as Sink>⟧.written result ≡ W.contents writer }
        ensures no_fault { ⟦<WriteSink<W> as Sink>⟧.faults result ≡ 0 }
    {
        WriteSink { writer, faults: 0 }
    }
}

impl<W: Write> Sink for WriteSink<W> {
    ghost written = { λ s. W.contents s.writer };

    ghost faults = { λ s. s.faults };

    fn write(&mut self, piece: &[u8]) -> Result<usize, WriteFailed>
        requires { 0 < length piece.now }
        ensures count { IfOk result (λ n. (0 < n) × (n ≤ length piece.now)) }
        ensures bytes { let sink = ⟦<WriteSink<W> as Sink>⟧ in
            WriteAppends (sink.written self.old) (sink.written self.new) result piece.now }
        ensures cause { let sink = ⟦<WriteSink<W> as Sink>⟧ in
            FailsByCount (sink.faults self.old) (sink.faults self.new) result }
        ensures counted { let sink = ⟦<WriteSink<W> as Sink>⟧ in
            CountsFailure (sink.faults self.old) (sink.faults self.new) result }
    {
        match self.writer.write(piece) {
            Ok(count) if count > 0 => Ok(count),
            _ => {
                self.faults = self.faults.saturating_add(1);
                Err(WriteFailed)
            }
        }
    }
}
