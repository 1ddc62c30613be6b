//! A sink that takes a few bytes at a time, and fails at each write in turn.

ghost use Rattle.std.specs.Prelude.{◌<◌, ◌≤◌, IfOk, length};
ghost use Rattle.sw_words.specs.Counts.{CountsFailure, FailsByCount};

use crate::tests::run;
use crate::world_tests::HANDOFF;
use std::alloc::Global;
use std::process::Abort;
use std::sync::Wait;
use std::test::Fail;
use std::thread::Threads;
use sw_io::{MemSink, MemSource, Sink, WriteFailed};

// How many bytes a write takes at most.
const MOST: usize = 16;

// A sink that takes a front of what it is given. It tells nothing.
#[derive(Drop)]
struct Narrow {
    kept: MemSink,
}

impl Sink for Narrow {
    ghost use Rattle.std.specs.Prelude.{None};

    ghost written = { λ sink. None };

    ghost faults = { λ sink. sink.kept.faults };

    fn write(&mut self, piece: &[u8]) -> Result<usize, WriteFailed>
        requires { 0 < length piece.now }
        ensures count { IfOk result (λ n. (0 < n) × (n ≤ length piece.now)) }
        ensures cause { FailsByCount self.old.kept.faults self.new.kept.faults result }
        ensures counted { CountsFailure self.old.kept.faults self.new.kept.faults result }
    {
        self.kept.write(&piece[..piece.len().min(MOST)])
    }
}

// Plays the script of a handoff over a sink that takes so many writes, and answers the status and the bytes that were written.
fn play_over(
    rt: &(impl Threads + Wait + Sync),
    alloc: Global,
    writes: u64,
) -> Result<(u8, Vec<u8>), Fail> {
    let input = format!(in alloc; "\n{HANDOFF}")?;
    let mut source = MemSource::new(input.as_bytes().to_vec(alloc)?);
    let mut kept = MemSink::new(alloc);
    kept.fuse(writes);
    let mut sink = Narrow { kept };
    let status = run(rt, alloc, &["play"], &mut source, &mut sink)?;
    Ok((status, sink.kept.bytes().to_vec(alloc)?))
}

// As much was written as the writes before took; with one write for each piece all is.
#[test]
fn ends_where_a_write_fails(rt: HostRuntime) -> Result<(), Fail> {
    let alloc = rt.alloc();
    let (status, whole) = play_over(&rt, alloc, u64::MAX)?;
    assert_eq!(rt; status, 0);
    for (writes, front) in (0..whole.len()).step_by(MOST).enumerate() {
        let (status, text) = play_over(&rt, alloc, writes as u64)?;
        assert_eq!(rt; status, 6, "with {writes} writes");
        assert_eq!(rt;
            Some(text.as_slice()),
            whole.get(..front),
            "with {writes} writes"
        );
    }
    Ok(())
}
