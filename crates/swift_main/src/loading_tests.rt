//! `load` over sources and sinks in memory.

use crate::tests::{expect_run, run};
use std::test::Fail;
use sw_io::{MemSink, MemSource};

// The summary of two steps: a get of an object that was not put, and a put.
const TWO: &str =
    "created 1\nsuperseded 0\ntoo-few-synced 0\ntoo-few-commits 0\nfound 0\nabsent 1\nburied 0\n\
    unanswered 0\ntoo-few 0\novertaken 0\ndeleted 0\nmissing 0\ntoo-few-marks 0\njobs 0\nbytes 0\n";

// And of one, a delete of nothing.
const ONE: &str =
    "created 0\nsuperseded 0\ntoo-few-synced 0\ntoo-few-commits 0\nfound 0\nabsent 0\nburied 0\n\
    unanswered 0\ntoo-few 0\novertaken 0\ndeleted 0\nmissing 1\ntoo-few-marks 0\njobs 0\nbytes 0\n";

#[test]
fn counts_the_ends_of_a_workload(rt: HostRuntime) -> Result<(), Fail> {
    let cases = [
        ("2", "", 0, TWO),
        ("1", "", 0, ONE),
        // The whole input is a ring, also where a script stands behind an empty line.
        ("1", "x", 2, "ring: 1\n"),
        ("1", "\nput a/c/o 61", 2, "ring: 1\n"),
    ];
    for (steps, ring, status, text) in cases {
        let input = ring.as_bytes().to_vec(rt.alloc())?;
        expect_run(&rt, rt.alloc(), &["load", steps], input, status, text)?;
    }
    Ok(())
}

// Reading fails, or writing.
#[test]
fn tells_failures(rt: HostRuntime) -> Result<(), Fail> {
    let alloc = rt.alloc();
    for (reads, writes, want) in [(0, 1, 5), (2, 0, 6)] {
        let mut source = MemSource::new(Vec::new(alloc));
        let mut sink = MemSink::new(alloc);
        source.fuse(reads);
        sink.fuse(writes);
        let answer = run(&rt, alloc, &["load", "2"], &mut source, &mut sink)?;
        assert_eq!(&rt; answer, want, "with {reads} reads");
        assert!(&rt; sink.bytes().is_empty());
    }
    Ok(())
}
