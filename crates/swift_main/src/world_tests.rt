//! Scripts whose operations run side by side, message by message.

use crate::tests::run as run_words;
use std::alloc::Global;
use std::process::Abort;
use std::sync::Wait;
use std::test::Fail;
use std::thread::Threads;
use sw_io::{MemSink, MemSource};

// A handoff serves two puts, and a disk is lost.
pub(crate) const HANDOFF: &str =
    "stop 1\nput a/c/o 616263\nrestart 1\nstop 0\nstart put a/c/o 646566\n\
     msg 14\nmsg 15\nmsg 16\nmsg 17\nmsg 18\ngiveup 2\nmsg 19\nmsg 20\nmsg 21\nmsg 24\ngiveup 2\n\
     restart 0\nrecon 3 a/c/o\nlose 0\nget a/c/o\n";

// Runs a script over the built-in ring, and answers its status and the lines that it writes.
fn run(
    rt: &(impl Threads + Wait + Sync),
    alloc: Global,
    script: &str,
) -> Result<(u8, Vec<u8>), Fail> {
    let input = format!(in alloc; "\n{script}")?;
    let mut source = MemSource::new(input.as_bytes().to_vec(alloc)?);
    let mut sink = MemSink::new(alloc);
    let status = run_words(rt, alloc, &["play"], &mut source, &mut sink)?;
    Ok((status, sink.bytes().to_vec(alloc)?))
}

// Of some lines those of ends and of what is shown.
fn ends(alloc: Global, text: &[u8]) -> Result<Vec<u8>, Fail> {
    let mut kept = Vec::new(alloc);
    for line in text.split(|byte| *byte == b'\n') {
        if line.starts_with(b"e ") || line.starts_with(b"s ") {
            kept.extend_from_slice(line)?;
            kept.push(b'\n')?;
        }
    }
    Ok(kept)
}

#[test]
fn tells_each_message(rt: HostRuntime) -> Result<(), Fail> {
    let cases = [
        // A put that is given up before its commits are answered; one of these arrives later.
        (
            "start put a/c/o 616263\nmsg 1\nmsg 2\nmsg 3\nmsg 4\nmsg 5\nmsg 6\ngiveup 1\nget a/c/o\nmsg 7\nget a/c/o\n",
            "o 1\nm 1 1 0 put 0\nm 2 1 1 put 1\nm 3 1 2 put 2\n\
             r 4 1 0 synced\nr 5 1 1 synced\nr 6 1 2 synced\n\
             m 7 1 0 commit 0\nm 8 1 1 commit 1\nm 9 1 2 commit 2\n\
             e 1 too-few-commits 0\ne 2 absent\nr 18 1 0 committed\n\
             e 3 found 1000000000.00000 616263 0,1\n",
        ),
        // Messages of an operation that is over are delivered again, to a device with a tombstone.
        (
            "put a/c/o 616263\ndel a/c/o\nmsg 1\nmsg 7\nget a/c/o\ndel a/c/o\n",
            "e 1 created 1000000000.00000 3\ne 2 deleted 1000000000.00001 3 yes\n\
             r 19 1 0 superseded 1000000000.00001\nr 20 1 0 superseded 1000000000.00001\n\
             e 3 buried 1000000000.00001\ne 4 deleted 1000000000.00002 3 no\n",
        ),
        // A commit again, and a reply again, which changes nothing.
        (
            "put a/c/o 616263\nget a/c/o\nmsg 7\nmsg 23\nget a/c/o\n",
            "e 1 created 1000000000.00000 3\ne 2 found 1000000000.00000 616263 0,1\n\
             r 25 1 0 committed\ne 3 found 1000000000.00000 616263 0,1\n",
        ),
        // What a get fetches was purged by a younger put, and is newer then.
        (
            "put a/c/o 616263\nstart get a/c/o\nmsg 13\nmsg 14\nmsg 15\nmsg 16\nmsg 17\nmsg 18\nmsg 19\nmsg 20\n\
             put a/c/o 646566\nmsg 21\nmsg 22\nmsg 35\nall\n",
            "e 1 created 1000000000.00000 3\no 2\nm 13 2 3 ask\nr 14 2 3 held\nm 15 2 0 ask\nm 16 2 1 ask\nm 17 2 2 ask\n\
             r 18 2 0 held\nr 19 2 1 held\nr 20 2 2 held\nm 21 2 0 fetch 0\nm 22 2 1 fetch 1\n\
             e 3 created 1000000000.00001 3\nr 35 2 0 gone\nr 36 2 1 gone\nm 37 2 2 fetch 2\n\
             e 2 found 1000000000.00001 646566 0,1\n",
        ),
        // A fetch misses in a round whose target rose, and another round begins.
        (
            "put a/c/o 616263\nstart put a/c/o 646566\nstart get a/c/o\nmsg 16\nmsg 17\nmsg 18\nmsg 13\nmsg 14\nmsg 15\n\
             msg 22\nmsg 23\nmsg 24\nmsg 27\nmsg 19\nmsg 20\nmsg 21\nmsg 29\nmsg 30\nmsg 31\nmsg 33\ngiveup 3\nall\n",
            "e 1 created 1000000000.00000 3\no 2\nm 13 2 0 put 0\nm 14 2 1 put 1\nm 15 2 2 put 2\no 3\nm 16 3 3 ask\n\
             r 17 3 3 held\nm 18 3 0 ask\nm 19 3 1 ask\nm 20 3 2 ask\nr 21 3 0 held\nr 22 2 0 synced\nr 23 2 1 synced\n\
             r 24 2 2 synced\nm 25 2 0 commit 0\nm 26 2 1 commit 1\nm 27 2 2 commit 2\nr 28 2 2 committed\n\
             r 29 3 1 held\nr 30 3 2 held\nm 31 3 1 fetch 1\nm 32 3 2 fetch 2\nr 33 3 1 fragment\nm 34 3 3 ask\n\
             e 2 created 1000000000.00001 3\ne 3 found 1000000000.00001 646566 0,1\n",
        ),
    ];
    for (script, text) in cases {
        let (status, written) = run(&rt, rt.alloc(), script)?;
        assert_eq!(rt; written.as_slice(), text.as_bytes(), "{script}");
        assert_eq!(rt; status, 0, "{script}");
    }
    Ok(())
}

#[test]
fn interleaves_operations(rt: HostRuntime) -> Result<(), Fail> {
    let cases = [
        // The target of a get rises within a round.
        (
            "put a/c/o 616263\nstart put a/c/o 646566\nstart get a/c/o\n\
             msg 16\nmsg 17\nmsg 18\nmsg 19\nmsg 13\nmsg 14\nmsg 15\nmsg 23\nmsg 24\nmsg 25\nmsg 28\nmsg 20\nmsg 21\nmsg 22\nmsg 30\nall\n",
            "e 1 created 1000000000.00000 3\ne 2 created 1000000000.00001 3\n\
             e 3 found 1000000000.00001 646566 0,1\n",
        ),
        // It rises within two rounds, and the third finds the object.
        (
            "put a/c/o 616263\nstart put a/c/o 646566\nstart get a/c/o\n\
             msg 16\nmsg 17\nmsg 18\nmsg 19\nmsg 13\nmsg 14\nmsg 15\nmsg 23\nmsg 24\nmsg 25\nmsg 28\nmsg 20\nmsg 21\nmsg 22\nmsg 30\n\
             start put a/c/o 676869\nmsg 31\nmsg 35\nmsg 36\nmsg 37\nmsg 32\nmsg 33\nmsg 34\nmsg 41\nmsg 42\nmsg 43\nmsg 46\n\
             msg 38\nmsg 39\nmsg 40\nmsg 48\nall\n",
            "e 1 created 1000000000.00000 3\ne 2 created 1000000000.00001 3\n\
             e 4 created 1000000000.00002 3\ne 3 found 1000000000.00002 676869 0,1\n",
        ),
        (
            HANDOFF,
            "e 1 created 1000000000.00000 3\ne 2 too-few-commits 1\ne 3 revert 2 0\n\
             e 4 found 1000000000.00000 616263 1,2\n",
        ),
        // The later put overtakes the earlier one.
        (
            "start put a/c/o 616263\nput a/c/o 646566\nall\n",
            "e 2 created 1000000000.00001 3\ne 1 superseded 1000000000.00001\n",
        ),
        // A handoff keeps what is not durable, and its reconstructor can't ask a device that is down.
        (
            "stop 1\nstart put a/c/o 616263\nmsg 1\nmsg 2\nmsg 3\nmsg 4\nmsg 5\ngiveup 1\nmsg 6\n\
             restart 1\nrecon 3 a/c/o\nstop 3\nrecon 3 a/c/o\n",
            "e 2 revert 0 1\ne 3 unanswered 3\n",
        ),
        // A device that is down crashes and loses its disk, and lines that change nothing.
        (
            "put a/c/o 616263\nstop 0\ncrash 1 1 1\nlose 0\ngiveup 1\nrestart 0\nrestart 0\n\
             start head a/c/o\nstart recon 1 a/c/o\nall\nstart del a/c/o\nall\nget a/c/o\n",
            "e 1 created 1000000000.00000 3\ne 2 head 1000000000.00000 3 900150983cd24fb0d6963f7d28e17f72\n\
             e 3 sync 0 1 0 0\ne 4 deleted 1000000000.00001 3 yes\ne 5 buried 1000000000.00001\n",
        ),
    ];
    for (script, text) in cases {
        let (status, written) = run(&rt, rt.alloc(), script)?;
        let written = ends(rt.alloc(), &written)?;
        assert_eq!(rt; written.as_slice(), text.as_bytes(), "{script}");
        assert_eq!(rt; status, 0, "{script}");
    }
    Ok(())
}

// A device crashes within a commit of a younger put, after so many calls, and its disk keeps so many changes.
#[test]
fn crashes_within_a_commit(rt: HostRuntime) -> Result<(), Fail> {
    let alloc = rt.alloc();
    let before = "s 0 0 1000000000.00000 durable 6162\ns 0 0 1000000000.00001 plain 6465\n";
    let after = "s 0 0 1000000000.00001 durable 6465\n";
    let cases = [
        (0, 0, before),
        (0, 1, before),
        (1, 0, before),
        (1, 1, before),
        (2, 0, before),
        (2, 1, after),
        (3, 0, after),
        (3, 1, after),
        (4, 0, after),
        (4, 1, after),
        (5, 0, after),
        (5, 1, after),
    ];
    for (calls, pick, shown) in cases {
        let script = format!(in alloc;
            "put a/c/o 616263\nstart put a/c/o 646566\nmsg 13\nmsg 14\nmsg 15\nmsg 16\nmsg 17\nmsg 18\n\
             crash 19 {calls} {pick}\nrestart 0\nshow 0 a/c/o\n"
        )?;
        let (_, written) = run(&rt, alloc, &script)?;
        let text = format!(in alloc; "e 1 created 1000000000.00000 3\n{shown}")?;
        assert_eq!(rt;
            ends(alloc, &written)?.as_slice(),
            text.as_bytes(),
            "{calls} {pick}"
        );
    }
    Ok(())
}

// The last stamp there is was drawn, so the next put does not start.
#[test]
fn ends_where_stamps_are_spent(rt: HostRuntime) -> Result<(), Fail> {
    let script = "clock 9999999999.99999\nput a/c/o 61\nput a/c/o 62\nget a/c/o\n";
    let (status, written) = run(&rt, rt.alloc(), script)?;
    let text = "e 1 created 9999999999.99999 3\nline 3: stamps spent\n";
    assert_eq!(rt; written.as_slice(), text.as_bytes());
    assert_eq!(rt; status, 9);
    Ok(())
}
