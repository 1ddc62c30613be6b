//! Whole runs of the program over a source and a sink in memory.

use crate::swift_main;
use std::alloc::{AllocError, Global};
use std::process::Abort;
use std::sync::Wait;
use std::test::Fail;
use std::thread::Threads;
use sw_io::{MemClock, MemDoors, MemSink, MemSource, OpenGate, Sink};
use sw_memshelf::MemShelf;
use sw_play::{GREATEST_SCRIPT, PlayEnd, play};
use sw_ring::{Cluster, built_in};
use sw_sim_world::World;
use sw_types::{Bytes, Stamp};

const USAGE: &str = "usage: play | serve PORT WORKERS | load N\n";

// The words of a command line: the program's name, and these.
pub(crate) fn command_line(alloc: Global, words: &[&str]) -> Result<Vec<String>, AllocError> {
    let mut line = Vec::new(alloc);
    line.push(String::from_str(alloc, "swift_main")?)?;
    for word in words {
        line.push(String::from_str(alloc, word)?)?;
    }
    Ok(line)
}

// Runs the program over this source and this sink, with a shelf without faults and doors through which nobody comes.
pub(crate) fn run(
    rt: &(impl Threads + Wait + Sync),
    alloc: Global,
    words: &[&str],
    source: &mut MemSource,
    sink: &mut impl Sink,
) -> Result<u8, Fail> {
    let line = command_line(alloc, words)?;
    let mut doors = MemDoors::new(alloc, Vec::new(alloc))?;
    Ok(swift_main(
        rt,
        alloc,
        &line,
        source,
        sink,
        &mut MemShelf::new(alloc),
        &mut doors,
        &MemClock::new(Stamp::make(100_000_000_000_000).ok_or("stamp")?),
        &OpenGate,
    ))
}

// Runs the program by these words on this input, and compares its status and what it writes.
pub(crate) fn expect_run(
    rt: &(impl Threads + Wait + Sync + Abort),
    alloc: Global,
    words: &[&str],
    input: Vec<u8>,
    status: u8,
    text: &str,
) -> Result<(), Fail> {
    let mut source = MemSource::new(input);
    let mut sink = MemSink::new(alloc);
    let answer = run(rt, alloc, words, &mut source, &mut sink)?;
    assert_eq!(rt; sink.bytes(), text.as_bytes(), "{words:?}, to write {text}");
    assert_eq!(rt; answer, status, "{words:?}, to write {text}");
    Ok(())
}

// Runs a script behind the text of a ring, and compares what it writes.
pub(crate) fn expect_done(
    rt: &(impl Threads + Wait + Sync + Abort),
    alloc: Global,
    ring: &str,
    script: &str,
    text: &str,
) -> Result<(), Fail> {
    let input = format!(in alloc; "{ring}\n{script}")?;
    expect_run(
        rt,
        alloc,
        &["play"],
        input.as_bytes().to_vec(alloc)?,
        0,
        text,
    )
}

#[test]
fn tells_what_is_done(rt: HostRuntime) -> Result<(), Fail> {
    let cases = [
        (
            "put a/c/o 616263\nget a/c/o",
            "e 1 created 1000000000.00000 3\ne 2 found 1000000000.00000 616263 0,1\n",
        ),
        (
            "put a/c/o 616263\nshow 0 a/c/o\nshow 1 a/c/o\nshow 2 a/c/o\nshow 3 a/c/o\n",
            "e 1 created 1000000000.00000 3\n\
             s 0 0 1000000000.00000 durable 6162\n\
             s 1 1 1000000000.00000 durable 6300\n\
             s 2 2 1000000000.00000 durable 9f31\n\
             s 3 empty\n",
        ),
        (
            "put a/c/o -\nhead a/c/o\nget a/c/o\nshow 2 a/c/o",
            "e 1 created 1000000000.00000 3\n\
             e 2 head 1000000000.00000 0 d41d8cd98f00b204e9800998ecf8427e\n\
             e 3 found 1000000000.00000 - 0,1\n\
             s 2 2 1000000000.00000 durable -\n",
        ),
        // A younger tombstone takes an older one away.
        (
            "put a/c/o 616263\ndel a/c/o\nget a/c/o\ndel a/c/o\nshow 2 a/c/o\n",
            "e 1 created 1000000000.00000 3\n\
             e 2 deleted 1000000000.00001 3 yes\n\
             e 3 buried 1000000000.00001\n\
             e 4 deleted 1000000000.00002 3 no\n\
             s 2 - 1000000000.00002 tombstone\n",
        ),
        // The last put of a name counts.
        (
            "put a/c/o 61\nput a/c/p 62\nput a/c/o 6A6b\nget a/c/p\nget a/c/o\nget a/c/q",
            "e 1 created 1000000000.00000 3\ne 2 created 1000000000.00001 3\n\
             e 3 created 1000000000.00002 3\ne 4 found 1000000000.00001 62 0,1\n\
             e 5 found 1000000000.00002 6a6b 0,1\ne 6 absent\n",
        ),
        (
            "# fly\n\nget a/c//\n#\n\nhead a/c/o\r\n",
            "e 1 absent\ne 2 absent\n",
        ),
        ("", ""),
    ];
    for (script, text) in cases {
        expect_done(&rt, rt.alloc(), "", script, text)?;
    }
    Ok(())
}

// Devices are down, come back, and lose their disks.
#[test]
fn goes_on_without_some_devices(rt: HostRuntime) -> Result<(), Fail> {
    let cases = [
        (
            "put a/c/o 616263\nlose 0\nget a/c/o",
            "e 1 created 1000000000.00000 3\ne 2 found 1000000000.00000 616263 1,2\n",
        ),
        (
            "put a/c/o 616263\nlose 0\nlose 1\nget a/c/o",
            "e 1 created 1000000000.00000 3\ne 2 too-few 1000000000.00000 1\n",
        ),
        // Device 3 takes the archive in place of device 1.
        (
            "stop 1\nput a/c/o 616263\nget a/c/o\nshow 3 a/c/o",
            "e 1 created 1000000000.00000 3\n\
             e 2 found 1000000000.00000 616263 0,1\n\
             s 3 1 1000000000.00000 durable 6300\n",
        ),
        ("stop 1\nstop 3\nput a/c/o 616263", "e 1 too-few-synced 2\n"),
        (
            "stop 0\nget a/c/o\nstop 1\nget a/c/o",
            "e 1 absent\ne 2 unanswered 0,1\n",
        ),
        (
            "put a/c/o 616263\nstop 0\nstop 1\nget a/c/o",
            "e 1 created 1000000000.00000 3\ne 2 unanswered 0,1\n",
        ),
        (
            "stop 0\nput a/c/o 616263\nrestart 0\nshow 0 a/c/o",
            "e 1 created 1000000000.00000 3\ns 0 empty\n",
        ),
        // A device that restarts has what it had.
        (
            "put a/c/o 616263\nstop 0\nstop 0\nrestart 0\nrestart 2\nget a/c/o\nshow 0 a/c/o",
            "e 1 created 1000000000.00000 3\n\
             e 2 found 1000000000.00000 616263 0,1\n\
             s 0 0 1000000000.00000 durable 6162\n",
        ),
    ];
    for (script, text) in cases {
        expect_done(&rt, rt.alloc(), "", script, text)?;
    }
    Ok(())
}

// Primaries and handoffs bring to others what they keep.
#[test]
fn repairs_what_devices_missed(rt: HostRuntime) -> Result<(), Fail> {
    let cases = [
        // A handoff brings the archive home, and then has nothing more to bring.
        (
            "stop 1\nput a/c/o 616263\nget a/c/o\nrestart 1\nrecon 3 a/c/o\n\
             show 1 a/c/o\nshow 3 a/c/o\nrecon 3 a/c/o",
            "e 1 created 1000000000.00000 3\n\
             e 2 found 1000000000.00000 616263 0,1\n\
             e 3 revert 1 0\n\
             s 1 1 1000000000.00000 durable 6300\n\
             s 3 empty\n\
             e 4 revert 0 0\n",
        ),
        // It keeps what is not durable; and nobody answers for it while it is down.
        (
            "stop 1\nstop 2\nput a/c/o 616263\nrestart 1\nrestart 2\nrecon 3 a/c/o\n\
             stop 3\nrecon 3 a/c/o",
            "e 1 too-few-synced 2\ne 2 revert 0 1\ne 3 unanswered 3\n",
        ),
        (
            "put a/c/o 616263\nlose 1\nrecon 0 a/c/o\nshow 1 a/c/o",
            "e 1 created 1000000000.00000 3\n\
             e 2 sync 0 1 0 0\n\
             s 1 1 1000000000.00000 durable 6300\n",
        ),
        (
            "put a/c/o 616263\nlose 0\nlose 1\nrecon 2 a/c/o",
            "e 1 created 1000000000.00000 3\ne 2 too-few 1000000000.00000 1\n",
        ),
        // A tombstone goes to the primary that missed it, and that one has nothing to bring while it is older.
        (
            "put a/c/o 616263\nstop 2\ndel a/c/o\nrestart 2\nrecon 2 a/c/o\nrecon 0 a/c/o\nshow 2 a/c/o",
            "e 1 created 1000000000.00000 3\n\
             e 2 deleted 1000000000.00001 3 yes\n\
             e 3 newer 1000000000.00001\n\
             e 4 sync 0 0 1 0\n\
             s 2 - 1000000000.00001 tombstone\n",
        ),
        // A primary that is down fails.
        (
            "put a/c/o 616263\nstop 2\nrecon 0 a/c/o\nstop 0\nrecon 0 a/c/o",
            "e 1 created 1000000000.00000 3\ne 2 sync 0 0 0 1\ne 3 unanswered 0\n",
        ),
    ];
    for (script, text) in cases {
        expect_done(&rt, rt.alloc(), "", script, text)?;
    }
    Ok(())
}

// A ring stands before the first empty line, in one line or in more.
#[test]
fn runs_over_any_ring(rt: HostRuntime) -> Result<(), Fail> {
    let cases = [
        (
            r#"{"part_power":0,"k":1,"m":1,"devices":[{"id":5},{"id":9}],"rows":[[9],[5]]}
"#,
            "put a/c/o 6162\nget a/c/o",
            "e 1 created 1000000000.00000 2\ne 2 found 1000000000.00000 6162 0\n",
        ),
        (
            r#"{"part_power": 1, "k": 3, "m": 2, "hash_prefix": "p",
 "devices": [{"id": 7}, {"id": 3}, {"id": 1}, {"id": 2}, {"id": 65535}, {"id": 0}],
 "rows": [[7, 1], [3, 2], [1, 3], [2, 7], [65535, 0]]}
"#,
            "put a/c/o 0001020304\nput a/c/p ff\nget a/c/o\nget a/c/p\nget a/c/q",
            "e 1 created 1000000000.00000 5\ne 2 created 1000000000.00001 5\n\
             e 3 found 1000000000.00000 0001020304 0,1,2\n\
             e 4 found 1000000000.00001 ff 0,1,2\ne 5 absent\n",
        ),
        (
            r#"{"part_power":0,"k":2,"m":2,"devices":[{"id":0},{"id":1},{"id":2},{"id":3}],"rows":[[0],[1],[2],[3]]}
"#,
            "put a/c/o 6162\nshow 0 a/c/o\nshow 1 a/c/o\nshow 2 a/c/o\nshow 3 a/c/o",
            "e 1 created 1000000000.00000 4\n\
             s 0 0 1000000000.00000 durable 61\n\
             s 1 1 1000000000.00000 durable 62\n\
             s 2 2 1000000000.00000 durable 6b\n\
             s 3 3 1000000000.00000 durable e5\n",
        ),
        // A body of three segments, of which the last is shorter.
        (
            r#"{"part_power":0,"k":2,"m":1,"q":3,"c":2,"segment":4,"devices":[{"id":0},{"id":1},{"id":2},{"id":3}],"rows":[[0],[1],[2]]}
"#,
            "put a/c/o 000102030405060708\nshow 0 a/c/o\nshow 1 a/c/o\nshow 2 a/c/o\nget a/c/o",
            "e 1 created 1000000000.00000 3\n\
             s 0 0 1000000000.00000 durable 0001040508\n\
             s 1 1 1000000000.00000 durable 0203060700\n\
             s 2 2 1000000000.00000 durable f58f007a04\n\
             e 2 found 1000000000.00000 000102030405060708 0,1\n",
        ),
        // Device 0 has no space for the archive, and device 3 takes it.
        (
            r#"{"part_power":0,"k":2,"m":1,"q":3,"c":2,"devices":[{"id":0,"capacity":102},{"id":1},{"id":2},{"id":3}],"rows":[[0],[1],[2]]}
"#,
            "put a/c/o 616263\nshow 0 a/c/o\nshow 3 a/c/o",
            "e 1 created 1000000000.00000 3\ns 0 empty\n\
             s 3 0 1000000000.00000 durable 6162\n",
        ),
        (
            r#"{"part_power":0,"k":2,"m":1,"q":3,"c":2,"devices":[{"id":0,"capacity":102},{"id":1},{"id":2},{"id":3,"capacity":102}],"rows":[[0],[1],[2]]}
"#,
            "put a/c/o 616263",
            "e 1 too-few-synced 2\n",
        ),
    ];
    for (ring, script, text) in cases {
        expect_done(&rt, rt.alloc(), ring, script, text)?;
    }
    Ok(())
}

#[test]
fn ends_at_the_first_fault(rt: HostRuntime) -> Result<(), Fail> {
    let cases = [
        // The first rule that a ring breaks ends a run, whatever the script is.
        ("{", 2, "ring: 1\n"),
        ("put a/c/o 61\n\nget a/c/o", 2, "ring: 1\n"),
        ("{}\n\nfly", 2, "ring: 2\n"),
        (
            r#"{"part_power":0,"k":30,"m":3,"devices":[{"id":0}],"rows":[]}"#,
            2,
            "ring: 3\n",
        ),
        (
            r#"{"part_power":0,"k":2,"m":1,"devices":[{"id":0},{"id":1}],"rows":[[0],[1],[0]]}"#,
            2,
            "ring: 7\n",
        ),
        (
            r#"{"part_power":17,"k":2,"m":1,"devices":[{"id":0}],"rows":[]}"#,
            2,
            "ring: 8\n",
        ),
        // Without an empty line there is no script.
        (
            r#"{"part_power":0,"k":1,"m":1,"devices":[{"id":5},{"id":9}],"rows":[[9],[5]]}
"#,
            0,
            "",
        ),
        ("\nfly", 3, "line 1: 1\n"),
        ("\nput a/c/o 6g", 3, "line 1: 3\n"),
        ("\nget a/c", 3, "line 1: 4\n"),
        ("\nshow x a/c/o", 3, "line 1: 2\n"),
        // The built-in ring has no device 9.
        ("\nshow 9 a/c/o", 3, "line 1: 7\n"),
        ("\nlose 9", 3, "line 1: 7\n"),
        ("\nstop 9", 3, "line 1: 7\n"),
        ("\nrestart 9", 3, "line 1: 7\n"),
        ("\nrecon 9 a/c/o", 3, "line 1: 7\n"),
        ("\nstart recon 9 a/c/o", 3, "line 1: 7\n"),
        // No message was made, and no operation was started.
        ("\nmsg 99", 3, "line 1: 6\n"),
        ("\ncrash 1 0 0", 3, "line 1: 6\n"),
        ("\ngiveup 1", 3, "line 1: 8\n"),
        // Of a put to three devices the fourth message is an answer, which can't crash.
        (
            "\nput a/c/o 61\ncrash 4 0 0",
            3,
            "e 1 created 1000000000.00000 3\nline 2: 6\n",
        ),
        (
            "\nput a/c/o 61\n\nput a/c/o 6g\nget a/c/o",
            3,
            "e 1 created 1000000000.00000 3\nline 3: 3\n",
        ),
    ];
    for (input, status, text) in cases {
        let input = input.as_bytes().to_vec(rt.alloc())?;
        expect_run(&rt, rt.alloc(), &["play"], input, status, text)?;
    }
    Ok(())
}

#[test]
fn knows_three_commands(rt: HostRuntime) -> Result<(), Fail> {
    let cases: [&[&str]; 5] = [
        &[],
        &["play", "more"],
        &["serve", "8080"],
        &["serve", "8080", "17"],
        &["load", "0"],
    ];
    for words in cases {
        let input = b"x".to_vec(rt.alloc())?;
        expect_run(&rt, rt.alloc(), words, input, 1, USAGE)?;
    }
    Ok(())
}

// A text with so many times a byte between its front and its back.
fn filled(
    alloc: Global,
    front: &str,
    byte: u8,
    count: usize,
    back: &str,
) -> Result<Vec<u8>, AllocError> {
    let mut text = front.as_bytes().to_vec(alloc)?;
    text.extend_from_slice(&vec![in alloc; byte; count]?)?;
    text.extend_from_slice(back.as_bytes())?;
    Ok(text)
}

// A line of 65,536 bytes, and one of 65,537 whose only fault is its length; accounts of 256 and of 257 bytes.
#[test]
fn bounds_lines_and_names(rt: HostRuntime) -> Result<(), Fail> {
    let alloc = rt.alloc();
    let created = "e 1 created 1000000000.00000 3\n";
    let cases = [
        ("\nput a/c/o ", b'6', 65_526, "", 0, created),
        ("\nput a/c/oo ", b'6', 65_526, "", 3, "line 1: 5\n"),
        ("\nget ", b'x', 256, "/c/o", 0, "e 1 absent\n"),
        ("\nget ", b'x', 257, "/c/o", 3, "line 1: 4\n"),
    ];
    for (front, byte, count, back, status, text) in cases {
        let input = filled(alloc, front, byte, count, back)?;
        expect_run(&rt, alloc, &["play"], input, status, text)?;
    }
    Ok(())
}

// The input of each command has one byte too many.
#[test]
fn bounds_the_input(rt: HostRuntime) -> Result<(), Fail> {
    let cases: [&[&str]; 3] = [&["play"], &["load", "1"], &["serve", "8080", "1"]];
    for words in cases {
        let input = vec![in rt.alloc(); b'#'; 67_108_865]?;
        expect_run(&rt, rt.alloc(), words, input, 10, "input too long\n")?;
    }
    Ok(())
}

// What the program answers by these words, and whether it wrote anything, where the source fails after so many reads
// and the sink after so many writes.
fn run_with_fuses(
    rt: &(impl Threads + Wait + Sync),
    alloc: Global,
    words: &[&str],
    reads: u64,
    writes: u64,
) -> Result<(u8, bool), Fail> {
    let mut source = MemSource::new(b"\nput a/c/o 61\nfly".to_vec(alloc)?);
    let mut sink = MemSink::new(alloc);
    source.fuse(reads);
    sink.fuse(writes);
    let answer = run(rt, alloc, words, &mut source, &mut sink)?;
    Ok((answer, !sink.bytes().is_empty()))
}

// The second read finds the end of the input.
#[test]
fn tells_failures_of_reading_and_writing(rt: HostRuntime) -> Result<(), Fail> {
    let cases = [
        ("play", 0, 1, (5, false)),
        ("play", 1, 1, (5, false)),
        ("play", 2, 1, (3, true)),
        ("play", 2, 0, (6, false)),
        // Words that are no command need no input.
        ("fly", 0, 1, (1, true)),
        ("fly", 0, 0, (6, false)),
    ];
    for (word, reads, writes, want) in cases {
        let found = run_with_fuses(&rt, rt.alloc(), &[word], reads, writes)?;
        assert_eq!(rt;
            found,
            want,
            "{word} with {reads} reads and {writes} writes"
        );
    }
    Ok(())
}

#[test]
fn plays_a_script_after_another(rt: HostRuntime) -> Result<(), Fail> {
    let alloc = rt.alloc();
    let cluster = Cluster::read(alloc, built_in())?;
    let mut world = World::new(alloc, &cluster)?;
    let mut text = Bytes::new(alloc);
    let scripts: [&[u8]; 3] = [b"put a/c/o 61\n", b"get a/c/o\nput a/c/o 62", b"head a/c/o"];
    for script in scripts {
        assert!(rt; script.len() <= GREATEST_SCRIPT);
        assert_eq!(rt; play(alloc, script, &mut world, &mut text), PlayEnd::Done);
    }
    let want = "e 1 created 1000000000.00000 3\ne 2 found 1000000000.00000 61 0,1\n\
                e 3 created 1000000000.00001 3\n\
                e 4 head 1000000000.00001 1 92eb5ffee6ae2fec3ad71c777531578f\n";
    assert_eq!(rt; text.as_slice(), want.as_bytes());
    Ok(())
}
