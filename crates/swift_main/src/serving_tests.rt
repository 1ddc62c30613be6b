//! `serve` over disks and connections in memory, with the built-in ring.

use crate::swift_main;
use crate::tests::command_line;
use std::alloc::Global;
use std::process::Abort;
use std::sync::Wait;
use std::test::Fail;
use std::thread::Threads;
use sw_io::{MemClock, MemConn, MemDoors, MemSink, MemSource, OpenGate};
use sw_memdisk::MemDisk;
use sw_memshelf::MemShelf;
use sw_types::Stamp;

// A put as curl sends it.
const PUT: &str =
    "PUT /v1/AUTH_test/photos/cat.jpg HTTP/1.1\r\nHost: 127.0.0.1:8080\r\nUser-Agent: curl/8.5.0\r\nAccept: */*\r\nX-Auth-Token: tk\r\nContent-Type: image/jpeg\r\nContent-Length: 3\r\nExpect: 100-continue\r\n\r\nabc";

// What is written to it.
const CREATED: &str =
    "HTTP/1.1 100 Continue\r\n\r\nHTTP/1.1 201 Created\r\nContent-Length: 0\r\nETag: 900150983cd24fb0d6963f7d28e17f72\r\nX-Timestamp: 1000000000.00000\r\nX-Commits: 3\r\n\r\n";

// Where its object is on each disk.
const FOLDER: &str = "objects/0/ac8/f20f04443ba5bd7cadc1156a167f4ac8";

// What fails: the input and the output, behind so many reads and writes; the doors, behind so many calls; the disk of a device, which is
// refused, or one of whose calls is.
#[derive(Clone, Copy, Debug)]
struct Failing {
    reads: u64,
    writes: u64,
    calls: u64,
    refused: u16,
    broken: (u16, u64),
}

// Nothing does: no device has this number.
const NOTHING: Failing = Failing {
    reads: u64::MAX,
    writes: u64::MAX,
    calls: u64::MAX,
    refused: 9,
    broken: (9, 1),
};

// What a run left.
#[derive(Drop)]
struct Served {
    status: u8,
    output: MemSink,
    shelf: MemShelf,
    doors: MemDoors,
}

// Runs `serve 8080 1` on this input, with a put on the one connection.
fn serve(
    rt: &(impl Threads + Wait + Sync),
    alloc: Global,
    input: &str,
    failing: Failing,
) -> Result<Served, Fail> {
    let words = command_line(alloc, &["serve", "8080", "1"])?;
    let mut source = MemSource::new(input.as_bytes().to_vec(alloc)?);
    let mut output = MemSink::new(alloc);
    let mut shelf = MemShelf::new(alloc);
    let conn = MemConn::new(alloc, PUT.as_bytes().to_vec(alloc)?);
    let mut doors = MemDoors::new(alloc, vec![in alloc; conn]?)?;
    source.fuse(failing.reads);
    output.fuse(failing.writes);
    doors.fuse(failing.calls);
    shelf.refuse(failing.refused);
    let (device, number) = failing.broken;
    shelf.fail_at(device, vec![in alloc; number]?);
    let status = swift_main(
        rt,
        alloc,
        &words,
        &mut source,
        &mut output,
        &mut shelf,
        &mut doors,
        &MemClock::new(Stamp::make(100_000_000_000_000).ok_or("stamp")?),
        &OpenGate,
    );
    Ok(Served {
        status,
        output,
        shelf,
        doors,
    })
}

// The disk of the object's folder has files of these names, and no others.
fn expect_names(rt: &impl Abort, disk: &MemDisk, names: &[&str]) {
    for place in 0..2usize {
        assert_eq!(rt; disk.name_at(FOLDER, place), names.get(place).copied());
    }
}

// Serves the put over a disk that fails within it: the handoff took its fragment, and a pass behind the connection brought it home.
#[test]
fn serves_a_put_as_curl_sends_it(rt: HostRuntime) -> Result<(), Fail> {
    let failing = Failing {
        broken: (1, 3),
        ..NOTHING
    };
    let served = serve(&rt, rt.alloc(), "", failing)?;
    assert_eq!(rt; served.status, 0);
    assert_eq!(rt; served.output.bytes(), "ready\nclosed 1\n".as_bytes());
    assert_eq!(rt; served.doors.back().len(), 1);
    assert_eq!(rt; served.doors.back()[0].written(), CREATED.as_bytes());
    let disks = served.shelf.returned();
    assert_eq!(rt; disks.len(), 4);
    let names: [&[&str]; 4] = [
        &["1000000000.00000#0#d.data"],
        &["1000000000.00000#1#d.data"],
        &["1000000000.00000#2#d.data"],
        &[],
    ];
    for place in 0..4usize {
        assert_eq!(rt; usize::from(disks[place].0), place);
        expect_names(&rt, &disks[place].1, names[place]);
    }
    Ok(())
}

#[test]
fn ends_where_the_outside_fails(rt: HostRuntime) -> Result<(), Fail> {
    let cases = [
        (
            "{",
            Failing {
                writes: 1,
                ..NOTHING
            },
            2,
            "ring: 1\n",
        ),
        (
            "",
            Failing {
                reads: 0,
                ..NOTHING
            },
            5,
            "",
        ),
        (
            "",
            Failing {
                writes: 1,
                ..NOTHING
            },
            6,
            "ready\n",
        ),
        (
            "",
            Failing {
                refused: 2,
                ..NOTHING
            },
            7,
            "",
        ),
        (
            "",
            Failing {
                calls: 0,
                ..NOTHING
            },
            8,
            "",
        ),
        (
            "",
            Failing {
                calls: 2,
                ..NOTHING
            },
            8,
            "ready\n",
        ),
    ];
    for (input, failing, status, text) in cases {
        let served = serve(&rt, rt.alloc(), input, failing)?;
        assert_eq!(rt; served.status, status, "with {failing:?}");
        assert_eq!(rt; served.output.bytes(), text.as_bytes(), "with {failing:?}");
    }
    Ok(())
}
