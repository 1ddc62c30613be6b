//! A server over a shelf, doors and an output in memory.

ghost use Rattle.std.specs.Prelude.{◌≡◌, ◌≤◌, [], IfOk, ⊤};

use crate::gates::{CrowdGate, EndsGate, NotingGate, RaceGate, RepairGate};
use crate::held_doors::HeldDoors;
use crate::{ServeEnd, serve};
use std::alloc::Global;
use std::process::Abort;
use std::sync::Wait;
use std::sync::atomic::{AtomicU64, Ordering};
use std::test::Fail;
use std::thread::Threads;
use sw_io::{Clock, Gate, MemClock, MemConn, MemDoors, MemSink, OpenGate};
use sw_memshelf::MemShelf;
use sw_ring::{Cluster, built_in};
use sw_types::Stamp;

const PUT: &str =
    "PUT /v1/AUTH_test/photos/cat.jpg HTTP/1.1\r\nHost: h\r\nContent-Length: 3\r\n\r\nabc";

const OTHER: &str =
    "PUT /v1/AUTH_test/photos/dog.jpg HTTP/1.1\r\nHost: h\r\nContent-Length: 3\r\n\r\nabc";

const GET: &str = "GET /v1/AUTH_test/photos/cat.jpg HTTP/1.1\r\nHost: h\r\n\r\n";

// Where the object is on each disk.
const FOLDER: &str = "objects/0/ac8/f20f04443ba5bd7cadc1156a167f4ac8";

// What the disks have there once each fragment is at its primary.
const REPAIRED: [Option<&str>; 4] = [
    Some("1000000000.00000#0#d.data"),
    Some("1000000000.00000#1#d.data"),
    Some("1000000000.00000#2#d.data"),
    None,
];

// So many messages the passes of the four devices send where one fragment is at a handoff, and where each is at its primary.
const REPAIRS: u64 = 28;

const PASS: u64 = 16;

// What fails: the output and the doors, behind so many writes and calls; the disk of a device, which is refused, or whose calls fail
// from one number to another.
#[derive(Clone, Copy, Debug)]
struct Failing {
    writes: u64,
    calls: u64,
    refused: u16,
    broken: (u16, u64, u64),
}

// Nothing does: no device has this number.
const NOTHING: Failing = Failing {
    writes: u64::MAX,
    calls: u64::MAX,
    refused: 9,
    broken: (9, 1, 1),
};

// What a run left.
#[derive(Drop)]
struct Served {
    end: ServeEnd,
    output: MemSink,
    shelf: MemShelf,
    doors: MemDoors,
}

// A clock that goes on by a second whenever it is looked at.
#[derive(Drop)]
struct TickingClock {
    start: Stamp,
    next: AtomicU64,
}

impl Clock for TickingClock {
    ghost shows = { λ clock stamp. ⊤ };

    fn now(&self) -> Stamp {
        let units = self.next.fetch_add(100_000, Ordering::SeqCst);
        Stamp::make(units).unwrap_or(self.start)
    }
}

// Serves the built-in ring by so many workers, with these requests on a connection each, where this fails.
fn serve_requests<T: Clock + Send + Sync, G: Gate + Sync, R: Threads + Wait + Sync>(
    rt: &R,
    alloc: Global,
    requests: &[&str],
    workers: u16,
    failing: Failing,
    clock: &T,
    gate: &G,
) -> Result<Served, Fail>
    requires { (1 ≤ workers) × (workers ≤ 16) }
{
    let cluster = Cluster::read(alloc, built_in())?;
    let mut output = MemSink::new(alloc);
    let mut shelf = MemShelf::new(alloc);
    let mut doors = doors_for(alloc, requests)?;
    output.fuse(failing.writes);
    doors.fuse(failing.calls);
    shelf.refuse(failing.refused);
    let (device, first, last) = failing.broken;
    shelf.fail_at(device, (first..=last).collect(alloc)?);
    let end = serve(
        rt,
        alloc,
        cluster,
        8080,
        workers,
        &mut output,
        &mut shelf,
        &mut doors,
        clock,
        gate,
    );
    Ok(Served {
        end,
        output,
        shelf,
        doors,
    })
}

// Doors through which a connection with each request comes.
fn doors_for(alloc: Global, requests: &[&str]) -> Result<MemDoors, Fail>
    ensures { IfOk result (λ doors. doors.ports ≡ []) }
{
    let mut conns = Vec::new(alloc);
    for request in requests {
        conns.push(MemConn::new(alloc, request.as_bytes().to_vec(alloc)?))?;
    }
    Ok(MemDoors::new(alloc, conns)?)
}

// The time at which a run begins.
fn beginning() -> Result<Stamp, Fail> {
    Ok(Stamp::make(100_000_000_000_000).ok_or("stamp")?)
}

// Compares the end of a put and a get behind it by one worker, what is written, and how many connections and disks are back.
fn expect_served<R: Threads + Wait + Sync + Abort>(
    rt: &R,
    alloc: Global,
    failing: Failing,
    end: ServeEnd,
    text: &str,
    back: (usize, usize),
) -> Result<(), Fail> {
    let clock = MemClock::new(beginning()?);
    let served = serve_requests(rt, alloc, &[PUT, GET], 1, failing, &clock, &OpenGate)?;
    assert_eq!(rt; served.end, end, "with {failing:?}");
    assert_eq!(rt; served.output.bytes(), text.as_bytes(), "with {failing:?}");
    assert_eq!(rt;
        (served.doors.back().len(), served.shelf.returned().len()),
        back,
        "with {failing:?}"
    );
    let answers = ["HTTP/1.1 201 Created", "HTTP/1.1 200 OK"];
    for (conn, answer) in served.doors.back().iter().zip(answers) {
        assert!(rt; conn.written().starts_with(answer.as_bytes()));
    }
    Ok(())
}

#[test]
fn serves_up_to_the_last_connection_or_a_failure(rt: HostRuntime) -> Result<(), Fail> {
    let closed = ServeEnd::Closed { count: 2 };
    let none = NOTHING;
    let cases = [
        (none, closed, "ready\nclosed 2\n", (2, 4)),
        (
            Failing { writes: 0, ..none },
            ServeEnd::WriteFault,
            "",
            (0, 4),
        ),
        (
            Failing { writes: 1, ..none },
            ServeEnd::WriteFault,
            "ready\n",
            (2, 4),
        ),
        (
            Failing { calls: 0, ..none },
            ServeEnd::DoorFault,
            "",
            (0, 4),
        ),
        (
            Failing { calls: 1, ..none },
            ServeEnd::DoorFault,
            "ready\n",
            (0, 4),
        ),
        (
            Failing { calls: 2, ..none },
            ServeEnd::DoorFault,
            "ready\n",
            (1, 4),
        ),
        (
            Failing { refused: 2, ..none },
            ServeEnd::ShelfFault,
            "",
            (0, 2),
        ),
        (
            Failing {
                broken: (3, 1, 1),
                ..none
            },
            ServeEnd::ShelfFault,
            "",
            (0, 4),
        ),
    ];
    for (failing, end, text, back) in cases {
        expect_served(&rt, rt.alloc(), failing, end, text, back)?;
    }
    Ok(())
}

// Compares the first file in the object's folder on each disk that is back.
fn expect_files(rt: &impl Abort, served: &Served, names: [Option<&str>; 4]) {
    let disks = served.shelf.returned();
    assert_eq!(rt; disks.len(), 4);
    for ((number, (device, disk)), name) in (0..4u16).zip(disks.iter()).zip(names) {
        assert_eq!(rt; *device, number);
        assert_eq!(rt; disk.name_at(FOLDER, 0), name);
        assert_eq!(rt; disk.name_at(FOLDER, 1), None);
    }
}

// A disk fails within the put, so that a handoff takes its fragment. The last pass brings it home.
#[test]
fn repairs_at_last(rt: HostRuntime) -> Result<(), Fail> {
    let failing = Failing {
        broken: (1, 3, 3),
        ..NOTHING
    };
    let clock = MemClock::new(beginning()?);
    let served = serve_requests(&rt, rt.alloc(), &[PUT, ""], 1, failing, &clock, &OpenGate)?;
    assert_eq!(&rt; served.end, ServeEnd::Closed { count: 2 });
    expect_files(&rt, &served, REPAIRED);
    Ok(())
}

// A disk goes on failing: it is that of its own device, from its mount to its return, which has no fragment then.
#[test]
fn each_disk_is_its_devices_own(rt: HostRuntime) -> Result<(), Fail> {
    let failing = Failing {
        broken: (1, 3, 99),
        ..NOTHING
    };
    let clock = MemClock::new(beginning()?);
    let served = serve_requests(&rt, rt.alloc(), &[PUT], 1, failing, &clock, &OpenGate)?;
    assert_eq!(&rt; served.end, ServeEnd::Closed { count: 1 });
    let [first, _, third, _] = REPAIRED;
    let handed = Some("1000000000.00000#1#d.data");
    expect_files(&rt, &served, [first, None, third, handed]);
    Ok(())
}

// The doors fail, so that there is no last pass: a pass behind the first connection brought the fragment home while the second one was held.
#[test]
fn repairs_without_a_last_pass(rt: HostRuntime) -> Result<(), Fail> {
    let failing = Failing {
        calls: 3,
        broken: (1, 3, 3),
        ..NOTHING
    };
    let clock = MemClock::new(beginning()?);
    let gate = RepairGate::new(REPAIRS);
    let served = serve_requests(&rt, rt.alloc(), &[PUT, ""], 1, failing, &clock, &gate)?;
    assert!(&rt; !gate.repairs.gave_up.load(Ordering::SeqCst));
    assert_eq!(&rt; served.end, ServeEnd::DoorFault);
    expect_files(&rt, &served, REPAIRED);
    Ok(())
}

// A worker tells of each end before it asks for another connection, and behind each comes a whole pass, beside connections: the first one
// is held until the second end was told of. The doors fail then.
#[test]
fn a_pass_comes_behind_each_end(rt: HostRuntime) -> Result<(), Fail> {
    let alloc = rt.alloc();
    let clock = MemClock::new(beginning()?);
    let gate = EndsGate::new(2 * PASS);
    let mut inner = doors_for(alloc, &[PUT, GET])?;
    inner.fuse(3);
    let mut doors = HeldDoors::new(inner, &gate);
    let end = serve(
        &rt,
        alloc,
        Cluster::read(alloc, built_in())?,
        8080,
        1,
        &mut MemSink::new(alloc),
        &mut MemShelf::new(alloc),
        &mut doors,
        &clock,
        &gate,
    );
    assert!(&rt; !gate.gave_up.load(Ordering::SeqCst));
    assert!(&rt; !gate.was_early.load(Ordering::SeqCst));
    assert_eq!(&rt; end, ServeEnd::DoorFault);
    assert_eq!(&rt; doors.doors.back().len(), 2);
    assert_eq!(&rt; gate.answers(), 2 * PASS);
    Ok(())
}

// A worker takes back a connection that failed, and serves the next one.
#[test]
fn serves_behind_a_connection_that_fails(rt: HostRuntime) -> Result<(), Fail> {
    let alloc = rt.alloc();
    let clock = MemClock::new(beginning()?);
    let mut failing = MemConn::new(alloc, PUT.as_bytes().to_vec(alloc)?);
    failing.fuse(0);
    let whole = MemConn::new(alloc, PUT.as_bytes().to_vec(alloc)?);
    let mut doors = MemDoors::new(alloc, vec![in alloc; failing, whole]?)?;
    let end = serve(
        &rt,
        alloc,
        Cluster::read(alloc, built_in())?,
        8080,
        1,
        &mut MemSink::new(alloc),
        &mut MemShelf::new(alloc),
        &mut doors,
        &clock,
        &OpenGate,
    );
    assert_eq!(&rt; end, ServeEnd::Closed { count: 2 });
    let faults: Vec<u64> = doors
        .back()
        .iter()
        .map(|conn| conn.faults())
        .collect(alloc)?;
    assert_eq!(&rt; faults.as_slice(), [1, 0].as_slice());
    let answer = "HTTP/1.1 201 Created".as_bytes();
    assert_eq!(&rt;
        doors
            .back()
            .iter()
            .filter(|conn| conn.written().starts_with(answer))
            .count(),
        1
    );
    Ok(())
}

// Serves a put on each of two connections by two workers, the first of which is held within its own until the other one is through.
fn race<R: Threads + Wait + Sync + Abort>(
    rt: &R,
    alloc: Global,
    requests: &[&str],
) -> Result<Served, Fail> {
    let clock = MemClock::new(beginning()?);
    let gate = RaceGate::new();
    let served = serve_requests(rt, alloc, requests, 2, NOTHING, &clock, &gate)?;
    assert!(rt; !gate.gave_up.load(Ordering::SeqCst));
    assert_eq!(rt; served.end, ServeEnd::Closed { count: 2 });
    assert_eq!(rt; served.doors.back().len(), 2);
    Ok(served)
}

// Whether just one of the connections that are back has these answers.
fn expect_one(rt: &impl Abort, served: &Served, want: &str) {
    let answered = served.doors.back().iter();
    let count = answered
        .filter(|conn| conn.written() == want.as_bytes())
        .count();
    assert_eq!(rt; count, 1, "of {want:?}");
}

// No lock is held round a whole request: both are answered.
#[test]
fn serves_two_connections_at_once(rt: HostRuntime) -> Result<(), Fail> {
    let served = race(&rt, rt.alloc(), &[PUT, OTHER])?;
    let created =
        "HTTP/1.1 201 Created\r\nContent-Length: 0\r\nETag: 900150983cd24fb0d6963f7d28e17f72\r\nX-Timestamp: 1000000000.0000";
    for stamp in ["0", "1"] {
        let want = format!(in rt.alloc(); "{created}{stamp}\r\nX-Commits: 3\r\n\r\n")?;
        expect_one(&rt, &served, &want);
    }
    Ok(())
}

// Of two puts of one name the one that drew first is overtaken.
#[test]
fn a_put_is_overtaken(rt: HostRuntime) -> Result<(), Fail> {
    let served = race(&rt, rt.alloc(), &[PUT, PUT])?;
    expect_one(
        &rt,
        &served,
        "HTTP/1.1 201 Created\r\nContent-Length: 0\r\nETag: 900150983cd24fb0d6963f7d28e17f72\r\nX-Timestamp: 1000000000.00001\r\nX-Commits: 3\r\n\r\n",
    );
    expect_one(
        &rt,
        &served,
        "HTTP/1.1 202 Accepted\r\nContent-Length: 28\r\nContent-Type: text/plain\r\n\r\nSuperseded 1000000000.00001\n",
    );
    let names = [
        Some("1000000000.00001#0#d.data"),
        Some("1000000000.00001#1#d.data"),
        Some("1000000000.00001#2#d.data"),
        None,
    ];
    expect_files(&rt, &served, names);
    Ok(())
}

// Each put looks at the clock once, and each connection and message of a worker passes the gate; so do the messages of the last pass.
#[test]
fn looks_at_the_clock_and_passes_the_gate(rt: HostRuntime) -> Result<(), Fail> {
    let start = beginning()?;
    let clock = TickingClock {
        start,
        next: AtomicU64::new(start.units()),
    };
    let gate = NotingGate::new();
    let served = serve_requests(&rt, rt.alloc(), &[PUT, PUT], 1, NOTHING, &clock, &gate)?;
    let stamps = ["1000000000.00000", "1000000001.00000"];
    assert_eq!(&rt; served.doors.back().len(), 2);
    for (conn, stamp) in served.doors.back().iter().zip(stamps) {
        let text = str::from_utf8(conn.written())?;
        assert!(&rt; text.contains(stamp));
    }
    assert_eq!(&rt; clock.next.load(Ordering::SeqCst), 100_000_000_200_000);
    assert_eq!(&rt; gate.accepted.load(Ordering::SeqCst), 2);
    assert_eq!(&rt; gate.sent.load(Ordering::SeqCst), 12);
    assert!(&rt; gate.repairs.load(Ordering::SeqCst) > 0);
    Ok(())
}

// Sixteen workers serve two connections.
#[test]
fn more_workers_than_connections(rt: HostRuntime) -> Result<(), Fail> {
    let clock = MemClock::new(beginning()?);
    let served = serve_requests(
        &rt,
        rt.alloc(),
        &[PUT, OTHER],
        16,
        NOTHING,
        &clock,
        &OpenGate,
    )?;
    assert_eq!(&rt; served.end, ServeEnd::Closed { count: 2 });
    assert_eq!(&rt; served.doors.back().len(), 2);
    Ok(())
}

// Each of three workers, and of sixteen, has a connection while all others have one.
#[test]
fn as_many_connections_at_once_as_workers(rt: HostRuntime) -> Result<(), Fail> {
    for (workers, count) in [(3, 3), (16, 16)] {
        let clock = MemClock::new(beginning()?);
        let gate = CrowdGate::new(count);
        let requests = [GET; 16];
        let served = serve_requests(
            &rt,
            rt.alloc(),
            &requests[..usize::from(workers)],
            workers,
            NOTHING,
            &clock,
            &gate,
        )?;
        assert!(&rt; !gate.gave_up.load(Ordering::SeqCst));
        assert_eq!(&rt; served.end, ServeEnd::Closed { count });
    }
    Ok(())
}
