//! `serve`: connections are served over the disks of a ring's devices.

ghost use Rattle.std.specs.Prelude.{◌≡◌, ◌<◌, ◌≤◌, List, ℕ, [], length, nat_lt};
ghost use Rattle.sw_server.specs.Sessions.{IsServer};
ghost use Rattle.swift_main.specs.Outcome.{greatest_input};
ghost use Rattle.swift_main.specs.Serving.{InputServed, Serves};

use crate::input::{GREATEST_INPUT, read_input, read_ring};
use crate::status::Status;
use crate::writing::tell;
use std::alloc::Global;
use std::sync::Wait;
use std::thread::Threads;
use sw_io::{Clock, Doors, Gate, Sink, Source};
use sw_ring::RingFault;
use sw_server::serve;
use sw_shelf::Shelf;

/// Serves: reads the ring, which is the whole input, and serves its cluster at a port until no connection comes any more.
pub(crate) fn serve_from<
    S: Source,
    O: Sink,
    F: Shelf,
    A: Doors + Send,
    T: Clock + Send + Sync,
    G: Gate + Sync,
    R: Threads + Wait + Sync,
>(
    rt: &R,
    alloc: Global,
    port: u16,
    workers: u16,
    input: &mut S,
    output: &mut O,
    shelf: &mut F,
    doors: &mut A,
    clock: &T,
    gate: &G,
) -> Status
    requires ports { A.ports doors.old ≡ [] }
    requires out { F.out shelf.old ≡ 0 }
    requires workers { (1 ≤ workers) × (workers ≤ 16) }
    ensures { Serves (λ cluster end told. IsServer (record { hands = F.hands; out = F.out; returned = F.returned; faults = F.faults; seen = F.Disk.seen; left_since = F.Disk.left_since })
        (record { ports = A.ports; is_open = A.is_open; handed = A.handed; back = A.back; left = A.left; faults = A.faults })
        (record { conns = record { remaining = A.Conn.remaining; written = A.Conn.written; faults = A.Conn.faults; closed = A.Conn.closed }; shows = T.shows; cluster = cluster; tells = F.Disk.tells })
        clock.now port shelf.old doors.old end shelf.new doors.new told)
        ((shelf.new ≡ shelf.old) × (doors.new ≡ doors.old))
        (record { written = O.written output.old; faults = O.faults output.old }) (record { written = O.written output.new; faults = O.faults output.new })
        (record { left = S.remaining input.old; faults = S.faults input.old }) (record { left = S.remaining input.new; faults = S.faults input.new }) result }
{
    match read_input(alloc, input) {
        Ok(ring) => serve_ring(
            rt, alloc, port, workers, ring, output, shelf, doors, clock, gate,
        ),
        Err(status) => status,
    }
}

// Serves the cluster of a ring's text, which is dropped before any connection comes.
fn serve_ring<
    O: Sink,
    F: Shelf,
    A: Doors + Send,
    T: Clock + Send + Sync,
    G: Gate + Sync,
    R: Threads + Wait + Sync,
>(
    rt: &R,
    alloc: Global,
    port: u16,
    workers: u16,
    ring: Vec<u8>,
    output: &mut O,
    shelf: &mut F,
    doors: &mut A,
    clock: &T,
    gate: &G,
) -> Status
    requires ports { A.ports doors.old ≡ [] }
    requires out { F.out shelf.old ≡ 0 }
    requires workers { (1 ≤ workers) × (workers ≤ 16) }
    ensures { InputServed (λ cluster end told. IsServer (record { hands = F.hands; out = F.out; returned = F.returned; faults = F.faults; seen = F.Disk.seen; left_since = F.Disk.left_since })
        (record { ports = A.ports; is_open = A.is_open; handed = A.handed; back = A.back; left = A.left; faults = A.faults })
        (record { conns = record { remaining = A.Conn.remaining; written = A.Conn.written; faults = A.Conn.faults; closed = A.Conn.closed }; shows = T.shows; cluster = cluster; tells = F.Disk.tells })
        clock.now port shelf.old doors.old end shelf.new doors.new told)
        ((shelf.new ≡ shelf.old) × (doors.new ≡ doors.old))
        (record { written = O.written output.old; faults = O.faults output.old }) (record { written = O.written output.new; faults = O.faults output.new })
        (nat_lt greatest_input (length ring.items)) ring.items result }
{
    if ring.len() > GREATEST_INPUT {
        return tell(alloc, output, Status::TooLong);
    }
    let read = read_ring(alloc, &ring);
    drop(ring);
    match read {
        Ok(cluster) => {
            let end = serve(
                rt, alloc, cluster, port, workers, output, shelf, doors, clock, gate,
            );
            Status::of_end(end)
        }
        Err(RingFault::NoMemory) => Status::NoMemory,
        Err(fault) => tell(alloc, output, Status::Ring(fault)),
    }
}
