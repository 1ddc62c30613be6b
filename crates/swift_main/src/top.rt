//! The top call.

ghost use Rattle.std.specs.Prelude.{◌≡◌, ℕ, List, [], map, None, string_bytes};
ghost use Rattle.sw_command.specs.Words.{command_in};
ghost use Rattle.sw_ring.specs.Cluster.{ClusterModel};
ghost use Rattle.sw_server.specs.Sessions.{IsServer};
ghost use Rattle.sw_server.specs.declared.end.ServeEnd.{ServeEnd as AServeEnd};
ghost use Rattle.swift_main.specs.Outcome.{status_code};
ghost use Rattle.swift_main.specs.Top.{Does};
ghost use Rattle.swift_main.specs.declared.status.Status.{Status as AStatus};

use crate::loading::load_from;
use crate::playing::play_from;
use crate::serving::serve_from;
use crate::status::Status;
use crate::writing::tell;
use std::alloc::Global;
use std::sync::Wait;
use std::thread::Threads;
use sw_command::{Command, read_command};
use sw_io::{Clock, Doors, Gate, Sink, Source};
use sw_shelf::Shelf;
use sw_types::NoMemory;

/// Runs the program: does what the words ask for, writes the text, and answers the exit status.
///
/// `play` reads the whole input. What its script gives is a run of it from an empty world on: a story of its events, of which the text
/// is told. Each object that is found in the story is one put's, which the run's field `found` says: an object of this name was put at
/// this stamp before, k different indices sent its archives, and the stamp is a durable floor that an answer showed, the greatest once
/// every device had answered or was given up. What is told to be created or deleted is kept, by its field `promised`; and operations
/// beside which nothing steps end in full, by its field `full`.
///
/// `serve` reads the ring, which is the whole input, and serves its cluster over a disk of the shelf for each device by 1 to 16 workers side by side,
/// until no connection comes through the doors any more. Each connection that was taken back had the responses to the requests in the bytes that
/// came, over the nodes as they then stood. Over disks that tell what they hold one closed account of all that happened at the devices shows it:
/// each object that was answered is one put's, decoded from k archives of one durable stamp, and each connection is shown what it put itself, or
/// something newer, or was overtaken, while few disks are lost. All disks go back, unless memory was wanted before `ready`.
///
/// `load` reads the ring, which is the whole input, and runs the workload of 1 to 100,000 steps in an empty world of its cluster, up to its last
/// event: a story of its events again, and the summary that is written counts how the operations in it ended.
///
/// Of words that are no command the usage is written, or a front of it, and nothing is read; 1 is for these alone. Whatever source, sink, shelf and doors tell, all of
/// this holds of what they do.
pub fn swift_main<
    S: Source,
    O: Sink,
    F: Shelf,
    A: Doors + Send,
    T: Clock + Send + Sync,
    G: Gate + Sync,
    R: Threads + Wait + Sync,
>(
    rt: &R,
    alloc: Global,
    words: &[String],
    input: &mut S,
    output: &mut O,
    shelf: &mut F,
    doors: &mut A,
    clock: &T,
    gate: &G,
) -> u8
    requires ports { A.ports doors.old ≡ [] }
    requires out { F.out shelf.old ≡ 0 }
    ensures does { (status : AStatus) × (result ≡ status_code status)
        × Does (λ port cluster end told. IsServer (record { hands = F.hands; out = F.out; returned = F.returned; faults = F.faults; seen = F.Disk.seen; left_since = F.Disk.left_since })
        (record { ports = A.ports; is_open = A.is_open; handed = A.handed; back = A.back; left = A.left; faults = A.faults })
        (record { conns = record { remaining = A.Conn.remaining; written = A.Conn.written; faults = A.Conn.faults; closed = A.Conn.closed }; shows = T.shows; cluster = cluster; tells = F.Disk.tells })
        clock.now port shelf.old doors.old end shelf.new doors.new told)
        ((shelf.new ≡ shelf.old) × (doors.new ≡ doors.old))
        (record { left = S.remaining input.old; faults = S.faults input.old }) (record { left = S.remaining input.new; faults = S.faults input.new })
        (record { written = O.written output.old; faults = O.faults output.old }) (record { written = O.written output.new; faults = O.faults output.new })
        (command_in (map (λ word. string_bytes word) words.now)) status }
    ensures usage_only { result ≡ 1 → command_in (map (λ word. string_bytes word) words.now) ≡ None }
{
    match read_command(alloc, words) {
        Ok(Some(Command::Play)) => play_from(alloc, input, output).code(),
        Ok(Some(Command::Serve { port, workers })) => serve_from(
            rt, alloc, port, workers, input, output, shelf, doors, clock, gate,
        )
        .code(),
        Ok(Some(Command::Load { steps })) => load_from(alloc, steps, input, output).code(),
        Ok(None) => tell(alloc, output, Status::Usage).code(),
        Err(NoMemory) => Status::NoMemory.code(),
    }
}
