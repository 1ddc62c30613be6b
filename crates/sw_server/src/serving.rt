//! The server.

ghost use Rattle.std.specs.Prelude.{◌≡◌, ◌≢◌, ◌+◌, ◌<◌, ◌≤◌, ℕ, List, [], length, true};
ghost use Rattle.std.specs.Io.KnownBytes.{Appends};
ghost use Rattle.sw_server.specs.Closing.{Closes};
ghost use Rattle.sw_server.specs.Ending.{IsStop};
ghost use Rattle.sw_server.specs.Served.{GoesOn};
ghost use Rattle.sw_cell.specs.Mounting.{IsRefusal};
ghost use Rattle.sw_pass.specs.Steps.{most_passes};
ghost use Rattle.sw_server.specs.Sessions.{IsServer, IsUnready, ServesOver, after_doors, after_output, after_shelf};
ghost use Rattle.sw_server.specs.Shelving.{AreHanded, CameBack};
ghost use Rattle.sw_server.specs.Visits.{seen_of};

use crate::acceptor::{Acceptor, Finished, Lent};
use crate::end::{ServeEnd, Stop};
use crate::opening::Opening;
use crate::passing::pass_once;
use crate::repairing::repair;
use crate::shelving::{put_back, put_back_each, take_disks};
use crate::signal::EndSignal;
use crate::working::work_all;
use std::alloc::Global;
use std::marker::Brand;
use std::sync::{Mutex, Wait};
use std::thread::{Threads, join};
use sw_cell::{Cells, CellsFault, Site};
use sw_disk::Disk;
use sw_io::{Clock, Doors, Gate, Sink, write_all};
use sw_pass::{OfCluster, Pass, StampTable};
use sw_ring::{Cluster, Device};
use sw_shelf::{Shelf, ShelfFault};

/// Serves a cluster: a disk of the shelf is mounted for each device, the doors are opened at the port, `ready` is written, and so many workers
/// serve the connections that come, side by side, while another one runs passes of the devices' reconstructors behind their ends. Once no
/// connection comes any more a last pass of each device runs, and `closed N` is written, with the number of connections. All disks go back to
/// the shelf, unless memory was wanted before `ready`.
pub fn serve<
    O: Sink,
    F: Shelf,
    A: Doors + Send,
    T: Clock + Send + Sync,
    G: Gate + Sync,
    R: Threads + Wait + Sync,
>(
    rt: &R,
    alloc: Global,
    cluster: Cluster,
    port: u16,
    workers: u16,
    output: &mut O,
    shelf: &mut F,
    doors: &mut A,
    clock: &T,
    gate: &G,
) -> ServeEnd
    requires ports { A.ports doors.old ≡ [] }
    requires out { F.out shelf.old ≡ 0 }
    requires workers { (1 ≤ workers) × (workers ≤ 16) }
    ensures serves { (told : List ℕ) × Appends (O.written output.old) (O.written output.new) told
        × IsServer (record { hands = F.hands; out = F.out; returned = F.returned; faults = F.faults; seen = F.Disk.seen; left_since = F.Disk.left_since })
        (record { ports = A.ports; is_open = A.is_open; handed = A.handed; back = A.back; left = A.left; faults = A.faults })
        (record { conns = record { remaining = A.Conn.remaining; written = A.Conn.written; faults = A.Conn.faults; closed = A.Conn.closed }; shows = T.shows; cluster = cluster; tells = F.Disk.tells })
        clock.now port shelf.old doors.old result shelf.new doors.new told }
    ensures output { O.faults output.new ≡ after_output result (O.faults output.old) }
{
    serve_cluster::<O, F, A, T, G, Brand, R>(
        rt, alloc, cluster, port, workers, output, shelf, doors, clock, gate,
    )
}

// Serves it with a stamp table of its own.
fn serve_cluster<
    O: Sink,
    F: Shelf,
    A: Doors + Send,
    T: Clock + Send + Sync,
    G: Gate + Sync,
    C: OfCluster + Send + Sync,
    R: Threads + Wait + Sync,
>(
    rt: &R,
    alloc: Global,
    cluster: Cluster,
    port: u16,
    workers: u16,
    output: &mut O,
    shelf: &mut F,
    doors: &mut A,
    clock: &T,
    gate: &G,
) -> ServeEnd
    requires cluster { cluster ≡ C.cluster }
    requires ports { A.ports doors.old ≡ [] }
    requires out { F.out shelf.old ≡ 0 }
    requires workers { (1 ≤ workers) × (workers ≤ 16) }
    ensures serves { (told : List ℕ) × Appends (O.written output.old) (O.written output.new) told
        × IsServer (record { hands = F.hands; out = F.out; returned = F.returned; faults = F.faults; seen = F.Disk.seen; left_since = F.Disk.left_since })
        (record { ports = A.ports; is_open = A.is_open; handed = A.handed; back = A.back; left = A.left; faults = A.faults })
        (record { conns = record { remaining = A.Conn.remaining; written = A.Conn.written; faults = A.Conn.faults; closed = A.Conn.closed }; shows = T.shows; cluster = C.cluster; tells = F.Disk.tells })
        clock.now port shelf.old doors.old result shelf.new doors.new told }
    ensures output { O.faults output.new ≡ after_output result (O.faults output.old) }
{
    let count = cluster.devices().len() as u16;
    match StampTable::<C>::new(alloc, count) {
        Ok((table, pass)) => serve_table::<O, F, A, T, G, C, Brand, R>(
            rt, alloc, cluster, table, pass, port, workers, output, shelf, doors, clock, gate,
        ),
        Err(_) => ServeEnd::NoMemory,
    }
}

// Serves it over disks of the shelf, which are mounted before and go back behind.
fn serve_table<
    O: Sink,
    F: Shelf,
    A: Doors + Send,
    T: Clock + Send + Sync,
    G: Gate + Sync,
    C: OfCluster + Send + Sync,
    J: Site + Send + Sync,
    R: Threads + Wait + Sync,
>(
    rt: &R,
    alloc: Global,
    cluster: Cluster,
    table: StampTable<C>,
    mut pass: Pass<C>,
    port: u16,
    workers: u16,
    output: &mut O,
    shelf: &mut F,
    doors: &mut A,
    clock: &T,
    gate: &G,
) -> ServeEnd
    requires cluster { cluster ≡ C.cluster }
    requires table { (table ≡ J.table) × (pass.table ≡ J.table) }
    requires passes { pass.known.passes ≡ most_passes }
    requires ports { A.ports doors.old ≡ [] }
    requires out { F.out shelf.old ≡ 0 }
    requires workers { (1 ≤ workers) × (workers ≤ 16) }
    ensures serves { (told : List ℕ) × Appends (O.written output.old) (O.written output.new) told
        × IsServer (record { hands = F.hands; out = F.out; returned = F.returned; faults = F.faults; seen = F.Disk.seen; left_since = F.Disk.left_since })
        (record { ports = A.ports; is_open = A.is_open; handed = A.handed; back = A.back; left = A.left; faults = A.faults })
        (record { conns = record { remaining = A.Conn.remaining; written = A.Conn.written; faults = A.Conn.faults; closed = A.Conn.closed }; shows = T.shows; cluster = C.cluster; tells = F.Disk.tells })
        clock.now port shelf.old doors.old result shelf.new doors.new told }
    ensures output { O.faults output.new ≡ after_output result (O.faults output.old) }
{
    let Ok(devices) = cluster.devices().to_vec(alloc) else {
        return ServeEnd::NoMemory;
    };
    let disks = match take_disks(alloc, &cluster, shelf) {
        Ok(disks) => disks,
        Err(ShelfFault::Failed) => return ServeEnd::ShelfFault,
        Err(ShelfFault::NoMemory) => return ServeEnd::NoMemory,
    };
    match Cells::<F::Disk, C, J>::new(alloc, cluster, table, &mut pass, disks) {
        Ok(cells) => {
            let (mut pass, end) = serve_over(
                rt, alloc, &cells, pass, port, workers, output, doors, clock, gate,
            );
            put_back_each(shelf, cells.close(&mut pass));
            end
        }
        Err(fault) => refuse::<F, C>(shelf, &devices, fault),
    }
}

// Puts the disks back on the shelf that were not all mounted, where they are there.
fn refuse<F: Shelf, C: OfCluster>(
    shelf: &mut F,
    devices: &[Device],
    fault: CellsFault<F::Disk>,
) -> ServeEnd
    requires devices { devices.now ≡ C.cluster.devices }
    requires out { F.out shelf.old ≡ length C.cluster.devices }
    requires refused { (given : List F.Disk) × AreHanded F.Disk.seen F.hands C.cluster.devices given × IsRefusal F.Disk.seen F.Disk.left_since C.cluster given fault }
    ensures cause { IsUnready result }
    ensures came_back { result ≢ ServeEnd.NoMemory → CameBack (record { hands = F.hands; out = F.out; returned = F.returned; faults = F.faults; seen = F.Disk.seen; left_since = F.Disk.left_since }) C.cluster shelf.old shelf.new }
    ensures faults { F.faults shelf.new ≡ after_shelf result (F.faults shelf.old) }
{
    match fault {
        CellsFault::Mount { disks, .. } => {
            put_back(shelf, devices, disks);
            ServeEnd::ShelfFault
        }
        CellsFault::NoMemory => ServeEnd::NoMemory,
    }
}

// Serves the connections that come through the doors at the port, over the nodes.
fn serve_over<
    O: Sink,
    A: Doors + Send,
    D: Disk + Drop + Send + Sync,
    T: Clock + Send + Sync,
    G: Gate + Sync,
    C: OfCluster + Send + Sync,
    J: Site + Send + Sync,
    R: Threads + Wait + Sync,
>(
    rt: &R,
    alloc: Global,
    cells: &Cells<D, C, J>,
    pass: Pass<C>,
    port: u16,
    workers: u16,
    output: &mut O,
    doors: &mut A,
    clock: &T,
    gate: &G,
) -> (Pass<C>, ServeEnd)
    requires table { pass.table ≡ J.table }
    requires passes { workers + 2 < pass.known.passes }
    requires ports { A.ports doors.old ≡ [] }
    requires workers { (1 ≤ workers) × (workers ≤ 16) }
    ensures table { result.0.table ≡ J.table }
    ensures serves { (told : List ℕ) × Appends (O.written output.old) (O.written output.new) told
        × ServesOver
        (record { ports = A.ports; is_open = A.is_open; handed = A.handed; back = A.back; left = A.left; faults = A.faults })
        (record { conns = record { remaining = A.Conn.remaining; written = A.Conn.written; faults = A.Conn.faults; closed = A.Conn.closed }; shows = T.shows; cluster = C.cluster; tells = D.tells })
        clock.now port doors.old result.1 doors.new result.0.known told }
    ensures doors { A.faults doors.new ≡ after_doors result.1 (A.faults doors.old) }
    ensures output { O.faults output.new ≡ after_output result.1 (O.faults output.old) }
{
    if doors.open(port).is_err() {
        return (pass, ServeEnd::DoorFault);
    }
    if write_all(output, b"ready\n").is_err() {
        return (pass, ServeEnd::WriteFault);
    }
    let mut pass = pass;
    let Finished { doors: lent, stop } = serve_doors::<A, D, T, G, C, J, Brand, R>(
        rt,
        alloc,
        cells,
        &mut pass,
        workers,
        Lent { doors },
        clock,
        gate,
    );
    take_back(lent);
    match stop {
        Stop::Ended { count } => close(rt, alloc, cells, pass, workers, count, output, clock, gate),
        Stop::Failed => (pass, ServeEnd::DoorFault),
        Stop::NoMemory => (pass, ServeEnd::NoMemory),
    }
}

// Does nothing, but ties the doors that were lent to those that come back.
fn take_back<A>(_doors: &mut A)
    ensures { _doors.new ≡ _doors.old }
{}

// Serves the connections that come through open doors, by so many workers and one that repairs.
fn serve_doors<
    'a,
    A: Doors + Send,
    D: Disk + Drop + Send + Sync,
    T: Clock + Send + Sync,
    G: Gate + Sync,
    C: OfCluster + Send + Sync,
    J: Site + Send + Sync,
    B: Opening + Send + Sync,
    R: Threads + Wait + Sync,
>(
    rt: &R,
    alloc: Global,
    cells: &Cells<D, C, J>,
    pass: &mut Pass<C>,
    workers: u16,
    lent: Lent<'a, A>,
    clock: &T,
    gate: &G,
) -> Finished<'a, A>
    requires table { pass.old.table ≡ J.table }
    requires workers { (1 ≤ workers) × (workers ≤ 16) }
    requires passes { workers + 2 < pass.old.known.passes }
    requires borrow { lent.doors.ghost_name ≡ B.borrow }
    requires opened { A.is_open lent.doors.now ≡ true }
    requires began { B.began ≡ seen_of
        (record { ports = A.ports; is_open = A.is_open; handed = A.handed; back = A.back; left = A.left; faults = A.faults })
        (record { remaining = A.Conn.remaining; written = A.Conn.written; faults = A.Conn.faults; closed = A.Conn.closed })
        lent.doors.now }
    requires tells { B.tells ≡ D.tells }
    requires times { (time : ℕ) → T.shows clock.now time → B.times time }
    ensures table { pass.new.table ≡ J.table }
    ensures same_borrow { result.doors.ghost_name ≡ lent.entry.doors.ghost_name }
    ensures stop { IsStop
        (record { ports = A.ports; is_open = A.is_open; handed = A.handed; back = A.back; left = A.left; faults = A.faults })
        (record { conns = record { remaining = A.Conn.remaining; written = A.Conn.written; faults = A.Conn.faults; closed = A.Conn.closed }; shows = T.shows; cluster = C.cluster; tells = B.tells })
        B.times B.began result.stop result.doors.now pass.new.known }
{
    let table = cells.table();
    let seat = pass.split(table, 1);
    let first = pass.split(table, workers);
    let helper = pass.split(table, 1);
    let acceptor = Mutex::new(Acceptor::<A, T, C, J, B>::new(lent, seat));
    let signal = EndSignal::new();
    join(
        rt,
        || -> ()
            requires { helper.table ≡ J.table }
        { repair(rt, alloc, cells, helper, &signal, clock, gate, workers) },
        || -> ()
            requires { (first.table ≡ J.table) × (workers ≤ first.known.passes) × (B.tells ≡ D.tells) × ((time : ℕ) → T.shows clock.now time → B.times time) × (workers ≤ 16) }
        {
            work_all(
                rt, alloc, cells, first, &acceptor, &signal, clock, gate, 0, workers,
            );
            signal.close(rt);
        },
    );
    acceptor.into_inner().close(table, pass)
}

// Runs the last passes, and writes how many connections came.
fn close<O: Sink, D: Disk + Drop, T: Clock, G: Gate, C: OfCluster, J: Site, R: Wait>(
    rt: &R,
    alloc: Global,
    cells: &Cells<D, C, J>,
    pass: Pass<C>,
    worker: u16,
    count: u64,
    output: &mut O,
    clock: &T,
    gate: &G,
) -> (Pass<C>, ServeEnd)
    requires table { pass.table ≡ J.table }
    ensures table { result.0.table ≡ J.table }
    ensures closes { (told : List ℕ) × Appends (O.written output.old) (O.written output.new) told
        × Closes C.cluster D.tells T.shows clock.now count pass.known result.1 result.0.known told }
    ensures goes_on { GoesOn result.0.known pass.known }
    ensures output { O.faults output.new ≡ after_output result.1 (O.faults output.old) }
{
    let (pass, passed) = pass_once(rt, alloc, cells, pass, clock, gate, worker);
    if passed.is_err() {
        return (pass, ServeEnd::NoMemory);
    }
    let Ok(line) = format!(in alloc; "closed {count}\n") else {
        return (pass, ServeEnd::NoMemory);
    };
    match write_all(output, line.as_bytes()) {
        Ok(()) => (pass, ServeEnd::Closed { count }),
        Err(_) => (pass, ServeEnd::WriteFault),
    }
}
