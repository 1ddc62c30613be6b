//! Workers that serve connections, side by side.

ghost use Rattle.std.specs.Prelude.{◌≡◌, ◌<◌, ◌≤◌, ◌+◌, ◌^◌, ℕ, IfSome};
ghost use Rattle.sw_server.specs.Served.{HasArrived, IsServed};
ghost use Rattle.sw_server.specs.Visits.{IsFresh};

use crate::acceptor::Acceptor;
use crate::opening::Opening;
use crate::signal::EndSignal;
use std::alloc::Global;
use std::sync::{Mutex, Wait};
use std::thread::{Threads, join};
use sw_cell::{Cells, Site};
use sw_disk::Disk;
use sw_io::{Clock, Conn, Doors, Gate, GatePoint};
use sw_pass::{OfCluster, Pass};
use sw_serve::serve_connection;

/// Runs workers with these numbers, each of which serves connections until none comes any more.
#[cycle(calls)]
pub(crate) fn work_all<
    'a,
    A: Doors + Send,
    D: Disk + Drop + Send + Sync,
    T: Clock + Send + Sync,
    G: Gate + Sync,
    C: OfCluster + Send + Sync,
    J: Site + Send + Sync,
    B: Opening + Send + Sync,
    R: Threads + Wait + Sync,
>(
    rt: &R,
    alloc: Global,
    cells: &Cells<D, C, J>,
    pass: Pass<C>,
    acceptor: &Mutex<Acceptor<'a, A, T, C, J, B>>,
    signal: &EndSignal,
    clock: &T,
    gate: &G,
    first: u16,
    count: u16,
)
    requires table { pass.table ≡ J.table }
    requires tells { B.tells ≡ D.tells }
    requires times { (time : ℕ) → T.shows clock.now time → B.times time }
    requires numbers { first + count < 2 ^ 16 }
    requires passes { count ≤ pass.known.passes }
{
    if count <= 1 {
        work(rt, alloc, cells, pass, acceptor, signal, clock, gate, first);
        return;
    }
    let low = count / 2;
    let high = count - low;
    let next = first + low;
    let mut pass = pass;
    let other = pass.split(cells.table(), high);
    let back = move || -> ()
        requires { (other.table ≡ J.table) × (high ≤ other.known.passes) × (B.tells ≡ D.tells) × ((time : ℕ) → T.shows clock.now time → B.times time) × (next + high < 2 ^ 16) }
    {
        work_all(
            rt, alloc, cells, other, acceptor, signal, clock, gate, next, high,
        )
    };
    let front = move || -> ()
        requires { (pass.table ≡ J.table) × (low ≤ pass.known.passes) × (B.tells ≡ D.tells) × ((time : ℕ) → T.shows clock.now time → B.times time) × (first + low < 2 ^ 16) }
    {
        work_all(
            rt, alloc, cells, pass, acceptor, signal, clock, gate, first, low,
        )
    };
    join(rt, back, front);
}

// Serves connections until this worker gets no other one, and tells of the end of each.
fn work<
    'a,
    A: Doors,
    D: Disk + Drop,
    T: Clock,
    G: Gate,
    C: OfCluster,
    J: Site,
    B: Opening,
    R: Wait,
>(
    rt: &R,
    alloc: Global,
    cells: &Cells<D, C, J>,
    pass: Pass<C>,
    acceptor: &Mutex<Acceptor<'a, A, T, C, J, B>>,
    signal: &EndSignal,
    clock: &T,
    gate: &G,
    worker: u16,
)
    requires table { pass.table ≡ J.table }
    requires tells { B.tells ≡ D.tells }
    requires times { (time : ℕ) → T.shows clock.now time → B.times time }
{
    let mut pass = pass;
    let mut held = None;
    for _ in rt.forever() {
        let next = acceptor.lock(rt).accept(cells.table(), &mut pass, held);
        let Some(conn) = next else {
            return;
        };
        let (conn, learnt) = serve_one::<_, _, _, _, _, _, B, _>(
            rt, alloc, cells, conn, pass, clock, gate, worker,
        );
        pass = learnt;
        held = Some(conn);
        signal.tell(rt);
    }
}

// Serves a connection, and tells what the pass has learnt by it.
fn serve_one<
    N: Conn,
    D: Disk + Drop,
    T: Clock,
    G: Gate,
    C: OfCluster,
    J: Site,
    B: Opening,
    R: Wait,
>(
    rt: &R,
    alloc: Global,
    cells: &Cells<D, C, J>,
    conn: N,
    pass: Pass<C>,
    clock: &T,
    gate: &G,
    worker: u16,
) -> (N, Pass<C>)
    requires table { pass.table ≡ J.table }
    requires tells { B.tells ≡ D.tells }
    requires times { (time : ℕ) → T.shows clock.now time → B.times time }
    requires fresh { IsFresh (record { remaining = N.remaining; written = N.written; faults = N.faults; closed = N.closed }) conn }
    requires arrived { HasArrived B.began.left (N.remaining conn) }
    ensures table { result.1.table ≡ J.table }
    ensures served { IsServed
        (record { conns = record { remaining = N.remaining; written = N.written; faults = N.faults; closed = N.closed }; shows = T.shows; cluster = C.cluster; tells = B.tells })
        B.times B.began.left result.1.known result.0 }
{
    let mut conn = conn;
    gate.at(worker, GatePoint::Accepted);
    // How the connection ended is its own matter.
    let (pass, _end) = serve_connection(rt, alloc, &mut conn, pass, cells, clock, gate, worker);
    (conn, pass)
}
