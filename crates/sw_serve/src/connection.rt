//! Connections over nodes behind locks.

ghost use Rattle.std.specs.Prelude.{◌≡◌, true, false};
ghost use Rattle.sw_serve.specs.Ends.{CountsEnd};
ghost use Rattle.sw_serve.specs.Soundly.{ServesSoundly};

use crate::end::ConnEnd;
use crate::serving::serve_over;
use std::alloc::Global;
use std::sync::Wait;
use sw_cell::{Cells, Site};
use sw_disk::Disk;
use sw_io::{Clock, Conn, Gate};
use sw_local::LocalLink;
use sw_pass::{OfCluster, Pass};

/// Serves a connection for one worker over nodes behind locks, which other workers may call meanwhile: its requests are read and answered one
/// behind the other, at most a thousand, and it is closed. The pass comes back, with all that the worker has learnt by it.
pub fn serve_connection<N: Conn, D: Disk + Drop, C: OfCluster, J: Site, T: Clock, G: Gate, R: Wait>(
    rt: &R,
    alloc: Global,
    conn: &mut N,
    pass: Pass<C>,
    cells: &Cells<D, C, J>,
    clock: &T,
    gate: &G,
    worker: u16,
) -> (Pass<C>, ConnEnd)
    requires table { pass.table ≡ J.table }
    requires not_closed { N.closed conn.old ≡ false }
    ensures table { result.0.table ≡ J.table }
    ensures serves { ServesSoundly C.cluster D.tells T.shows clock.now (N.remaining conn.old) (N.remaining conn.new) (N.written conn.old) (N.written conn.new) (N.faults conn.old) (N.faults conn.new) pass.known result.1 result.0.known }
    ensures counts { CountsEnd result.1 (N.faults conn.old) (N.faults conn.new) }
    ensures closed { N.closed conn.new ≡ true }
{
    let mut link = LocalLink::new(rt, alloc, cells, pass, clock, gate, worker, Vec::new(alloc));
    let end = serve_over(alloc, conn, cells.cluster(), &mut link);
    (link.finish(), end)
}
