//! The worker that runs the reconstructors' passes.

ghost use Rattle.std.specs.Prelude.{◌≡◌};

use crate::passing::pass_once;
use crate::signal::EndSignal;
use std::alloc::Global;
use std::sync::Wait;
use sw_cell::{Cells, Site};
use sw_disk::Disk;
use sw_io::{Clock, Gate};
use sw_pass::{OfCluster, Pass};

/// Runs a pass of each device behind ends of connections, several of which may share one, until these were all.
pub(crate) fn repair<D: Disk + Drop, T: Clock, G: Gate, C: OfCluster, J: Site, R: Wait>(
    rt: &R,
    alloc: Global,
    cells: &Cells<D, C, J>,
    pass: Pass<C>,
    signal: &EndSignal,
    clock: &T,
    gate: &G,
    worker: u16,
)
    requires { pass.table ≡ J.table }
{
    let mut pass = pass;
    let mut seen = 0;
    for _ in rt.forever() {
        let ends = signal.wait(rt, seen);
        if ends.are_all {
            return;
        }
        seen = ends.count;
        // A pass that wants memory ends there, and one behind a later end goes on.
        let (known, _passed) = pass_once(rt, alloc, cells, pass, clock, gate, worker);
        pass = known;
    }
}
