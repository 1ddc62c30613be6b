//! Passes of the reconstructors of all devices.

ghost use Rattle.std.specs.Prelude.{◌≡◌, Bool, OnOk, Some, false, is_ok, true};
ghost use Rattle.sw_ring.specs.Cluster.{ClusterModel, ids_of};
ghost use Rattle.sw_server.specs.Closing.{RunOnce};
ghost use Rattle.sw_server.specs.Passes.{RunPasses};
ghost use Rattle.sw_server.specs.Served.{GoesOn};

use std::alloc::Global;
use std::sync::Wait;
use sw_cell::{Cells, Site};
use sw_daemon::pass;
use sw_disk::Disk;
use sw_io::{Clock, Gate};
use sw_local::LocalLink;
use sw_message::Draw;
use sw_pass::{OfCluster, Pass};
use sw_ring::Cluster;
use sw_types::NoMemory;

/// Runs a pass of each device of the cluster, ascending, up to the first for which memory is wanted.
pub(crate) fn pass_over_all<L: Draw>(
    alloc: Global,
    cluster: &Cluster,
    link: &mut L,
) -> Result<(), NoMemory>
    requires { (of : ClusterModel) → L.cluster link.old ≡ Some of → cluster.now ≡ of }
    ensures passes { RunPasses (record { draws = L.draws; calls = L.calls; losses = L.losses; refusals = L.refusals; learnt = L.learnt; may_be_silent = L.may_be_silent }) cluster.now (ids_of cluster.now) (is_ok result) link.old link.new }
    ensures cluster { L.cluster link.new ≡ L.cluster link.old }
{
    'each: for device in cluster.devices() {
        pass(alloc, cluster, device.id, link)?;
    }
    Ok(())
}

/// Runs a pass of each device over the nodes, from what a seat knows, and answers whether there was memory for all of it, at the nodes too.
pub(crate) fn pass_once<D: Disk + Drop, T: Clock, G: Gate, C: OfCluster, J: Site, R: Wait>(
    rt: &R,
    alloc: Global,
    cells: &Cells<D, C, J>,
    known: Pass<C>,
    clock: &T,
    gate: &G,
    worker: u16,
) -> (Pass<C>, Result<(), NoMemory>)
    requires table { known.table ≡ J.table }
    ensures table { result.0.table ≡ J.table }
    ensures ran { (is_whole : Bool) × (wants : Bool) × RunOnce C.cluster D.tells T.shows clock.now is_whole wants known.known result.0.known }
    ensures whole { OnOk result.1 (RunOnce C.cluster D.tells T.shows clock.now true false known.known result.0.known) }
    ensures goes_on { GoesOn result.0.known known.known }
{
    let mut link = LocalLink::new(
        rt,
        alloc,
        cells,
        known,
        clock,
        gate,
        worker,
        Vec::new(alloc),
    );
    let passed = pass_over_all(alloc, cells.cluster(), &mut link);
    let wants = link.wants();
    let pass = link.finish();
    if wants {
        return (pass, Err(NoMemory));
    }
    (pass, passed)
}
