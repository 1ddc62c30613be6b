//! Passes over a link.

ghost use Rattle.std.specs.Prelude.{◌≡◌, List, Some, IfOk};
ghost use Rattle.sw_ring.specs.Cluster.{ClusterModel};
ghost use Rattle.sw_message.specs.Message.{IsMember};
ghost use Rattle.sw_message.specs.Running.{AreCalls, StillTells};
ghost use Rattle.sw_message.specs.Transcript.{IsRun, Step};
ghost use Rattle.sw_daemon.specs.Pass.{IsEnd, IsNext};

use crate::pass_op::PassOp;
use crate::report::PassReport;
use std::alloc::Global;
use sw_message::{Link, run_whole};
use sw_ring::Cluster;
use sw_types::NoMemory;

/// Runs a pass of a device of the cluster over a link to its end: each message goes to the link once, and its answer to the pass.
pub fn pass<L: Link>(
    alloc: Global,
    cluster: &Cluster,
    device: u16,
    link: &mut L,
) -> Result<PassReport, NoMemory>
    requires member { IsMember cluster.now device }
    requires cluster { (of : ClusterModel) → L.cluster link.old ≡ Some of → cluster.now ≡ of }
    ensures runs { (past : List Step) × IsRun (IsNext (record { cluster = cluster.now; device = device })) past × AreCalls L.calls L.losses link.old past link.new
        × IfOk result (λ report. IsEnd (record { cluster = cluster.now; device = device }) past report) }
    ensures learns { StillTells (L.may_be_silent link.new) (L.learnt link.old) (L.learnt link.new) }
    ensures silence { L.may_be_silent link.old → L.may_be_silent link.new }
    ensures cluster { L.cluster link.new ≡ L.cluster link.old }
{
    let mut op = PassOp::begin(alloc, cluster, device);
    run_whole(&mut op, link)?;
    Ok(*op.end().unwrap())
}
