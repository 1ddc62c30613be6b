//! A node whose device loses power within the handling of a message.

ghost use Rattle.std.specs.Prelude.{◌≡◌};
ghost use Rattle.sw_memdisk.specs.Memory.{seen_of};
ghost use Rattle.sw_message.specs.Message.{IsPlaceOf, place_in};
ghost use Rattle.sw_objsrv.specs.Node.{IsNode};
ghost use Rattle.sw_sim_nodes.specs.Crashing.{IsCrashedNode, cut_of};

use std::alloc::Global;
use sw_memdisk::MemDisk;
use sw_message::{Msg, Reply};
use sw_objsrv::Node;
use sw_ring::Cluster;

/// Has a node handle a message over a disk that stops after so many device calls, and loses power then or at the end of the
/// handling. Whether it was that, and no want of memory. The first call only lists, so none is done as one is.
pub(crate) fn crash_within(
    alloc: Global,
    cluster: &Cluster,
    node: &mut Node<MemDisk>,
    msg: &Msg,
    calls: u64,
    pick: u64,
) -> bool
    requires node { IsNode cluster.now seen_of node.old }
    requires place { IsPlaceOf cluster.now (place_in msg.now) }
    ensures { IsCrashedNode cluster.now msg.now calls pick result node.old node.new }
{
    let calls = calls.max(1);
    let begun = node.disk().calls();
    node.disk_mut().fuse(calls);
    let reply = node.handle(alloc, cluster, msg);
    let ended = node.disk().calls();
    node.disk_mut().crash(pick);
    node.lose_power();
    is_cut(&reply, begun.saturating_add(calls) < ended)
}

// Whether a handling that replied so was cut short, or was done.
fn is_cut(reply: &Reply, is_used_up: bool) -> bool
    ensures { result ≡ cut_of reply.now is_used_up }
{
    match reply {
        Reply::NoMemory => false,
        Reply::DiskFault => is_used_up,
        _ => true,
    }
}
