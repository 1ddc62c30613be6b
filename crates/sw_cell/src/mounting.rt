//! The disks of a cluster's devices, mounted as its nodes.

ghost use Rattle.std.specs.Prelude.{◌≡◌, ◌≤◌, ◌+◌, ◌++◌, IfErr, IfOk, length, map};
ghost use Rattle.std.specs.VecDeque.{deque_capacity};
ghost use Rattle.sw_objsrv.specs.Node.{NodeModel};
ghost use Rattle.sw_cell.specs.Mounting.{AreEmpty, HaveBegun, HaveMounted, IsRefusal};

use std::alloc::Global;
use std::collections::VecDeque;
use sw_disk::Disk;
use sw_objsrv::{MountFault, Node};
use sw_ring::Cluster;

/// Why the nodes of a cluster do not stand behind locks.
#[derive(Drop)]
pub enum CellsFault<D> {
    /// The disk of this device could not be mounted, and its count of faults rose. All disks come back, in the order of their devices.
    Mount { device: u16, disks: Vec<D> },
    NoMemory,
}

/// The nodes of a cluster, each on its disk, which was mounted. The disks are given in the order of the devices.
pub(crate) fn mount_all<D: Disk + Drop>(
    alloc: Global,
    cluster: &Cluster,
    disks: Vec<D>,
) -> Result<Vec<Node<D>>, CellsFault<D>>
    requires empty { AreEmpty D.seen cluster.now disks.items }
    ensures nodes { IfOk result (λ nodes. HaveBegun D.seen cluster.now nodes.items) }
    ensures mounted { IfOk result (λ nodes. HaveMounted D.seen D.left_since cluster.now cluster.now.devices disks.items nodes.items) }
    ensures refused { IfErr result (IsRefusal D.seen D.left_since cluster.now disks.items) }
{
    let Ok(mut nodes) = Vec::with_capacity(alloc, cluster.devices().len()) else {
        return Err(CellsFault::NoMemory);
    };
    let mut left = VecDeque::from(disks);
    'each: for device in cluster.devices() {
        let Some(disk) = left.pop_front() else {
            return Ok(nodes);
        };
        match Node::mount(alloc, disk, device.id, cluster) {
            Ok(node) => nodes.push(node).unwrap(),
            Err((_, MountFault::NoMemory)) => return Err(CellsFault::NoMemory),
            Err((disk, MountFault::Failed)) => {
                left.push_front(disk).unwrap();
                unmount_all(nodes, &mut left);
                return Err(CellsFault::Mount {
                    device: device.id,
                    disks: left.into(),
                });
            }
        }
    }
    Ok(nodes)
}

// Puts the disks of nodes before those that are left, in order.
fn unmount_all<D: Disk + Drop>(nodes: Vec<Node<D>>, left: &mut VecDeque<D>)
    requires room { length nodes.items + length left.old.items ≤ deque_capacity left.old }
    ensures { left.new.items ≡ map (λ (node : NodeModel D). node.disk) nodes.items ++ left.old.items }
{
    for node in nodes.into_iter().rev() {
        left.push_front(node.unmount()).unwrap();
    }
}
