//! Nodes.

ghost use Rattle.std.specs.Prelude.{◌≡◌, IfErr, IfOk, None, Some, false, true};
ghost use Rattle.std.specs.Borrow.{Lends, sem};
ghost use Rattle.sw_message.specs.Message.{IsMember, IsPlaceOf, place_in};
ghost use Rattle.sw_objsrv.specs.Handling.{refused_reply};
ghost use Rattle.sw_objsrv.specs.Mounting.{Mounts, fault_of};
ghost use Rattle.sw_objsrv.specs.Node.{Handled, HandlesWhenMounted, IsNode, Remounts, mount_reply};

use crate::fault::MountFault;
use crate::handling::answer;
use crate::mounting::mount_places;
use std::alloc::Global;
use std::marker::Model;
use sw_disk::{Disk, DiskRefusal};
use sw_message::{Msg, Reply};
use sw_ring::Cluster;
use sw_suffix::SuffixTable;

/// An object server: the node of a device of a cluster, over its disk.
#[derive(Drop)]
pub struct Node<D> {
    disk: D,
    device: u16,
    floors: SuffixTable,
    is_due: bool,
}

impl<D> Model for Node<D> {
    ghost use Rattle.sw_objsrv.specs.Node.{NodeModel};

    ghost Value = { NodeModel D };

    ghost view = { λ node. record { disk = node.disk; device = node.device; power = node.floors.power; floors = node.floors.floors; is_due = node.is_due } };
}

impl<D: Disk> Node<D> {
    ghost use Rattle.sw_objsrv.specs.contracts.node.Node.{the_row};

    /// The node of a device over a disk, whose places are mounted: the folder of each is brought to normal form, with nothing
    /// pending. Where that is refused the disk is handed back.
    pub fn mount(
        alloc: Global,
        disk: D,
        device: u16,
        cluster: &Cluster,
    ) -> Result<Node<D>, (D, MountFault)>
        requires { IsMember cluster.now device }
        ensures mounted { IfOk result (λ node. Mounts D.seen D.left_since cluster.now device None disk node.disk) }
        ensures node { IfOk result (IsNode cluster.now D.seen) }
        ensures device { IfOk result (λ node. (node.device ≡ device) × (node.is_due ≡ false)) }
        ensures refused { IfErr result (λ refused. Mounts D.seen D.left_since cluster.now device (Some refused.1) disk refused.0) }
    {
        let mut disk = disk;
        match mount_places(alloc, &mut disk, cluster, device) {
            Ok(floors) => Ok(Node {
                disk,
                device,
                floors,
                is_due: false,
            }),
            Err(fault) => Err((disk, fault)),
        }
    }

    /// Handles a message of a place of the cluster that the node was mounted with. Where a failure left a remount due, that
    /// comes first.
    pub fn handle(&mut self, alloc: Global, cluster: &Cluster, msg: &Msg) -> Reply
        requires node { IsNode cluster.now D.seen self.old }
        requires place { IsPlaceOf cluster.now (place_in msg.now) }
        ensures node { IsNode cluster.now D.seen self.new }
        ensures handles { HandlesWhenMounted D.seen D.left_since cluster.now msg.now result self.old self.new }
    {
        if self.is_due {
            if let Err(fault) = self.remount(alloc, cluster) {
                return reply_to(fault);
            }
        }
        self.handle_mounted(alloc, cluster, msg)
    }

    // Handles a message, with no remount due.
    fn handle_mounted(&mut self, alloc: Global, cluster: &Cluster, msg: &Msg) -> Reply
        requires node { IsNode cluster.now D.seen self.old }
        requires mounted { self.old.is_due ≡ false }
        requires place { IsPlaceOf cluster.now (place_in msg.now) }
        ensures node { IsNode cluster.now D.seen self.new }
        ensures handled { Handled D.seen D.left_since cluster.now msg.now result self.old self.new }
    {
        let answered = answer(
            alloc,
            &mut self.disk,
            &mut self.floors,
            cluster,
            self.device,
            msg,
        );
        match answered {
            Ok(reply) => reply,
            Err(refusal) => {
                self.is_due = refusal == DiskRefusal::Failed;
                refused(refusal)
            }
        }
    }

    /// Mounts the places again. After a refusal the node stays marked to mount them before it handles a message.
    pub fn remount(&mut self, alloc: Global, cluster: &Cluster) -> Result<(), MountFault>
        requires { IsNode cluster.now D.seen self.old }
        ensures node { IsNode cluster.now D.seen self.new }
        ensures remounts { Remounts D.seen D.left_since cluster.now (fault_of result) self.old self.new }
    {
        self.is_due = true;
        self.floors = mount_places(alloc, &mut self.disk, cluster, self.device)?;
        self.is_due = false;
        Ok(())
    }

    /// Its device lost power: it mounts its places before it handles a message.
    pub fn lose_power(&mut self)
        ensures { self.new ≡ record self.old { is_due = true } }
    {
        self.is_due = true;
    }

    /// Its disk.
    pub fn unmount(self) -> D
        ensures { result ≡ self.disk }
    {
        self.disk
    }

    /// Its disk, lent.
    pub fn disk(&self) -> &D
        ensures { result.now ≡ self.now.disk }
    {
        &self.disk
    }

    /// Its disk, lent for change: the node is the same but for what is left of it.
    pub fn disk_mut(&mut self) -> &mut D
        ensures value { result.now ≡ self.old.disk }
        ensures* writes_back { sem 𝓛 (Lends (the_row D.row) D.row self.entry result (λ disk. record self.old { disk = disk })) }
    {
        &mut self.disk
    }
}

// The reply to a message whose handling was refused.
fn refused(refusal: DiskRefusal) -> Reply
    ensures { result ≡ refused_reply refusal }
{
    match refusal {
        DiskRefusal::Failed => Reply::DiskFault,
        DiskRefusal::Full { need, free } => Reply::NoSpace { need, free },
        DiskRefusal::NoMemory => Reply::NoMemory,
    }
}

// The reply to a message before which the places were not mounted.
fn reply_to(fault: MountFault) -> Reply
    ensures { result ≡ mount_reply fault }
{
    match fault {
        MountFault::Failed => Reply::DiskFault,
        MountFault::NoMemory => Reply::NoMemory,
    }
}
