//! The nodes of a cluster.

ghost use Rattle.std.specs.Prelude.{◌≡◌, ◌<◌, ◌==◌, ℕ, false, true, List, [], None, Some, IfOk, IfSome, IsSome, OnErr, OnOk, length, position, slice_get};
ghost use Rattle.std.specs.List.{All};
ghost use Rattle.sw_memdisk.specs.Memory.{seen_of, state_of};
ghost use Rattle.sw_ring.specs.Cluster.{KeepsRules};
ghost use Rattle.sw_ring.specs.Ring.{is_among};
ghost use Rattle.sw_message.specs.Message.{IsMember, IsPlaceOf, place_in};
ghost use Rattle.sw_objsrv.specs.Handling.{folders_of};
ghost use Rattle.sw_objsrv.specs.Mounting.{fault_of};
ghost use Rattle.sw_objsrv.specs.Node.{IsNode};
ghost use Rattle.sw_sim_nodes.specs.Crashing.{Crashes, IsCrashedAt, WantsMemory};
ghost use Rattle.sw_sim_nodes.specs.Nodes.{Calls, IsHandledAt, IsRemountedAt, IsSettledDisk, Loses, MemNode, Restarts, Stops, devices_of, is_want, node_of};

use crate::crashing::crash_within;
use std::alloc::Global;
use std::marker::Model;
use sw_memdisk::MemDisk;
use sw_message::{Link, Msg, Reply};
use sw_objsrv::{MountFault, Node};
use sw_ring::{Cluster, Device};
use sw_types::NoMemory;

/// The nodes of a cluster that stands outside, one for each of its devices, on disks in memory.
///
/// They are a link: each message to a device that is up is handled by it at once, and one to a device that is down is lost. What a
/// node wants for memory it replies, and the nodes remember that there was such a reply.
#[derive(Drop)]
pub struct Nodes<'a> {
    alloc: Global,
    cluster: &'a Cluster,
    // Ascending by id, as the cluster's devices are.
    nodes: Vec<Node<MemDisk>>,
    // The devices that are down, and how many messages to them were lost.
    down: Vec<u16>,
    lost: u64,
    is_wanting: bool,
}

impl<'a> Model for Nodes<'a> {
    ghost use Rattle.sw_sim_nodes.specs.Crashing.{Crashes, IsCrashedAt};
    ghost use Rattle.sw_sim_nodes.specs.Nodes.{AreNodes, NodesModel};

    ghost Value = { NodesModel };

    ghost view = { λ all. record { cluster = all.cluster.now; nodes = all.nodes.items; down = all.down.items; lost = all.lost; is_wanting = all.is_wanting } };

    ghost invariant = { λ all. AreNodes (record { cluster = all.cluster.now; nodes = all.nodes.items; down = all.down.items; lost = all.lost; is_wanting = all.is_wanting }) };
}

impl<'a> Nodes<'a> {
    /// The nodes of a cluster, each up, on an empty disk of its device's capacity.
    pub fn new(alloc: Global, cluster: &'a Cluster) -> Result<Nodes<'a>, NoMemory>
        ensures cluster { IfOk result (λ all. all.cluster ≡ cluster.now) }
        ensures rules { IfOk result (λ all. KeepsRules all.cluster) }
        ensures wants { IfOk result (λ all. all.is_wanting ≡ false) }
        ensures up { IfOk result (λ all. all.down ≡ []) }
        ensures none_lost { IfOk result (λ all. all.lost ≡ 0) }
        ensures empty { IfOk result (λ all. (device : ℕ) (name : List ℕ) → devices_of all.nodes device name ≡ []) }
    {
        let mut nodes = Vec::new(alloc);
        'each: for device in cluster.devices() {
            nodes.push(empty_node(alloc, cluster, device.id, device.capacity)?)?;
        }
        Ok(Nodes {
            alloc,
            cluster,
            nodes,
            down: Vec::new(alloc),
            lost: 0,
            is_wanting: false,
        })
    }

    /// Their cluster.
    pub fn cluster(&self) -> &'a Cluster
        ensures { result.now ≡ self.now.cluster }
    {
        self.cluster
    }

    /// Whether some node wanted memory.
    pub fn is_wanting(&self) -> bool
        ensures { result ≡ self.now.is_wanting }
    {
        self.is_wanting
    }

    /// Remembers that memory was wanted elsewhere.
    pub fn give_up(&mut self)
        ensures { self.new ≡ record self.old { is_wanting = true } }
    {
        self.is_wanting = true;
    }

    /// A device is down from now on. Its power is gone; since nothing is pending on its disk, that leaves the disk as it is.
    pub fn stop(&mut self, device: u16) -> Result<(), NoMemory>
        ensures stops { OnOk result (Stops self.old device self.new) }
        ensures stays { self.old.is_wanting ≡ false → All (λ (node : MemNode). IsSettledDisk node.disk) self.old.nodes }
        ensures refused { OnErr result (self.new ≡ self.old) }
    {
        if !self.is_down(device) {
            self.down.push(device)?;
        }
        Ok(())
    }

    /// A device is up from now on. Where it was down, it mounts its disk.
    pub fn restart(&mut self, device: u16) -> Result<(), NoMemory>
        requires member { IsMember self.old.cluster device }
        requires goes_on { self.old.is_wanting ≡ false }
        ensures restarts { OnOk result (Restarts self.old device self.new) }
        ensures wants { OnErr result (self.new.is_wanting ≡ true) }
        ensures cluster { self.new.cluster ≡ self.old.cluster }
    {
        if !self.is_down(device) {
            return Ok(());
        }
        let slot = self.slot_of(device).unwrap();
        if remount_at(self.alloc, self.cluster, &mut self.nodes, slot).is_err() {
            self.is_wanting = true;
            return Err(NoMemory);
        }
        self.down.retain(|other| *other != device);
        Ok(())
    }

    /// A device that is up stops within the handling of a message, after so many device calls or at its end, and its disk
    /// crashes: of each folder's pending changes of names it keeps so many, at most all. The device is down from now on.
    pub fn crash(&mut self, device: u16, msg: &Msg, calls: u64, pick: u64) -> Result<(), NoMemory>
        requires member { IsMember self.old.cluster device }
        requires place { IsPlaceOf self.old.cluster (place_in msg.now) }
        requires up { is_among self.old.down device ≡ false }
        requires goes_on { self.old.is_wanting ≡ false }
        ensures crashes { OnOk result (Crashes self.old device msg.now calls pick self.new) }
        ensures wants { OnErr result (self.new.is_wanting ≡ true) }
        ensures cause { OnErr result (WantsMemory self.old device msg.now calls pick self.new) }
        ensures cluster { self.new.cluster ≡ self.old.cluster }
    {
        let slot = self.slot_of(device).unwrap();
        if self.down.push(device).is_err() {
            self.is_wanting = true;
            return Err(NoMemory);
        }
        if !crash_at(
            self.alloc,
            self.cluster,
            &mut self.nodes,
            slot,
            msg,
            calls,
            pick,
        ) {
            self.is_wanting = true;
            return Err(NoMemory);
        }
        Ok(())
    }

    /// The disk of a device is lost, and an empty one of its capacity is in its place. It is up or down as it was.
    pub fn lose(&mut self, device: u16) -> Result<(), NoMemory>
        requires { IsMember self.old.cluster device }
        ensures loses { OnOk result (Loses self.old device self.new) }
        ensures refused { OnErr result (self.new ≡ self.old) }
    {
        let slot = self.slot_of(device).unwrap();
        let capacity = self.cluster.devices()[slot].capacity;
        let node = empty_node(self.alloc, self.cluster, device, capacity)?;
        self.nodes[slot] = node;
        Ok(())
    }

    /// Whether a device is down.
    pub fn is_down(&self, device: u16) -> bool
        ensures { result ≡ is_among self.now.down device }
    {
        self.down.iter().any(|other| *other == device)
    }

    /// The disk of a device, where the cluster has it.
    pub fn disk(&self, device: u16) -> Option<&MemDisk>
        ensures known { IsMember self.now.cluster device → IsSome result }
        ensures disk { IfSome result (λ disk. (node : MemNode) × (node_of self.now.nodes device ≡ Some node) × (disk.now ≡ node.disk)) }
    {
        let slot = self.slot_of(device)?;
        let node = &self.nodes[slot];
        Some(node.disk())
    }

    // The slot of a device's node.
    fn slot_of(&self, device: u16) -> Option<usize>
        ensures known { IsMember self.now.cluster device → IsSome result }
        ensures slot { IfSome result (λ slot. (node : MemNode) × (slice_get self.now.nodes slot ≡ Some node) × (node.device ≡ device)) }
        ensures found { result ≡ position (λ other. other.id == device) self.now.cluster.devices }
    {
        place_in(self.cluster.devices(), device)
    }
}

impl<'a> Link for Nodes<'a> {
    ghost cluster = { λ all. Some all.cluster };

    ghost learnt = { λ all. None };

    ghost may_be_silent = { λ all. ⊥ };

    ghost calls = { Calls };

    ghost losses = { λ all. all.lost };

    ghost sound = { λ all. tt };

    fn call(&mut self, device: u16, msg: &Msg) -> Option<Reply> {
        if self.is_down(device) {
            self.lost = self.lost.saturating_add(1);
            return None;
        }
        let slot = self.slot_of(device).unwrap();
        let reply = handle_at(self.alloc, self.cluster, &mut self.nodes, slot, msg);
        self.is_wanting = self.is_wanting || is_want(&reply);
        Some(reply)
    }
}

// The slot of a device among some, where it is there.
fn place_in(devices: &[Device], id: u16) -> Option<usize>
    ensures { result ≡ position (λ device. device.id == id) devices.now }
{
    devices.iter().position(|device| device.id == id)
}

// A node of the cluster on an empty disk of so many bytes.
fn empty_node(
    alloc: Global,
    cluster: &Cluster,
    device: u16,
    capacity: u64,
) -> Result<Node<MemDisk>, NoMemory>
    requires { IsMember cluster.now device }
    ensures node { IfOk result (IsNode cluster.now seen_of) }
    ensures device { IfOk result (λ node. node.device ≡ device) }
    ensures capacity { IfOk result (λ node. node.disk.capacity ≡ capacity) }
    ensures mounted { IfOk result (λ node. node.is_due ≡ false) }
    ensures settled { IfOk result (λ node. IsSettledDisk node.disk) }
    ensures empty { IfOk result (λ node. (name : List ℕ) → folders_of (state_of node.disk) name ≡ []) }
{
    let disk = MemDisk::new(alloc, capacity, Vec::new(alloc));
    match Node::mount(alloc, disk, device, cluster) {
        Ok(node) => Ok(node),
        Err(_) => Err(NoMemory),
    }
}

// Has the node at a slot handle a message.
fn handle_at(
    alloc: Global,
    cluster: &Cluster,
    nodes: &mut [Node<MemDisk>],
    slot: usize,
    msg: &Msg,
) -> Reply
    requires at { slot < length nodes.old }
    requires are { All (IsNode cluster.now seen_of) nodes.old }
    requires of { IsPlaceOf cluster.now (place_in msg.now) }
    ensures { IsHandledAt cluster.now slot msg.now result nodes.old nodes.new }
{
    let node = &mut nodes[slot];
    node.handle(alloc, cluster, msg)
}

// Has the device of the node at a slot lose power within the handling of a message. Whether it was that, and no want of memory.
fn crash_at(
    alloc: Global,
    cluster: &Cluster,
    nodes: &mut [Node<MemDisk>],
    slot: usize,
    msg: &Msg,
    calls: u64,
    pick: u64,
) -> bool
    requires at { slot < length nodes.old }
    requires are { All (IsNode cluster.now seen_of) nodes.old }
    requires of { IsPlaceOf cluster.now (place_in msg.now) }
    ensures { IsCrashedAt cluster.now slot msg.now calls pick result nodes.old nodes.new }
{
    let node = &mut nodes[slot];
    crash_within(alloc, cluster, node, msg, calls, pick)
}

// Mounts the node at a slot again.
fn remount_at(
    alloc: Global,
    cluster: &Cluster,
    nodes: &mut [Node<MemDisk>],
    slot: usize,
) -> Result<(), MountFault>
    requires at { slot < length nodes.old }
    requires are { All (IsNode cluster.now seen_of) nodes.old }
    ensures { IsRemountedAt cluster.now slot (fault_of result) nodes.old nodes.new }
{
    let node = &mut nodes[slot];
    node.remount(alloc, cluster)
}

// Whether a reply says that memory was wanted.
fn is_want(reply: &Reply) -> bool
    ensures { result ≡ is_want reply.now }
{
    match reply {
        Reply::NoMemory | Reply::DiskFault => true,
        _ => false,
    }
}
