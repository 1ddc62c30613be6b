//! An object server of a cluster, on a disk in memory.

ghost use Rattle.std.specs.Prelude.{◌≡◌, ◌↔◌, true, IfOk, IsTrue};
ghost use Rattle.sw_memdisk.specs.Memory.{LeftBy, seen_of};
ghost use Rattle.sw_ring.specs.Ring.{is_among};
ghost use Rattle.sw_ring.specs.Rules.{device_ids};
ghost use Rattle.sw_message.specs.Message.{IsMember, IsPlaceOf, place_in};
ghost use Rattle.sw_objsrv.specs.Node.{HandlesWhenMounted};

use anyhow::{Result, bail, ensure};
use std::alloc::Global;
use std::marker::Model;
use sw_hashpath::place_of;
use sw_memdisk::MemDisk;
use sw_message::{Msg, Reply};
use sw_objsrv::Node;
use sw_ring::{Cluster, Device, built_in};

/// The node of a device of the cluster of the built-in ring, and that cluster.
#[derive(Drop)]
pub struct Server {
    cluster: Cluster,
    node: Node<MemDisk>,
}

impl Model for Server {
    ghost use Rattle.node_bench.specs.Server.{IsServer, ServerModel};

    ghost Value = { ServerModel };

    ghost view = { λ server. record { cluster = server.cluster; node = server.node } };

    ghost invariant = { λ server. IsServer (record { cluster = server.cluster; node = server.node }) };
}

impl Server {
    /// The server of a device over a disk, mounted.
    pub fn start(alloc: Global, device: u16, disk: MemDisk) -> Result<Server> {
        let cluster = Cluster::read(alloc, built_in())?;
        ensure!(
            is_member(&cluster, device),
            "device {device} is none of the cluster's"
        );
        match Node::mount(alloc, disk, device, &cluster) {
            Ok(node) => Ok(Server { cluster, node }),
            Err((_disk, fault)) => bail!(fault),
        }
    }

    /// What it answers a message.
    pub fn answer(&mut self, alloc: Global, msg: &Msg) -> Result<Reply>
        ensures { IfOk result (λ reply. HandlesWhenMounted seen_of LeftBy self.old.cluster msg.now reply self.old.node self.new.node) }
    {
        ensure!(
            is_about(&self.cluster, msg),
            "the place is none of the cluster's"
        );
        Ok(self.node.handle(alloc, &self.cluster, msg))
    }

    /// Its cluster.
    pub fn cluster(&self) -> &Cluster
        ensures { result.now ≡ self.now.cluster }
    {
        &self.cluster
    }

    /// Its disk.
    pub fn disk(&self) -> &MemDisk
        ensures { result.now ≡ self.now.node.disk }
    {
        self.node.disk()
    }

    /// Its disk, handed back.
    pub fn stop(self) -> MemDisk
        ensures { result ≡ self.node.disk }
    {
        let Server { cluster: _, node } = self;
        node.unmount()
    }
}

// Whether a device is one of the cluster.
fn is_member(cluster: &Cluster, device: u16) -> bool
    ensures { IsTrue result ↔ IsMember cluster.now device }
{
    has_id(cluster.devices(), device)
}

// Whether one of these devices has an id.
fn has_id(devices: &[Device], id: u16) -> bool
    ensures { result ≡ is_among (device_ids devices.now) id }
{
    match devices {
        [] => false,
        [device, devices @ ..] => device.id == id || has_id(devices, id),
    }
}

// Whether a message is about no place, or about one of the cluster.
fn is_about(cluster: &Cluster, msg: &Msg) -> bool
    ensures { result ≡ true → IsPlaceOf cluster.now (place_in msg.now) }
{
    match msg.place() {
        Some(place) => place_of(place.hash(), cluster.part_power()) == place,
        None => true,
    }
}
