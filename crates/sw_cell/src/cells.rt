//! All nodes of a cluster, each behind a lock.

ghost use Rattle.std.specs.Prelude.{◌≡◌, ◌==◌, ◌++◌, ◌<◌, ◌≤◌, ◌+◌, List, ℕ, IfErr, IfOk, IfSome, IsSome, OnOk, OnErr, Some, length, position, vec_capacity};
ghost use Rattle.std.specs.List.{All};
ghost use Rattle.sw_message.specs.Message.{IsMember};
ghost use Rattle.sw_message.specs.Running.{IsOf};
ghost use Rattle.sw_disk.specs.Runs.{IfTold};
ghost use Rattle.sw_law_replayed.specs.Keeping.{IsEmptyFor};
ghost use Rattle.sw_pass.specs.Known.{HasSlot, slot_of};
ghost use Rattle.sw_cell.specs.Calling.{IsCalled, MayCall};
ghost use Rattle.sw_cell.specs.Cells.{ComesBack};
ghost use Rattle.sw_cell.specs.Learning.{HasGrown, HasLearnt};
ghost use Rattle.sw_cell.specs.Mounting.{AreEmpty, AreMounted, HasBegun, HaveBegun, IsRefusal};
ghost use Rattle.sw_cell.specs.Standing.{IsDiskOf, IsReplaced};

use crate::locked::Locked;
use crate::mounting::{CellsFault, mount_all};
use crate::site::Site;
use std::alloc::Global;
use std::marker::Model;
use std::sync::{Mutex, Wait};
use sw_disk::Disk;
use sw_message::{Msg, Reply};
use sw_objsrv::{MountFault, Node};
use sw_pass::{OfCluster, Pass, StampTable};
use sw_ring::{Cluster, Device};
use sw_types::NoMemory;

/// The nodes of a cluster, one for each of its devices, each behind a lock, beside the stamp table. Any number of threads may call them, each
/// with a pass of its own.
#[derive(Drop)]
pub struct Cells<D: Disk + Drop, C: OfCluster, J: Site> {
    cluster: Cluster,
    table: StampTable<C>,
    // By slot.
    locks: Vec<Mutex<Locked<D, C, J>>>,
    // Empty, with room for each disk.
    room: Vec<(u16, D)>,
}

impl<D: Disk + Drop, C: OfCluster, J: Site> Model for Cells<D, C, J> {
    ghost use Rattle.std.specs.Prelude.{◌≡◌, ◌≤◌, [], length, vec_capacity};
    ghost use Rattle.sw_cell.specs.Cells.{CellsModel};

    ghost Value = { CellsModel };

    ghost view = { λ it. record { table = it.table; cluster = it.cluster } };

    ghost invariant = { λ it. (it.table ≡ J.table) × (it.cluster ≡ C.cluster) × (length it.locks.items ≡ length C.cluster.devices) × (it.room.items ≡ []) × (length C.cluster.devices ≤ vec_capacity it.room) };
}

impl<D: Disk + Drop, C: OfCluster, J: Site> Cells<D, C, J> {
    /// The nodes of a cluster over empty disks, in the order of its devices, which are mounted. The table is a new one, and the pass its first
    /// seat. At `NoMemory` the disks are dropped.
    pub fn new(
        alloc: Global,
        cluster: Cluster,
        table: StampTable<C>,
        pass: &mut Pass<C>,
        disks: Vec<D>,
    ) -> Result<Cells<D, C, J>, CellsFault<D>>
        requires table { (table ≡ J.table) × (pass.old.table ≡ J.table) }
        requires cluster { cluster ≡ C.cluster }
        requires empty { AreEmpty D.seen C.cluster disks.items }
        ensures pass { pass.new ≡ pass.old }
        ensures mounted { IfOk result (λ cells. AreMounted D.seen D.left_since C.cluster disks.items) }
        ensures refused { IfErr result (IsRefusal D.seen D.left_since C.cluster disks.items) }
    {
        let Ok(room) = Vec::with_capacity(alloc, cluster.devices().len()) else {
            return Err(CellsFault::NoMemory);
        };
        let nodes = mount_all(alloc, &cluster, disks)?;
        let Ok(locks) = lock_all(alloc, &table, pass, nodes) else {
            return Err(CellsFault::NoMemory);
        };
        Ok(Cells {
            cluster,
            table,
            locks,
            room,
        })
    }

    /// The stamp table.
    pub fn table(&self) -> &StampTable<C>
        ensures { result.now ≡ J.table }
    {
        &self.table
    }

    /// The cluster.
    pub fn cluster(&self) -> &Cluster
        ensures { result.now ≡ C.cluster }
    {
        &self.cluster
    }

    /// Has the node of a device handle a message that the pass warrants, after a mount where one is due. It waits until no other thread calls the
    /// node. The pass knows then what happened.
    pub fn call<R: Wait>(
        &self,
        rt: &R,
        alloc: Global,
        pass: &mut Pass<C>,
        device: u16,
        msg: &Msg,
    ) -> Reply
        requires table { pass.old.table ≡ J.table }
        requires known { IsOf C.cluster device msg.now }
        requires warranted { MayCall C.cluster D.tells msg.now pass.old.known }
        ensures table { pass.new.table ≡ pass.old.table }
        ensures called { IsCalled C.cluster D.tells (slot_of C.cluster device) msg.now result pass.old.known pass.new.known }
    {
        let slot = slot_among(self.cluster.devices(), device).unwrap();
        let mut locked = self.locks[slot].lock(rt);
        // So it always is. That a lock stands at the slot of its node no contract can say.
        if usize::from(locked.position()) == slot {
            locked.call(alloc, &self.cluster, &self.table, pass, msg)
        } else {
            pass.learn(&self.table);
            Reply::NoMemory
        }
    }

    /// Puts an empty disk in the place of a device's, which is lost and comes back. It waits until no other thread calls the node. The loss is
    /// counted, and the pass knows of it. Where the new disk can't be mounted it comes back, nothing was counted, and the old one stays.
    pub fn replace<R: Wait>(
        &self,
        rt: &R,
        alloc: Global,
        pass: &mut Pass<C>,
        device: u16,
        disk: D,
    ) -> Result<D, (D, MountFault)>
        requires table { pass.old.table ≡ J.table }
        requires known { IsMember C.cluster device }
        requires empty { IfTold (D.seen disk).told (IsEmptyFor C.cluster device) }
        ensures table { pass.new.table ≡ pass.old.table }
        ensures replaced { IfOk result (λ lost. IsReplaced C.cluster D.seen device (slot_of C.cluster device) pass.old.known pass.new.known lost) }
        ensures pass { OnErr result (pass.new ≡ pass.old) }
        ensures refused { IfErr result (λ refused. ComesBack D.seen D.left_since C.cluster device disk refused.0 refused.1) }
    {
        let slot = slot_among(self.cluster.devices(), device).unwrap();
        let mut locked = self.locks[slot].lock(rt);
        // As in `call`.
        if usize::from(locked.position()) == slot {
            locked.replace(alloc, &self.cluster, &self.table, pass, device, disk)
        } else {
            Err((disk, MountFault::NoMemory))
        }
    }

    /// The disks, each with its device. The pass knows all that happened to them, and what each holds is what that replays to.
    pub fn close(self, pass: &mut Pass<C>) -> Vec<(u16, D)>
        requires table { pass.old.table ≡ J.table }
        ensures table { pass.new.table ≡ pass.old.table }
        ensures each { length result.items ≡ length C.cluster.devices }
        ensures learnt { HasLearnt C.cluster pass.old.known pass.new.known }
        ensures disks { All (λ one. IsDiskOf C.cluster D.seen pass.new.known one.0 one.1) result.items }
    {
        let Cells {
            cluster,
            table,
            locks,
            room,
        } = self;
        let mut locks = locks;
        let mut disks = room;
        close_each(&cluster, &table, pass, &mut locks, &mut disks);
        disks
    }
}

// The slot of a device among some, where it is there.
fn slot_among(devices: &[Device], id: u16) -> Option<usize>
    ensures { result ≡ position (λ device. device.id == id) devices.now }
{
    devices.iter().position(|device| device.id == id)
}

// The nodes behind locks, each with a seat that claimed its slot. Where a slot had been claimed, memory is said to be wanted.
fn lock_all<D: Disk + Drop, C: OfCluster, J: Site>(
    alloc: Global,
    table: &StampTable<C>,
    pass: &mut Pass<C>,
    nodes: Vec<Node<D>>,
) -> Result<Vec<Mutex<Locked<D, C, J>>>, NoMemory>
    requires table { (table.now ≡ J.table) × (pass.old.table ≡ J.table) }
    requires few { length C.cluster.devices ≤ 64 }
    requires begun { HaveBegun D.seen C.cluster nodes.items }
    ensures pass { pass.new ≡ pass.old }
    ensures locks { IfOk result (λ locks. length locks.items ≡ length C.cluster.devices) }
{
    let mut locks = Vec::with_capacity(alloc, nodes.len())?;
    let mut slot = 0u16;
    for node in nodes {
        let locked = lock::<D, C, J>(table, pass, node, slot)?;
        locks.push(Mutex::new(locked)).unwrap();
        slot += 1;
    }
    Ok(locks)
}

// A node with the seat that claims its slot.
fn lock<D: Disk + Drop, C: OfCluster, J: Site>(
    table: &StampTable<C>,
    pass: &mut Pass<C>,
    node: Node<D>,
    slot: u16,
) -> Result<Locked<D, C, J>, NoMemory>
    requires table { (table.now ≡ J.table) × (pass.old.table ≡ J.table) }
    requires begun { (device : Device) × HasBegun D.seen C.cluster device node }
    requires slot { HasSlot C.cluster node.device slot }
    ensures pass { pass.new ≡ pass.old }
    ensures locked { IfOk result (λ locked. (locked.node ≡ node) × (locked.slot ≡ slot)) }
{
    match pass.note(table).claim(table, slot) {
        Ok(seat) => Ok(Locked::new(node, seat)),
        Err(_) => Err(NoMemory),
    }
}

// Closes what stands behind these locks, the last one first to tell and last to be closed, and adds the disks.
fn close_each<D: Disk + Drop, C: OfCluster, J: Site>(
    cluster: &Cluster,
    table: &StampTable<C>,
    pass: &mut Pass<C>,
    locks: &mut Vec<Mutex<Locked<D, C, J>>>,
    disks: &mut Vec<(u16, D)>,
)
    requires table { (table.now ≡ J.table) × (pass.old.table ≡ J.table) }
    requires cluster { cluster.now ≡ C.cluster }
    requires room { length disks.old.items + length locks.old.items ≤ vec_capacity disks.old }
    ensures room { vec_capacity disks.old ≤ vec_capacity disks.new }
    ensures table { pass.new.table ≡ pass.old.table }
    ensures grown { HasGrown pass.old.known pass.new.known }
    ensures learnt { 0 < length locks.old.items → HasLearnt C.cluster pass.old.known pass.new.known }
    ensures each { (more : List (ℕ × D)) × (disks.new.items ≡ disks.old.items ++ more) × (length more ≡ length locks.old.items) × All (λ one. IsDiskOf C.cluster D.seen pass.new.known one.0 one.1) more }
{
    let Some(lock) = locks.pop() else {
        return;
    };
    let mut locked = lock.into_inner();
    let device = cluster.devices()[locked.position() as usize].id;
    locked.tell(table, pass);
    close_each(cluster, table, pass, locks, disks);
    disks.push((device, locked.close(table, pass))).unwrap();
}
