//! What stands behind the lock of a device.

ghost use Rattle.std.specs.Prelude.{◌≡◌, ◌∷◌, ℕ, IfErr, IfOk, OnErr, OnOk, false, true, None, Some};
ghost use Rattle.sw_message.specs.Message.{IsPlaceOf, place_in};
ghost use Rattle.sw_disk.specs.Runs.{IfTold};
ghost use Rattle.sw_objsrv.specs.Mounting.{Mounts, fault_of};
ghost use Rattle.sw_objsrv.specs.Node.{IsNode};
ghost use Rattle.sw_law_replayed.specs.Keeping.{IsEmptyFor};
ghost use Rattle.sw_law_replayed.specs.Standing.{IsReplayed};
ghost use Rattle.sw_view.specs.declared.event.Event.TheVariants.{Replaced};
ghost use Rattle.sw_pass.specs.Known.{Covers, HasSlot, history};
ghost use Rattle.sw_pass.specs.Steps.{MayAdvance, advanced, old_of};
ghost use Rattle.sw_cell.specs.Calling.{HasReplied, IsCalled, MayCall, event_of, mount_event, remounted_events, replied_events, shown};
ghost use Rattle.sw_cell.specs.Handling.{CountsReply, CountsMount, HasAdded, MayHandle, MayReply};
ghost use Rattle.sw_cell.specs.Learning.{HasLearnt};
ghost use Rattle.sw_cell.specs.Cells.{ComesBack};
ghost use Rattle.sw_cell.specs.Locked.{AreCounted, IsLike};
ghost use Rattle.sw_cell.specs.Standing.{IsDiskOf, IsReplaced};

use crate::site::Site;
use std::alloc::Global;
use std::marker::{Brand, Model, PhantomData};
use std::mem::replace;
use sw_disk::Disk;
use sw_message::{Msg, Reply};
use sw_objsrv::{MountFault, Node};
use sw_pass::{Happening, NodeSeat, OfCluster, Pass, StampTable};
use sw_ring::Cluster;

/// The node of a device, and the seat of the stamp table that adds to the device's history. What the disk holds, where it tells, is what
/// that history replays to.
#[derive(Drop)]
pub struct Locked<D: Disk, C: OfCluster, J: Site> {
    node: Node<D>,
    seat: NodeSeat<C>,
    // Whether the node mounts again before it handles a message.
    is_due: bool,
    site: PhantomData<J>,
}

impl<D: Disk, C: OfCluster, J: Site> Model for Locked<D, C, J> {
    ghost use Rattle.sw_cell.specs.Locked.{IsLocked, LockedModel};

    ghost Value = { LockedModel D };

    ghost view = { λ locked. record { node = locked.node; table = locked.seat.table; slot = locked.seat.slot; known = locked.seat.known; is_due = locked.is_due } };

    ghost invariant = { λ locked. IsLocked C.cluster J.table D.seen (record { node = locked.node; table = locked.seat.table; slot = locked.seat.slot; known = locked.seat.known; is_due = locked.is_due }) };
}

impl<D: Disk, C: OfCluster, J: Site> Locked<D, C, J> {
    /// A node whose empty disk was just mounted, with the seat that claimed its slot.
    pub fn new(node: Node<D>, seat: NodeSeat<C>) -> Locked<D, C, J>
        requires table { seat.table ≡ J.table }
        requires node { IsNode C.cluster D.seen node × (node.is_due ≡ false) }
        requires slot { HasSlot C.cluster node.device seat.slot }
        requires none_owed { seat.known.owing ≡ None }
        requires counted { AreCounted (history seat.known.histories seat.slot) (D.seen node.disk).faults }
        requires replayed { IsReplayed C.cluster D.seen (history seat.known.histories seat.slot) node }
        ensures { (result.node ≡ node) × (result.slot ≡ seat.slot) × (result.known ≡ seat.known) }
    {
        Locked {
            node,
            seat,
            is_due: false,
            site: PhantomData,
        }
    }

    /// The slot of its device.
    pub fn position(&self) -> u16
        ensures value { result ≡ self.now.slot }
        ensures slot { HasSlot C.cluster self.now.node.device self.now.slot }
    {
        self.seat.position()
    }

    /// Joins what the seat knows into a pass.
    pub fn tell(&mut self, table: &StampTable<C>, pass: &mut Pass<C>)
        requires table { (table.now ≡ J.table) × (pass.old.table ≡ J.table) }
        ensures same { self.new ≡ self.old }
        ensures table { pass.new.table ≡ pass.old.table }
        ensures learnt { HasLearnt C.cluster pass.old.known pass.new.known }
        ensures told { Covers pass.new.known (old_of self.old.known) }
    {
        pass.join(table, self.seat.note(table));
    }

    /// Gives the disk, of which the pass knows all that happened, and no more. Nothing that it knows of what happened changes.
    pub fn close(self, table: &StampTable<C>, pass: &mut Pass<C>) -> D
        requires table { (table.now ≡ J.table) × (pass.old.table ≡ J.table) }
        requires told { Covers pass.old.known (old_of self.known) }
        ensures table { pass.new.table ≡ pass.old.table }
        ensures learnt { HasLearnt C.cluster pass.old.known pass.new.known }
        ensures same { (slot : ℕ) → history pass.new.known.histories slot ≡ history pass.old.known.histories slot }
        ensures whole { history pass.new.known.histories self.slot ≡ history self.known.histories self.slot }
        ensures disk { IsDiskOf C.cluster D.seen pass.new.known self.node.device result }
    {
        let Locked {
            node,
            mut seat,
            is_due: _,
            site: _,
        } = self;
        seat.join(table, pass.note(table));
        pass.join(table, seat.note(table));
        node.unmount()
    }

    /// Puts an empty disk in the place of the node's, which is lost and comes back. The new disk is mounted before the loss is counted; where that
    /// is refused, or 2^63 losses were counted, the old one stays.
    pub fn replace(
        &mut self,
        alloc: Global,
        cluster: &Cluster,
        table: &StampTable<C>,
        pass: &mut Pass<C>,
        device: u16,
        disk: D,
    ) -> Result<D, (D, MountFault)>
        requires table { (table.now ≡ J.table) × (pass.old.table ≡ J.table) }
        requires cluster { cluster.now ≡ C.cluster }
        requires slot { HasSlot C.cluster device self.old.slot }
        requires empty { IfTold (D.seen disk).told (IsEmptyFor C.cluster device) }
        ensures slot { (self.new.slot ≡ self.old.slot) × (self.new.node.device ≡ self.old.node.device) }
        ensures table { pass.new.table ≡ pass.old.table }
        ensures lost { IfOk result (λ lost. lost ≡ self.old.node.disk) }
        ensures replaced { IfOk result (λ lost. IsReplaced C.cluster D.seen device self.old.slot pass.old.known pass.new.known lost) }
        ensures added { IfOk result (λ lost. (loss : ℕ) × (history self.new.known.histories self.old.slot ≡ Replaced loss ∷ history self.old.known.histories self.old.slot)) }
        ensures quiet { OnOk result ((D.seen self.new.node.disk).faults ≡ (D.seen disk).faults) }
        ensures same { OnErr result (IsLike self.old self.new × (pass.new ≡ pass.old)) }
        ensures refused { IfErr result (λ refused. ComesBack D.seen D.left_since C.cluster device disk refused.0 refused.1) }
    {
        if self.seat.may_lose(table) {
            self.replace_counted(alloc, cluster, table, pass, device, disk)
        } else {
            Err((disk, MountFault::NoMemory))
        }
    }

    // Does so where the loss can be counted.
    fn replace_counted(
        &mut self,
        alloc: Global,
        cluster: &Cluster,
        table: &StampTable<C>,
        pass: &mut Pass<C>,
        device: u16,
        disk: D,
    ) -> Result<D, (D, MountFault)>
        requires table { (table.now ≡ J.table) × (pass.old.table ≡ J.table) }
        requires cluster { cluster.now ≡ C.cluster }
        requires slot { HasSlot C.cluster device self.old.slot }
        requires empty { IfTold (D.seen disk).told (IsEmptyFor C.cluster device) }
        requires able { self.old.known.losing ≡ true }
        ensures slot { (self.new.slot ≡ self.old.slot) × (self.new.node.device ≡ self.old.node.device) }
        ensures table { pass.new.table ≡ pass.old.table }
        ensures lost { IfOk result (λ lost. lost ≡ self.old.node.disk) }
        ensures replaced { IfOk result (λ lost. IsReplaced C.cluster D.seen device self.old.slot pass.old.known pass.new.known lost) }
        ensures added { IfOk result (λ lost. (loss : ℕ) × (history self.new.known.histories self.old.slot ≡ Replaced loss ∷ history self.old.known.histories self.old.slot)) }
        ensures quiet { OnOk result ((D.seen self.new.node.disk).faults ≡ (D.seen disk).faults) }
        ensures same { OnErr result ((self.new ≡ self.old) × (pass.new ≡ pass.old)) }
        ensures refused { IfErr result (λ refused. Mounts D.seen D.left_since C.cluster device (Some refused.1) disk refused.0) }
    {
        let node = Node::mount(alloc, disk, device, cluster)?;
        self.seat.join(table, pass.note(table));
        let loss = self.seat.loss(table);
        Self::add_loss::<Brand>(&mut self.seat, table, loss);
        self.is_due = false;
        let lost = replace(&mut self.node, node);
        pass.join(table, self.seat.note(table));
        Ok(lost.unmount())
    }

    // Adds to the device's history that its disk was lost, by the number that the seat drew for that.
    fn add_loss<E: Happening>(seat: &mut NodeSeat<C>, table: &StampTable<C>, loss: u64)
        requires event { E.event ≡ Replaced loss }
        requires table { seat.old.table ≡ table.now }
        requires owed { seat.old.known.owing ≡ Some loss }
        requires may { MayAdvance C.cluster seat.old.slot (Replaced loss) seat.old.known }
        ensures table { (seat.new.table ≡ seat.old.table) × (seat.new.slot ≡ seat.old.slot) }
        ensures known { seat.new.known ≡ advanced seat.old.slot (Replaced loss) seat.old.known }
    {
        seat.advance::<E>(table);
    }

    /// Handles a message that a pass warrants, after a mount where one is due. The pass knows then what happened.
    pub fn call(
        &mut self,
        alloc: Global,
        cluster: &Cluster,
        table: &StampTable<C>,
        pass: &mut Pass<C>,
        msg: &Msg,
    ) -> Reply
        requires table { (table.now ≡ J.table) × (pass.old.table ≡ J.table) }
        requires cluster { cluster.now ≡ C.cluster }
        requires place { IsPlaceOf C.cluster (place_in msg.now) }
        requires warranted { MayCall C.cluster D.tells msg.now pass.old.known }
        ensures slot { (self.new.slot ≡ self.old.slot) × (self.new.node.device ≡ self.old.node.device) }
        ensures table { pass.new.table ≡ pass.old.table }
        ensures called { IsCalled C.cluster D.tells self.old.slot msg.now result pass.old.known pass.new.known }
        ensures replied { HasReplied D.tells self.old.is_due msg.now result (history self.old.known.histories self.old.slot) (history self.new.known.histories self.old.slot) }
        ensures counts { CountsReply result (D.seen self.old.node.disk).faults (D.seen self.new.node.disk).faults }
    {
        let warrant = pass.note(table);
        self.seat.join(table, warrant);
        let reply = self.handle(alloc, cluster, table, msg);
        pass.join(table, self.seat.note(table));
        reply
    }

    // Handles a message, after a mount where one is due, and adds what happened to the history.
    fn handle(
        &mut self,
        alloc: Global,
        cluster: &Cluster,
        table: &StampTable<C>,
        msg: &Msg,
    ) -> Reply
        requires table { table.now ≡ J.table }
        requires cluster { cluster.now ≡ C.cluster }
        requires place { IsPlaceOf C.cluster (place_in msg.now) }
        requires may { MayHandle C.cluster D.tells self.old.slot msg.now self.old.known }
        ensures slot { (self.new.slot ≡ self.old.slot) × (self.new.node.device ≡ self.old.node.device) }
        ensures added { HasAdded self.old.slot self.old.known self.new.known }
        ensures replied { HasReplied D.tells self.old.is_due msg.now result (history self.old.known.histories self.old.slot) (history self.new.known.histories self.old.slot) }
        ensures counts { CountsReply result (D.seen self.old.node.disk).faults (D.seen self.new.node.disk).faults }
    {
        if self.is_due {
            match self.remount(alloc, cluster, table, msg) {
                Ok(()) => {}
                Err(MountFault::Failed) => return Reply::DiskFault,
                Err(MountFault::NoMemory) => return Reply::NoMemory,
            }
        }
        // Read, so that what always holds of it is known behind a mount too.
        let _due = self.is_due;
        self.reply(alloc, cluster, table, msg)
    }

    // Mounts the places again, before a message.
    fn remount(
        &mut self,
        alloc: Global,
        cluster: &Cluster,
        table: &StampTable<C>,
        msg: &Msg,
    ) -> Result<(), MountFault>
        requires due { self.old.is_due ≡ true }
        requires table { table.now ≡ J.table }
        requires cluster { cluster.now ≡ C.cluster }
        requires place { IsPlaceOf C.cluster (place_in msg.now) }
        requires may { MayHandle C.cluster D.tells self.old.slot msg.now self.old.known }
        ensures slot { (self.new.slot ≡ self.old.slot) × (self.new.node.device ≡ self.old.node.device) }
        ensures mounted { OnOk result (self.new.is_due ≡ false) }
        ensures added { HasAdded self.old.slot self.old.known self.new.known }
        ensures events { history self.new.known.histories self.old.slot ≡ remounted_events D.tells msg.now (fault_of result) (history self.old.known.histories self.old.slot) }
        ensures counts { CountsMount (fault_of result) (D.seen self.old.node.disk).faults (D.seen self.new.node.disk).faults }
    {
        let mounted = self.node.remount(alloc, cluster);
        self.is_due = mounted.is_err();
        if mounted != Err(MountFault::NoMemory) {
            Self::add_mount::<Brand>(&mut self.seat, table, msg, &mounted);
        }
        mounted
    }

    // Adds to the device's history that its places were mounted before a message, or that this failed.
    fn add_mount<E: Happening>(
        seat: &mut NodeSeat<C>,
        table: &StampTable<C>,
        msg: &Msg,
        mounted: &Result<(), MountFault>,
    )
        requires event { E.event ≡ mount_event D.tells msg.now (fault_of mounted.now) }
        requires table { seat.old.table ≡ table.now }
        requires none_owed { seat.old.known.owing ≡ None }
        requires may { MayAdvance C.cluster seat.old.slot (mount_event D.tells msg.now (fault_of mounted.now)) seat.old.known }
        ensures table { (seat.new.table ≡ seat.old.table) × (seat.new.slot ≡ seat.old.slot) }
        ensures known { seat.new.known ≡ advanced seat.old.slot (mount_event D.tells msg.now (fault_of mounted.now)) seat.old.known }
    {
        seat.advance::<E>(table);
    }

    // Handles a message, with no mount due.
    fn reply(&mut self, alloc: Global, cluster: &Cluster, table: &StampTable<C>, msg: &Msg) -> Reply
        requires mounted { self.old.is_due ≡ false }
        requires table { table.now ≡ J.table }
        requires cluster { cluster.now ≡ C.cluster }
        requires place { IsPlaceOf C.cluster (place_in msg.now) }
        requires may { MayReply C.cluster D.tells self.old.slot msg.now self.old.known }
        ensures slot { (self.new.slot ≡ self.old.slot) × (self.new.node.device ≡ self.old.node.device) }
        ensures added { HasAdded self.old.slot self.old.known self.new.known }
        ensures events { history self.new.known.histories self.old.slot ≡ replied_events D.tells msg.now result (history self.old.known.histories self.old.slot) }
        ensures counts { CountsReply result (D.seen self.old.node.disk).faults (D.seen self.new.node.disk).faults }
    {
        let reply = self.node.handle(alloc, cluster, msg);
        self.is_due = matches!(reply, Reply::DiskFault);
        if !matches!(reply, Reply::NoMemory) {
            Self::add_reply::<Brand>(&mut self.seat, table, msg, &reply);
        }
        reply
    }

    // Adds to the device's history that it replied to a message, or that its disk failed.
    fn add_reply<E: Happening>(
        seat: &mut NodeSeat<C>,
        table: &StampTable<C>,
        msg: &Msg,
        reply: &Reply,
    )
        requires event { E.event ≡ shown D.tells (event_of msg.now reply.now) }
        requires table { seat.old.table ≡ table.now }
        requires none_owed { seat.old.known.owing ≡ None }
        requires may { MayAdvance C.cluster seat.old.slot (shown D.tells (event_of msg.now reply.now)) seat.old.known }
        ensures table { (seat.new.table ≡ seat.old.table) × (seat.new.slot ≡ seat.old.slot) }
        ensures known { seat.new.known ≡ advanced seat.old.slot (shown D.tells (event_of msg.now reply.now)) seat.old.known }
    {
        seat.advance::<E>(table);
    }
}
