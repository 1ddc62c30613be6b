//! The nodes of a cluster behind locks, as the link of one thread.

ghost use Rattle.std.specs.Prelude.{◌≡◌, Some, None, true, false};
ghost use Rattle.sw_cell.specs.Learning.{HasLearnt};
ghost use Rattle.sw_local.specs.Link.{Calls, Draws, KnowsSoundly, learnt_of, told_by, wants_memory};
ghost use Rattle.sw_local.specs.Sound.{told_by_test};

use std::alloc::Global;
use std::marker::Model;
use std::sync::Wait;
use sw_cell::{Cells, Site};
use sw_disk::Disk;
use sw_io::{Clock, Gate, GatePoint};
use sw_message::{Draw, DrawFault, Link, Msg, Reply};
use sw_pass::{OfCluster, Pass};
use sw_types::{Name, Object, Stamp};

/// The nodes of a cluster, each behind a lock, as the link of one thread, which has a pass of its own. A message is handled by its device's
/// node at once, unless the call is one of those that are lost. Stamps are drawn from the stamp table by a clock. Where the disks tell what they
/// hold, it tells all that the pass knows.
#[derive(Drop)]
pub struct LocalLink<'a, D: Disk + Drop, C: OfCluster, J: Site, T: Clock, G: Gate, R: Wait> {
    rt: &'a R,
    alloc: Global,
    cells: &'a Cells<D, C, J>,
    pass: Pass<C>,
    clock: &'a T,
    gate: &'a G,
    worker: u16,
    // The numbers of the calls that are lost, the first of which is 1.
    lost: Vec<u64>,
    calls: u64,
    losses: u64,
    refused: u64,
    // A node said that memory was wanted.
    wants: bool,
}

impl<'a, D: Disk + Drop, C: OfCluster, J: Site, T: Clock, G: Gate, R: Wait> Model
    for LocalLink<'a, D, C, J, T, G, R> {
    ghost use Rattle.std.specs.Prelude.{◌≡◌};
    ghost use Rattle.sw_local.specs.Link.{KnowsSoundly, LocalModel};

    ghost Value = { LocalModel T };

    ghost view = { λ it. record { known = it.pass.known; clock = it.clock.now; lost = it.lost.items; calls = it.calls; losses = it.losses; refused = it.refused; wants = it.wants } };

    ghost invariant = { λ it. (it.pass.table ≡ J.table) × KnowsSoundly C.cluster it.pass.known };
}

impl<'a, D: Disk + Drop, C: OfCluster, J: Site, T: Clock, G: Gate, R: Wait> LocalLink<
    'a,
    D,
    C,
    J,
    T,
    G,
    R,
> {
    /// The link of a thread to these nodes. Of its calls those of these numbers are lost, the first of which is 1.
    pub fn new(
        rt: &'a R,
        alloc: Global,
        cells: &'a Cells<D, C, J>,
        pass: Pass<C>,
        clock: &'a T,
        gate: &'a G,
        worker: u16,
        lost: Vec<u64>,
    ) -> Self
        requires table { pass.table ≡ J.table }
        ensures learnt { HasLearnt C.cluster pass.known result.known }
        ensures tells { D.tells ≡ true → told_by C.cluster D.tells result.known ≡ Some (learnt_of C.cluster result.known) }
        ensures rest { result ≡ record { known = result.known; clock = clock.now; lost = lost.items; calls = 0; losses = 0; refused = 0; wants = false } }
    {
        let mut pass = pass;
        pass.learn(cells.table());
        LocalLink {
            rt,
            alloc,
            cells,
            pass,
            clock,
            gate,
            worker,
            lost,
            calls: 0,
            losses: 0,
            refused: 0,
            wants: false,
        }
    }

    /// Whether a node said that memory was wanted.
    pub fn wants(&self) -> bool
        ensures { result ≡ self.now.wants }
    {
        self.wants
    }

    /// Its pass.
    pub fn finish(self) -> Pass<C>
        ensures table { result.table ≡ J.table }
        ensures known { result.known ≡ self.entry.known }
        ensures sound { KnowsSoundly C.cluster result.known }
    {
        self.pass
    }
}

impl<'a, D: Disk + Drop, C: OfCluster, J: Site, T: Clock, G: Gate, R: Wait> Link
    for LocalLink<'a, D, C, J, T, G, R> {
    ghost cluster = { λ it. Some C.cluster };

    ghost learnt = { λ it. told_by C.cluster D.tells it.known };

    ghost may_be_silent = { λ it. ⊥ };

    ghost calls = { Calls C.cluster D.tells };

    ghost losses = { λ it. it.losses };

    ghost sound = { λ it. told_by_test C.cluster D.tells it.known };

    fn call(&mut self, device: u16, msg: &Msg) -> Option<Reply> {
        self.calls = self.calls.saturating_add(1);
        if self.lost.contains(&self.calls) {
            self.losses = self.losses.saturating_add(1);
            return None;
        }
        self.gate.at(self.worker, GatePoint::BeforeMessage);
        let reply = self
            .cells
            .call(self.rt, self.alloc, &mut self.pass, device, msg);
        self.gate.at(self.worker, GatePoint::Answered);
        self.wants = self.wants || wants_memory(&reply);
        Some(reply)
    }
}

// Whether a node says that memory was wanted.
fn wants_memory(reply: &Reply) -> bool
    ensures { result ≡ wants_memory reply.now }
{
    matches!(reply, Reply::NoMemory)
}

impl<'a, D: Disk + Drop, C: OfCluster, J: Site, T: Clock, G: Gate, R: Wait> Draw
    for LocalLink<'a, D, C, J, T, G, R> {
    ghost draws = { Draws C.cluster T.shows };

    ghost refusals = { λ it. it.refused };

    fn draw(&mut self, name: &Name, object: Option<&Object>) -> Result<Stamp, DrawFault> {
        let table = self.cells.table();
        self.pass.loss_mark(table);
        let time = self.clock.now();
        match self.pass.draw(table, time, name, object) {
            Ok(stamp) => {
                // Read, so that it is known to be one of the stamps that there are.
                let _units = stamp.units();
                Ok(stamp)
            }
            Err(fault) => {
                self.refused = self.refused.saturating_add(1);
                Err(fault)
            }
        }
    }
}
