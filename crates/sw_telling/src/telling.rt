//! A link that tells what it has learnt.

ghost use Rattle.std.specs.Prelude.{◌≡◌, false, true, IfOk, OnErr, OnOk, Some};
ghost use Rattle.sw_sim_nodes.specs.Nodes.{Stops};
ghost use Rattle.sw_law_scene.specs.Moves.{next_stamp};
ghost use Rattle.sw_telling.specs.Shown.{IsNew};
ghost use Rattle.sw_telling.specs.Telling.{Calls, Draws, learnt_by, losses};

use crate::known::Known;
use std::alloc::Global;
use std::marker::Model;
use sw_message::{Draw, DrawFault, Link, Msg, Reply};
use sw_ring::Cluster;
use sw_sim_nodes::Nodes;
use sw_types::{Name, NoMemory, Object, Stamp};

/// The nodes of a cluster, as a link that draws stamps and tells what it has learnt: each put, each delete and each reply since its
/// beginning. Where memory is wanted, in a node or for a copy of what is learnt, it falls silent; that it speaks where memory is there is
/// tested.
#[derive(Drop)]
pub struct Telling<'a> {
    alloc: Global,
    nodes: Nodes<'a>,
    known: Known,
    clock: Stamp,
    last: Option<Stamp>,
    refused: u64,
    is_silent: bool,
}

impl<'a> Model for Telling<'a> {
    ghost use Rattle.sw_telling.specs.Telling.{IsTelling, TellingModel};

    ghost Value = { TellingModel };

    ghost view = { λ it. record { nodes = it.nodes; known = it.known; clock = it.clock; last = it.last; refused = it.refused; is_silent = it.is_silent } };

    ghost invariant = { λ it. IsTelling (record { nodes = it.nodes; known = it.known; clock = it.clock; last = it.last; refused = it.refused; is_silent = it.is_silent }) };
}

impl<'a> Telling<'a> {
    /// The link to nodes on empty disks, with a clock that shows a stamp. It tells that nothing was learnt.
    pub fn new(alloc: Global, cluster: &'a Cluster, clock: Stamp) -> Result<Telling<'a>, NoMemory>
        ensures { IfOk result (IsNew cluster.now clock) }
    {
        Ok(Telling {
            alloc,
            nodes: Nodes::new(alloc, cluster)?,
            known: Known::new(alloc),
            clock,
            last: None,
            refused: 0,
            is_silent: false,
        })
    }

    /// Whether memory was wanted. Where it was not, it tells all that it has learnt.
    pub fn is_silent(&self) -> bool
        ensures silent { result ≡ self.now.is_silent }
        ensures tells { self.now.is_silent ≡ false → learnt_by self.now ≡ Some self.now.known }
        ensures goes_on { self.now.is_silent ≡ false → self.now.nodes.is_wanting ≡ false }
    {
        self.is_silent
    }

    /// The clock shows this from now on.
    pub fn set_clock(&mut self, clock: Stamp)
        ensures { self.new ≡ record self.old { clock = clock } }
    {
        self.clock = clock;
    }

    /// A device is down from now on: each message to it is lost.
    pub fn stop(&mut self, device: u16) -> Result<(), NoMemory>
        ensures stops { OnOk result (Stops self.old.nodes device self.new.nodes) }
        ensures same { OnOk result (self.new ≡ record self.old { nodes = self.new.nodes }) }
        ensures refused { OnErr result (self.new ≡ self.old) }
    {
        self.nodes.stop(device)
    }

    // The units of the stamp that is drawn next: what the clock shows, or one more than the last where that is greater.
    fn next_units(&self) -> u64
        ensures { result ≡ next_stamp self.now.clock self.now.last }
    {
        match self.last {
            None => self.clock.units(),
            Some(last) => self.clock.units().max(last.units() + 1),
        }
    }
}

impl<'a> Link for Telling<'a> {
    ghost use Rattle.sw_telling.specs.Sound.{told_soundly_by};

    ghost cluster = { λ it. Some it.nodes.cluster };

    ghost learnt = { learnt_by };

    ghost may_be_silent = { λ it. it.is_silent ≡ true };

    ghost calls = { Calls };

    ghost losses = { losses };

    ghost sound = { told_soundly_by };

    fn call(&mut self, device: u16, msg: &Msg) -> Option<Reply> {
        let answer = self.nodes.call(device, msg);
        self.is_silent = self.is_silent
            || self.nodes.is_wanting()
            || self
                .known
                .hear(self.alloc, device, msg, answer.as_ref())
                .is_err();
        answer
    }
}

impl<'a> Draw for Telling<'a> {
    ghost draws = { Draws };

    ghost refusals = { λ it. it.refused };

    fn draw(&mut self, name: &Name, object: Option<&Object>) -> Result<Stamp, DrawFault> {
        let Some(stamp) = Stamp::make(self.next_units()) else {
            self.refused = self.refused.saturating_add(1);
            return Err(DrawFault::StampsSpent);
        };
        self.last = Some(stamp);
        self.is_silent = self.is_silent || self.known.note(stamp, name, object).is_err();
        Ok(stamp)
    }
}
