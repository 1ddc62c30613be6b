//! What a world keeps, and what each line does to it.

ghost use Rattle.std.specs.Prelude.{◌≡◌, ◌≤◌, ◌++◌, suc, [], ◌∷◌, None, IfErr, IfOk, OnOk, drop, length, map, option_to_list};
ghost use Rattle.sw_ring.specs.Cluster.{KeepsRules};
ghost use Rattle.sw_core.specs.World.{first_clock};
ghost use Rattle.sw_script.specs.declared.event.Event.TheVariants as event;
ghost use Rattle.sw_script.specs.declared.event.Event.TheVariants.{All};
ghost use Rattle.sw_sim_exchange.specs.declared.lines.SentLine.TheVariants.{Started};
ghost use Rattle.sw_sim_world.specs.Leading.{DoesIt, FaultsBy};
ghost use Rattle.sw_sim_exchange.specs.Letters.{lines_from};
ghost use Rattle.sw_sim_world.specs.ScriptedWorld.{ScriptedWorld, empty_script};
ghost use Rattle.sw_sim_world.specs.Standing.{Stands, StandsFor};

use crate::fault::StepFault;
use crate::told::Told;
use std::alloc::Global;
use std::marker::Model;
use sw_ring::Cluster;
use sw_script::Event;
use sw_sim_exchange::{EndLine, Exchange, sent_since};
use sw_sim_nodes::Nodes;
use sw_types::{Items, NoMemory, Stamp};

/// What a world keeps. After want of memory it may stand for none.
#[derive(Drop)]
pub(crate) struct Inner<'a> {
    pub(crate) alloc: Global,
    pub(crate) nodes: Nodes<'a>,
    pub(crate) clock: Stamp,
    // The last stamp that was drawn.
    pub(crate) last: Option<Stamp>,
    pub(crate) exchange: Exchange<'a>,
    // The letters before this slot were delivered.
    pub(crate) first: usize,
}

impl<'a> Model for Inner<'a> {
    ghost use Rattle.sw_sim_world.specs.Standing.{WorldModel};
    ghost use Rattle.sw_sim_world.specs.WorldInside.{inner_seen};

    ghost Value = { WorldModel };

    ghost view = { inner_seen };
}

impl<'a> Inner<'a> {
    /// Nothing was started, and all disks are empty.
    pub(crate) fn new(
        alloc: Global,
        cluster: &'a Cluster,
        clock: Stamp,
    ) -> Result<Inner<'a>, NoMemory>
        requires { clock ≡ first_clock }
        ensures cluster { IfOk result (λ inner. inner.cluster ≡ cluster.now) }
        ensures stands { IfOk result (λ inner. StandsFor inner (empty_script cluster.now)) }
    {
        Ok(Inner {
            alloc,
            nodes: Nodes::new(alloc, cluster)?,
            clock,
            last: None,
            exchange: Exchange::new(alloc),
            first: 0,
        })
    }

    /// Does the basic events of a line, and answers what is told of them.
    pub(crate) fn does(&mut self, event: &Event) -> Result<Told, StepFault>
        requires { Stands self.old }
        ensures does { (before : ScriptedWorld) → StandsFor self.old before → IfOk result (λ told. DoesIt event.now before told self.new) }
        ensures faults { (before : ScriptedWorld) → StandsFor self.old before → IfErr result (λ fault. FaultsBy event.now before fault self.old self.new) }
        ensures behind { event.now ≡ All → OnOk result (self.new.first ≡ length self.new.letters) }
        ensures cluster { self.new.cluster ≡ self.old.cluster }
    {
        match event {
            Event::Run(job) => self.run(job),
            Event::Start(job) => self.start(job),
            Event::Deliver(message) => self.deliver(*message),
            Event::All => Ok(self.deliver_all()?),
            Event::Crash {
                message,
                calls,
                pick,
            } => self.crash(*message, *calls, *pick),
            Event::Stop(device) => self.stop(*device),
            Event::Restart(device) => self.restart(*device),
            Event::Lose(device) => self.lose(*device),
            Event::GiveUp(operation) => self.give_up_open(*operation),
            Event::SetClock(stamp) => Ok(self.set_clock(*stamp)),
            Event::Show { device, name } => self.show(*device, name),
        }
    }

    // Sets the clock.
    fn set_clock(&mut self, stamp: Stamp) -> Told
        requires { Stands self.old }
        ensures does { (before : ScriptedWorld) → StandsFor self.old before → DoesIt (event.SetClock stamp) before result self.new }
        ensures cluster { self.new.cluster ≡ self.old.cluster }
    {
        self.clock = stamp;
        nothing_told(self.alloc)
    }

    // What is told of the messages that were made since there were so many, and of these ends.
    pub(crate) fn told_since(
        &self,
        count: usize,
        started: Option<u64>,
        ends: Vec<EndLine>,
    ) -> Result<Told, NoMemory>
        requires { count ≤ length self.now.letters }
        ensures { IfOk result (λ told. told ≡ record {
          sent = map Started (option_to_list started) ++ lines_from (suc count) (drop count self.now.letters);
          ends = ends.items;
          shown = [];
        }) }
    {
        let sent = sent_since(self.alloc, started, self.exchange.letters(), count)?;
        Ok(Told {
            sent: Items::from(sent),
            ends: Items::from(ends),
            shown: Items::from(Vec::new(self.alloc)),
        })
    }
}

// These ends alone are told.
pub(crate) fn ends_told(alloc: Global, ends: Vec<EndLine>) -> Told
    ensures { result ≡ record { sent = []; ends = ends.items; shown = [] } }
{
    Told {
        sent: Items::from(Vec::new(alloc)),
        ends: Items::from(ends),
        shown: Items::from(Vec::new(alloc)),
    }
}

// Nothing is told.
pub(crate) fn nothing_told(alloc: Global) -> Told
    ensures { result ≡ record { sent = []; ends = []; shown = [] } }
{
    ends_told(alloc, Vec::new(alloc))
}
