//! The world of a script.

ghost use Rattle.std.specs.Prelude.{◌≡◌, length, true, IfErr, IfOk, IsErrOf, OnOk};
ghost use Rattle.sw_script.specs.declared.event.Event.TheVariants.{All};
ghost use Rattle.sw_sim_world.specs.Leading.{DoesIt, FaultsBy};
ghost use Rattle.sw_sim_world.specs.ScriptedWorld.{ScriptedWorld, empty_script};
ghost use Rattle.sw_sim_world.specs.Standing.{StandsFor};

use crate::fault::StepFault;
use crate::inner::Inner;
use crate::told::Told;
use std::alloc::Global;
use std::marker::Model;
use sw_ring::Cluster;
use sw_script::Event;
use sw_types::{NoMemory, Stamp};

/// What the clock shows at first, in units of 10 microseconds: 1000000000.00000.
const FIRST_CLOCK: u64 = 100_000_000_000_000;

/// A cluster that stands outside and whose nodes stand in one process; every message that was made, and every operation that was started.
#[derive(Drop)]
pub struct World<'a> {
    inner: Inner<'a>,
}

impl<'a> Model for World<'a> {
    ghost use Rattle.sw_sim_world.specs.Standing.{IsWorld, WorldModel};

    ghost Value = { WorldModel };

    ghost view = { λ world. world.inner };

    ghost invariant = { λ world. IsWorld world.inner };
}

impl<'a> World<'a> {
    /// A world of a cluster in which nothing was started, and whose disks are empty.
    pub fn new(alloc: Global, cluster: &'a Cluster) -> Result<World<'a>, NoMemory>
        ensures cluster { IfOk result (λ world. world.cluster ≡ cluster.now) }
        ensures stands { IfOk result (λ world. StandsFor world (empty_script cluster.now)) }
    {
        let clock = Stamp::make(FIRST_CLOCK).unwrap();
        Ok(World {
            inner: Inner::new(alloc, cluster, clock)?,
        })
    }

    /// Its cluster.
    pub fn cluster(&self) -> &'a Cluster
        ensures { result.now ≡ self.now.cluster }
    {
        self.inner.nodes.cluster()
    }

    /// Whether memory was wanted: then it answers nothing else from then on.
    pub fn is_wanting(&self) -> bool
        ensures { result ≡ self.now.is_wanting }
    {
        self.inner.nodes.is_wanting()
    }

    /// Has it answer that memory is wanted from now on.
    pub fn give_up(&mut self)
        ensures wants { self.new.is_wanting ≡ true }
        ensures cluster { self.new.cluster ≡ self.old.cluster }
    {
        self.inner.nodes.give_up();
    }

    /// Takes the world through the basic events of a line, and answers what is told of them. After a fault but want of memory it is as
    /// before. It wants memory only for a line that has none of the other faults. Once it wanted memory it answers so from then on.
    pub fn step(&mut self, event: &Event) -> Result<Told, StepFault>
        ensures does { (before : ScriptedWorld) → StandsFor self.old before → IfOk result (λ told. DoesIt event.now before told self.new) }
        ensures faults { (before : ScriptedWorld) → StandsFor self.old before → IfErr result (λ fault. FaultsBy event.now before fault self.old self.new) }
        // Once each message was delivered, all that there are count as such, so that the next time may begin behind them.
        ensures behind { event.now ≡ All → OnOk result (self.new.first ≡ length self.new.letters) }
        ensures wants { IsErrOf result StepFault.NoMemory → self.new.is_wanting ≡ true }
        ensures wanted { self.old.is_wanting ≡ true → IsErrOf result StepFault.NoMemory × (self.new ≡ self.old) }
        ensures cluster { self.new.cluster ≡ self.old.cluster }
    {
        if self.is_wanting() {
            return Err(StepFault::NoMemory);
        }
        match self.inner.does(event) {
            Ok(told) => Ok(told),
            Err(fault) => {
                if fault == StepFault::NoMemory {
                    self.inner.nodes.give_up();
                }
                Err(fault)
            }
        }
    }
}
