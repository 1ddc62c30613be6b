//! The workload of a number.

ghost use Rattle.std.specs.Prelude.{◌≡◌, [], ◌∷◌, IfOk, MatchOption, OnErr};
ghost use Rattle.sw_ring.specs.Cluster.{ids_of};
ghost use Rattle.sw_lab.specs.Workload.{workload_of};

use crate::draw::Draw;
use crate::step::step_of;
use std::alloc::Global;
use std::collections::VecDeque;
use std::marker::Model;
use sw_ring::Cluster;
use sw_script::Event;
use sw_types::NoMemory;

/// The work of a number: events that are still to be done. Each step puts, gets or deletes one of fifty names; before each twentieth a
/// device stops, and ten steps on it comes back, and all devices repair.
#[derive(Drop)]
pub struct Workload {
    alloc: Global,
    // The devices of the cluster, ascending.
    devices: Vec<u16>,
    // So many steps there are, and so many were begun.
    steps: u32,
    begun: u32,
    // The last number that was drawn.
    number: u32,
    // What is still to be done of the last step that was begun.
    waiting: VecDeque<Event>,
}

impl Model for Workload {
    ghost use Rattle.std.specs.Prelude.{List, length, ◌<◌, ◌≤◌, ◌+◌, ◌++◌, ◌-◌};
    ghost use Rattle.sw_script.specs.declared.event.Event.{Event};
    ghost use Rattle.sw_lab.specs.Workload.{steps_from};

    ghost Value = { List Event };

    ghost view = { λ work. work.waiting.items ++ steps_from work.devices.items (work.steps - work.begun) (work.begun + 1) work.number };

    ghost invariant = { λ work. (work.begun ≤ work.steps) × (0 < length work.devices.items) };
}

impl Workload {
    /// The work of a number over a cluster: so many steps.
    pub fn new(alloc: Global, steps: u32, cluster: &Cluster) -> Result<Workload, NoMemory>
        ensures { IfOk result (λ work. work ≡ workload_of (ids_of cluster.now) steps) }
    {
        let devices: Vec<u16> = cluster
            .devices()
            .iter()
            .map(|device| device.id)
            .collect(alloc)?;
        Ok(Workload {
            alloc,
            devices,
            steps,
            begun: 0,
            number: steps,
            waiting: VecDeque::new(alloc),
        })
    }

    /// The next event: none where all was done. Where memory is wanted it stands as before.
    pub fn next(&mut self) -> Result<Option<Event>, NoMemory>
        ensures next { IfOk result (λ event. MatchOption event ((self.old ≡ []) × (self.new ≡ [])) (λ first. self.old ≡ first ∷ self.new)) }
        ensures wanted { OnErr result (self.new ≡ self.old) }
    {
        if let Some(event) = self.waiting.pop_front() {
            return Ok(Some(event));
        }
        if self.begun == self.steps {
            return Ok(None);
        }
        let step = self.begun + 1;
        let draw = Draw::behind(self.number);
        let mut events = step_of(self.alloc, &self.devices, step, draw)?;
        let event = events.pop_front();
        self.begun = step;
        self.number = draw.body;
        self.waiting = events;
        Ok(event)
    }
}
