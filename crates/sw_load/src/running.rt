//! The run of a workload.

ghost use Rattle.std.specs.Prelude.{◌≡◌, IfOk};
ghost use Rattle.sw_ring.specs.Cluster.{ids_of};
ghost use Rattle.sw_lab.specs.Workload.{workload_of};
ghost use Rattle.sw_load.specs.Load.{HasRun, with_end, with_ends};
ghost use Rattle.sw_sim_world.specs.Leading.{DoesIt, MayBeDone};
ghost use Rattle.sw_sim_world.specs.ScriptedWorld.{ScriptedWorld};
ghost use Rattle.sw_sim_world.specs.Standing.{StandsFor};

use std::alloc::Global;
use sw_lab::{Summary, Workload};
use sw_operation::OpEnd;
use sw_ring::Cluster;
use sw_script::Event;
use sw_sim_exchange::EndLine;
use sw_sim_world::{StepFault, Told, World};
use sw_types::NoMemory;

/// Runs the workload of a number in an empty world of a cluster, up to its last event, and counts how its operations ended. Nothing but
/// memory may be wanted: each event names a device of the cluster, and stamps are left for all.
pub fn load(alloc: Global, cluster: &Cluster, number: u32) -> Result<Summary, NoMemory>
    ensures { IfOk result (HasRun cluster.now (workload_of (ids_of cluster.now) number)) }
{
    let mut world = World::new(alloc, cluster)?;
    let mut work = Workload::new(alloc, number, cluster)?;
    let mut summary = Summary::new();
    'events: while let Some(event) = work.next()? {
        let told = take_event(&mut world, event)?;
        add_ends(&mut summary, told.ends.as_slice());
    }
    Ok(summary)
}

// Does an event that has no fault in the world, and drops it.
fn take_event(world: &mut World<'_>, event: Event) -> Result<Told, NoMemory>
    requires may { (before : ScriptedWorld) × StandsFor world.old before × MayBeDone before event }
    ensures does { (before : ScriptedWorld) → StandsFor world.old before → IfOk result (λ told. DoesIt event before told world.new) }
    ensures cluster { world.new.cluster ≡ world.old.cluster }
{
    do_event(world, &event)
}

// Does an event that has no fault in the world.
fn do_event(world: &mut World<'_>, event: &Event) -> Result<Told, NoMemory>
    requires may { (before : ScriptedWorld) × StandsFor world.old before × MayBeDone before event.now }
    ensures does { (before : ScriptedWorld) → StandsFor world.old before → IfOk result (λ told. DoesIt event.now before told world.new) }
    ensures cluster { world.new.cluster ≡ world.old.cluster }
{
    match world.step(event) {
        Ok(told) => Ok(told),
        Err(fault) => Err(only_memory(fault)),
    }
}

// A fault that is want of memory.
fn only_memory(_fault: StepFault) -> NoMemory
    requires { _fault ≡ StepFault.NoMemory }
{
    NoMemory
}

// Counts ends, one after the other.
fn add_ends(summary: &mut Summary, ends: &[EndLine])
    ensures { summary.new ≡ with_ends ends.now summary.old }
{
    for line in ends {
        add_end(summary, &line.end);
    }
}

// Counts an end.
fn add_end(summary: &mut Summary, end: &OpEnd)
    ensures { summary.new ≡ with_end end.now summary.old }
{
    match end {
        OpEnd::Put(end) => summary.put(end),
        OpEnd::Get(end) | OpEnd::Head(end) => summary.get(end),
        OpEnd::Delete(end) => summary.delete(end),
        OpEnd::Sync(_) | OpEnd::Revert(_) => summary.job(),
    }
}
