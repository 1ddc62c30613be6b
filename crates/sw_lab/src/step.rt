//! The events of a step.

ghost use Rattle.std.specs.Prelude.{◌≡◌, ◌<◌, ◌++◌, IfOk, OnOk, length};
ghost use Rattle.sw_lab.specs.Workload.{device_of, outage_of, repairs_of, step_of};

use crate::draw::Draw;
use crate::job::{job_of, name_of};
use std::alloc::Global;
use std::collections::VecDeque;
use sw_script::{Event, Job};
use sw_types::NoMemory;

/// The events of a step, in their order.
pub(crate) fn step_of(
    alloc: Global,
    devices: &[u16],
    step: u32,
    draw: Draw,
) -> Result<VecDeque<Event>, NoMemory>
    requires { 0 < length devices.now }
    ensures { IfOk result (λ events. events.items ≡ step_of devices.now step draw) }
{
    let mut events = outage_of(alloc, devices, step, draw)?;
    events.push_back(Event::Run(job_of(alloc, draw)?))?;
    Ok(events)
}

// What stands before its job.
fn outage_of(
    alloc: Global,
    devices: &[u16],
    step: u32,
    draw: Draw,
) -> Result<VecDeque<Event>, NoMemory>
    requires { 0 < length devices.now }
    ensures { IfOk result (λ events. events.items ≡ outage_of devices.now step draw) }
{
    let mut events = VecDeque::new(alloc);
    if step % 20 == 0 {
        events.push_back(Event::Stop(device_of(devices, step)))?;
    } else if step % 20 == 10 && step > 10 {
        events.push_back(Event::Restart(device_of(devices, step)))?;
        add_repairs(&mut events, alloc, devices, draw)?;
    }
    Ok(events)
}

// The device that stops or comes back.
fn device_of(devices: &[u16], step: u32) -> u64
    requires { 0 < length devices.now }
    ensures { result ≡ device_of devices.now step }
{
    let turn = (step / 20) as usize;
    u64::from(devices[turn % devices.len()])
}

// Adds the repairs of all devices.
fn add_repairs(
    events: &mut VecDeque<Event>,
    alloc: Global,
    devices: &[u16],
    draw: Draw,
) -> Result<(), NoMemory>
    ensures { OnOk result (events.new.items ≡ events.old.items ++ repairs_of devices.now draw) }
{
    for device in devices {
        let name = name_of(alloc, draw.name)?;
        let device = u64::from(*device);
        events.push_back(Event::Run(Job::Recon { device, name }))?;
    }
    Ok(())
}
