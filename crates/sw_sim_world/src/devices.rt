//! Devices of a world: those that crash, stop, restart and lose their disks, and what they have.

ghost use Rattle.std.specs.Prelude.{◌≡◌, ◌==◌, None, IfErr, IfOk, IfSome, MatchResult, false, is_some, position, true};
ghost use Rattle.sw_ring.specs.Cluster.{ids_of};
ghost use Rattle.sw_ring.specs.Ring.{is_among};
ghost use Rattle.sw_ring.specs.Rules.{device_ids};
ghost use Rattle.sw_script.specs.declared.event.Event.TheVariants as event;
ghost use Rattle.sw_sim_world.specs.Leading.{DoesIt, FaultsBy};
ghost use Rattle.sw_sim_world.specs.ScriptedWorld.{ScriptedWorld};
ghost use Rattle.sw_sim_world.specs.Standing.{Stands, StandsFor};

use crate::fault::StepFault;
use crate::inner::{Inner, nothing_told};
use crate::show::shown;
use crate::told::Told;
use sw_ring::Device;
use sw_sim_exchange::Content;
use sw_types::{Items, Name};

impl<'a> Inner<'a> {
    /// The device of a request stops within its handling, after so many device calls or at its end, and its disk crashes, of whose
    /// pending changes it keeps so many. The request counts as delivered, also where the device is down already.
    pub(crate) fn crash(&mut self, message: u64, calls: u64, pick: u64) -> Result<Told, StepFault>
        requires { Stands self.old }
        ensures does { (before : ScriptedWorld) → StandsFor self.old before → IfOk result (λ told. DoesIt (event.Crash message calls pick) before told self.new) }
        ensures faults { (before : ScriptedWorld) → StandsFor self.old before → IfErr result (λ fault. FaultsBy (event.Crash message calls pick) before fault self.old self.new) }
        ensures cluster { self.new.cluster ≡ self.old.cluster }
    {
        let slot = self.slot_of(message)?;
        let letter = &self.exchange.letters()[slot];
        let Content::Request(msg) = &letter.content else {
            return Err(StepFault::NoSuchMessage);
        };
        if !self.nodes.is_down(letter.device) {
            self.nodes.crash(letter.device, msg, calls, pick)?;
        }
        self.exchange.mark(slot);
        Ok(nothing_told(self.alloc))
    }

    /// A device stops.
    pub(crate) fn stop(&mut self, number: u64) -> Result<Told, StepFault>
        requires { Stands self.old }
        ensures does { (before : ScriptedWorld) → StandsFor self.old before → IfOk result (λ told. DoesIt (event.Stop number) before told self.new) }
        ensures faults { (before : ScriptedWorld) → StandsFor self.old before → IfErr result (λ fault. FaultsBy (event.Stop number) before fault self.old self.new) }
        ensures cluster { self.new.cluster ≡ self.old.cluster }
    {
        let device = self.device_of(number)?;
        self.nodes.stop(device)?;
        Ok(nothing_told(self.alloc))
    }

    /// A device mounts its disk and is up.
    pub(crate) fn restart(&mut self, number: u64) -> Result<Told, StepFault>
        requires { Stands self.old }
        ensures does { (before : ScriptedWorld) → StandsFor self.old before → IfOk result (λ told. DoesIt (event.Restart number) before told self.new) }
        ensures faults { (before : ScriptedWorld) → StandsFor self.old before → IfErr result (λ fault. FaultsBy (event.Restart number) before fault self.old self.new) }
        ensures cluster { self.new.cluster ≡ self.old.cluster }
    {
        let device = self.device_of(number)?;
        self.nodes.restart(device)?;
        Ok(nothing_told(self.alloc))
    }

    /// A device loses its disk, and has an empty one.
    pub(crate) fn lose(&mut self, number: u64) -> Result<Told, StepFault>
        requires { Stands self.old }
        ensures does { (before : ScriptedWorld) → StandsFor self.old before → IfOk result (λ told. DoesIt (event.Lose number) before told self.new) }
        ensures faults { (before : ScriptedWorld) → StandsFor self.old before → IfErr result (λ fault. FaultsBy (event.Lose number) before fault self.old self.new) }
        ensures cluster { self.new.cluster ≡ self.old.cluster }
    {
        let device = self.device_of(number)?;
        self.nodes.lose(device)?;
        Ok(nothing_told(self.alloc))
    }

    /// Shows what a device has of a name.
    pub(crate) fn show(&mut self, number: u64, name: &Name) -> Result<Told, StepFault>
        requires { Stands self.old }
        ensures does { (before : ScriptedWorld) → StandsFor self.old before → IfOk result (λ told. DoesIt (event.Show number name.now) before told self.new) }
        ensures faults { (before : ScriptedWorld) → StandsFor self.old before → IfErr result (λ fault. FaultsBy (event.Show number name.now) before fault self.old self.new) }
        ensures cluster { self.new.cluster ≡ self.old.cluster }
    {
        let device = self.device_of(number)?;
        let place = self.nodes.cluster().place(self.alloc, name)?;
        let disk = self.nodes.disk(device).unwrap();
        let shown = shown(self.alloc, disk, device, place)?;
        Ok(Told {
            sent: Items::from(Vec::new(self.alloc)),
            ends: Items::from(Vec::new(self.alloc)),
            shown,
        })
    }

    /// The device of the cluster that has a number.
    pub(crate) fn device_of(&self, number: u64) -> Result<u16, StepFault>
        ensures { MatchResult result
            (λ device. (device ≡ number) × (is_among (ids_of self.now.cluster) number ≡ true))
            (λ fault. (fault ≡ StepFault.NoSuchDevice) × (is_among (ids_of self.now.cluster) number ≡ false)) }
    {
        match device_among(self.nodes.cluster().devices(), number) {
            Some(device) => Ok(device),
            None => Err(StepFault::NoSuchDevice),
        }
    }
}

// The device that has a number, among these.
fn device_among(devices: &[Device], number: u64) -> Option<u16>
    ensures known { is_some result ≡ is_among (device_ids devices.now) number }
    ensures id { IfSome result (λ id. id ≡ number) }
{
    let slot = slot_among(devices, number)?;
    Some(devices[slot].id)
}

// Its slot.
fn slot_among(devices: &[Device], number: u64) -> Option<usize>
    ensures { result ≡ position (λ device. device.id == number) devices.now }
{
    devices.iter().position(|device| device.id as u64 == number)
}
