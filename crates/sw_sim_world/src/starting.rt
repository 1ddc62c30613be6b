//! Operations of a world that start.

ghost use Rattle.std.specs.Prelude.{◌≡◌, ◌≤◌, ◌<◌, ◌++◌, suc, [], ◌∷◌, List, Some, IfErr, IfOk, OnOk, false, length, map};
ghost use Rattle.sw_types.specs.Stamp.{greatest_stamp};
ghost use Rattle.sw_message.specs.declared.sent.Sent.{Sent as ASent};
ghost use Rattle.sw_law_scene.specs.Moves.{next_stamp};
ghost use Rattle.sw_core.specs.Event as core;
ghost use Rattle.sw_operation.specs.Operating.{Begun, IsBegun};
ghost use Rattle.sw_operation.specs.Standing.{Stands as StandsAs, has_ended};
ghost use Rattle.sw_script.specs.declared.event.Event.TheVariants as event;
ghost use Rattle.sw_sim_world.specs.Leading.{DoesIt, FaultsBy, IsBegunBy, IsNotBegun, LeadsByOne};
ghost use Rattle.sw_sim_exchange.specs.Letters.{letter_of};
ghost use Rattle.sw_sim_world.specs.ScriptedWorld.{ScriptedWorld};
ghost use Rattle.sw_sim_world.specs.Standing.{Stands, StandsFor};
ghost use Rattle.sw_sim_world.specs.Unfolding.{job_of};

use crate::fault::StepFault;
use crate::inner::{Inner, ends_told};
use crate::told::Told;
use sw_operation::AnyOp;
use sw_script::Job;
use sw_sim_exchange::EndLine;
use sw_types::{NoMemory, Stamp};

impl<'a> Inner<'a> {
    /// Starts an operation.
    pub(crate) fn start(&mut self, job: &Job) -> Result<Told, StepFault>
        requires { Stands self.old }
        ensures does { (before : ScriptedWorld) → StandsFor self.old before → IfOk result (λ told. DoesIt (event.Start job.now) before told self.new) }
        ensures faults { (before : ScriptedWorld) → StandsFor self.old before → IfErr result (λ fault. FaultsBy (event.Start job.now) before fault self.old self.new) }
        ensures cluster { self.new.cluster ≡ self.old.cluster }
    {
        let count = self.exchange.letters().len();
        let mut ends = Vec::new(self.alloc);
        let number = self.begin(job, &mut ends)?;
        Ok(self.told_since(count, Some(number), ends)?)
    }

    /// Starts an operation and takes it to its end.
    pub(crate) fn run(&mut self, job: &Job) -> Result<Told, StepFault>
        requires { Stands self.old }
        ensures does { (before : ScriptedWorld) → StandsFor self.old before → IfOk result (λ told. DoesIt (event.Run job.now) before told self.new) }
        ensures faults { (before : ScriptedWorld) → StandsFor self.old before → IfErr result (λ fault. FaultsBy (event.Run job.now) before fault self.old self.new) }
        ensures cluster { self.new.cluster ≡ self.old.cluster }
    {
        let count = self.exchange.letters().len();
        let mut ends = Vec::new(self.alloc);
        let number = self.begin(job, &mut ends)?;
        self.run_out(number, count, &mut ends)?;
        Ok(ends_told(self.alloc, ends))
    }

    // Starts an operation, and answers its number.
    fn begin(&mut self, job: &Job, ends: &mut Vec<EndLine>) -> Result<u64, StepFault>
        requires { Stands self.old }
        ensures number { IfOk result (λ number. (number ≡ suc (length self.old.operations)) × (number ≡ length self.new.operations)) }
        ensures leads { (before : ScriptedWorld) → StandsFor self.old before → OnOk result (LeadsByOne (core.Start (job_of job.now)) before self.new ends.old.items ends.new.items) }
        ensures letters { IfOk result (λ number. (sents : List ASent) × (self.new.letters ≡ self.old.letters ++ map (letter_of number) sents)) }
        ensures faults { (before : ScriptedWorld) → StandsFor self.old before → IfErr result (λ fault. FaultsBy (event.Start job.now) before fault self.old self.new) }
        ensures cluster { self.new.cluster ≡ self.old.cluster }
    {
        let op = self.begun(job)?;
        let number = self.exchange.keep(op)?;
        self.exchange.proceed(number, ends)?;
        Ok(number)
    }

    // A job that has handed out nothing. A put and a delete draw a stamp.
    fn begun(&mut self, job: &Job) -> Result<AnyOp<'a>, StepFault>
        ensures begun { IfOk result (λ op. (begun : Begun) × IsBegunBy self.old.cluster self.old.clock self.old.last job.now begun self.new.last
            × StandsAs op begun [] × IsBegun begun × (has_ended op ≡ false)) }
        ensures faults { IfErr result (λ fault. IsNotBegun self.old.cluster self.old.clock self.old.last job.now fault self.old self.new) }
        ensures rest { self.new ≡ record self.old { last = self.new.last } }
    {
        let (alloc, cluster) = (self.alloc, self.nodes.cluster());
        match job {
            Job::Put { name, object } => {
                let stamp = self.draw()?;
                Ok(AnyOp::put(alloc, cluster, stamp, name, object)?)
            }
            Job::Get(name) => Ok(AnyOp::get(alloc, cluster, name)?),
            Job::Head(name) => Ok(AnyOp::head(alloc, cluster, name)?),
            Job::Delete(name) => {
                let stamp = self.draw()?;
                Ok(AnyOp::delete(alloc, cluster, stamp, name)?)
            }
            Job::Recon { device, name } => {
                let device = self.device_of(*device)?;
                Ok(AnyOp::recon(alloc, cluster, device, name)?)
            }
        }
    }

    // Draws a stamp: what the clock shows, or one more than the last where that is greater.
    fn draw(&mut self) -> Result<Stamp, StepFault>
        ensures drawn { IfOk result (λ stamp. (stamp ≡ next_stamp self.old.clock self.old.last) × (stamp ≤ greatest_stamp) × (self.new ≡ record self.old { last = Some stamp })) }
        ensures spent { IfErr result (λ fault. (fault ≡ StepFault.StampsSpent) × (greatest_stamp < next_stamp self.old.clock self.old.last) × (self.new ≡ self.old)) }
    {
        let Some(stamp) = Stamp::make(self.next_units()) else {
            return Err(StepFault::StampsSpent);
        };
        self.last = Some(stamp);
        Ok(stamp)
    }

    // The units of the stamp that is drawn next.
    fn next_units(&self) -> u64
        ensures { result ≡ next_stamp self.now.clock self.now.last }
    {
        match self.last {
            None => self.clock.units(),
            Some(last) => self.clock.units().max(last.units() + 1),
        }
    }
}
