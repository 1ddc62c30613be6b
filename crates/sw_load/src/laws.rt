//! A law of workloads, the contract of a function without arguments.

ghost use Rattle.std.specs.Prelude.{◌≡◌, List};
ghost use Rattle.sw_ring.specs.Cluster.{ClusterModel, KeepsRules};
ghost use Rattle.sw_script.specs.declared.event.Event.{Event as AnEvent};
ghost use Rattle.sw_lab.specs.declared.summary.Summary.{Summary as ASummary};
ghost use Rattle.sw_load.specs.Load.{HasRun};

use sw_law_determined::event_law;

/// Two runs of the same events over a cluster that keeps the rules have one summary.
pub fn summary_law()
    ensures { (cluster : ClusterModel) (events : List AnEvent) (one other : ASummary) → KeepsRules cluster → HasRun cluster events one → HasRun cluster events other → one ≡ other }
{
    event_law();
}
