//! Laws of duties, each the contract of a function without arguments.

ghost use Rattle.std.specs.Prelude.{List};
ghost use Rattle.sw_ring.specs.Cluster.{ClusterModel};
ghost use Rattle.sw_core.specs.Event.{Event, IsRun};
ghost use Rattle.sw_core.specs.World.{World};
ghost use Rattle.sw_law_duties.specs.Counted.{CountsApart};
ghost use Rattle.sw_law_owed.specs.Duties.{KeepsDuties};

/// Whatever happens to a cluster, one basic event after the other: a fragment that its index's primary or a handoff stored or made
/// durable is held there, or the primary holds it durable or has a floor above it, or one of these disks was lost since the put began;
/// what a primary has shown it holds; and where a delete was answered the floor's stamp is at least that of the delete, or the disk was
/// lost since. And what a put counts as stored or durable is at different devices, each its index's primary or a handoff.
pub fn duties_law()
    ensures duties { (cluster : ClusterModel) (events : List Event) (world : World) → IsRun cluster events world → KeepsDuties world.scene }
    ensures counted { (cluster : ClusterModel) (events : List Event) (world : World) → IsRun cluster events world → CountsApart world }
{}
