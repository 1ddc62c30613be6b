//! Laws of promises, each the contract of a function without arguments.

ghost use Rattle.std.specs.Prelude.{List};
ghost use Rattle.sw_ring.specs.Cluster.{ClusterModel};
ghost use Rattle.sw_core.specs.Event.{Event, IsRun};
ghost use Rattle.sw_core.specs.World.{World};
ghost use Rattle.sw_law_owed.specs.Promise.{KeepsPromises};

/// Whatever happens to a cluster, one basic event after the other: what a reply claimed of its device's folder is borne by it still,
/// unless its disk was lost since, or a handoff's duty for an entry went to the primary of its index, which had shown the entry
/// durable or a floor above it; and each listing that the device showed later bears it, unless one of these came before.
pub fn promise_law()
    ensures { (cluster : ClusterModel) (events : List Event) (world : World) → IsRun cluster events world → KeepsPromises world.scene }
{}
