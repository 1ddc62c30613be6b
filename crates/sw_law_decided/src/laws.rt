//! Laws of stamps, each the contract of a function without arguments.

ghost use Rattle.std.specs.Prelude.{List};
ghost use Rattle.sw_ring.specs.Cluster.{ClusterModel};
ghost use Rattle.sw_core.specs.Event.{Event, IsRun};
ghost use Rattle.sw_core.specs.World.{World};
ghost use Rattle.sw_law_owed.specs.Decided.{KeepsStamps};

/// Whatever happens to a cluster, one basic event after the other: what devices hold, what messages ask to store, to make durable or to
/// bury, and the listings and floors that replies show are of puts and deletes that were started before; what is durable was decided
/// before; and stamps rise in the order of their starts.
pub fn stamps_law()
    ensures { (cluster : ClusterModel) (events : List Event) (world : World) → IsRun cluster events world → KeepsStamps world.scene }
{}
