//! Laws of runs that go on, each the contract of a function without arguments.

ghost use Rattle.std.specs.Prelude.{List};
ghost use Rattle.sw_ring.specs.Cluster.{ClusterModel};
ghost use Rattle.sw_core.specs.Event.{Event, Happens, IsRun};
ghost use Rattle.sw_core.specs.World.{World};
ghost use Rattle.sw_law_going.specs.Going.{MayHappenTo};

/// Each world of a run goes on by each basic event that may happen to it: a put or a delete starts while timestamps are left, and the
/// put keeps its bounds; any get, head or reconstructor's job starts; any request comes to its device, whatever it asks, and the device
/// may fail or crash within that; devices crash, stop, restart and lose their disks; any reply that was ever made comes to its operation,
/// whatever that is, and any of its messages is given up; the clock is set. No other event happens to a world.
pub fn going_law()
    ensures goes_on { (cluster : ClusterModel) (events : List Event) (world : World) (event : Event) → IsRun cluster events world → MayHappenTo world event → (after : World) × Happens event world after }
    ensures only { (world after : World) (event : Event) → Happens event world after → MayHappenTo world event }
{}
