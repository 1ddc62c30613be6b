//! Laws of what is determined, each the contract of a function without arguments.

ghost use Rattle.std.specs.Prelude.{◌≡◌, ℕ, List};
ghost use Rattle.sw_ring.specs.Cluster.{ClusterModel, IsCluster};
ghost use Rattle.sw_ring.specs.Members.{RingMembers};
ghost use Rattle.sw_core.specs.Event.{Event, Happens, IsRun};
ghost use Rattle.sw_core.specs.World.{World};
ghost use Rattle.sw_law_determined.specs.Cut.{IsCutWithin};
ghost use Rattle.sw_law_determined.specs.Sure.{AreSure, IsDetermined, KeepsSure};

use sw_message::step_law;

/// In a world of a run whose disks are all sure, each event leads to one world, unless a device fails or stops within it; and where a
/// device stops within a handling, its disk cut short after so many calls and keeping so many changes of names, to one, too. Disks stay
/// sure whatever happens, unless one fails.
pub fn event_law()
    ensures one { (cluster : ClusterModel) (events : List Event) (world one other : World) (event : Event) → IsRun cluster events world → AreSure world.scene → IsDetermined event →
        Happens event world one → Happens event world other → one ≡ other }
    ensures crash { (world one other : World) (message calls pick : ℕ) → AreSure world.scene → IsCutWithin world message calls pick one → IsCutWithin world message calls pick other → one ≡ other }
    ensures sure { (world after : World) (event : Event) → AreSure world.scene → KeepsSure event → Happens event world after → AreSure after.scene }
{
    step_law();
}

/// The members of a ring's text say one cluster at most.
pub fn cluster_law()
    ensures { (members : RingMembers) (one other : ClusterModel) → IsCluster members one → IsCluster members other → one ≡ other }
{}
