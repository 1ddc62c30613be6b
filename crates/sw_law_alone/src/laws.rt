//! Laws of gets beside which nothing else steps, each the contract of a function without arguments.

ghost use Rattle.std.specs.Prelude.{◌≡◌, ◌≤◌, ℕ, List, Some, length};
ghost use Rattle.sw_ring.specs.Cluster.{ClusterModel};
ghost use Rattle.sw_get.specs.Get as gets;
ghost use Rattle.sw_get.specs.declared.end.GetEnd.TheVariants.{Overtaken};
ghost use Rattle.sw_get.specs.declared.round_end.KeptEvent.{KeptEvent as AnEvent};
ghost use Rattle.sw_operation.specs.Operating.{IsGetOf};
ghost use Rattle.sw_core.specs.World.{Operating, World, numbered};
ghost use Rattle.sw_law_steady.specs.Steady.{IsSteady, MissesAlike, kept_events};
ghost use Rattle.sw_law_alone.specs.Alone.{IsAlone};

/// A get beside which nothing steps but its own messages is shown no change by any device. If each device that misses a question of it
/// misses all, it keeps at most one round as an event, and is not overtaken.
pub fn alone_law()
    ensures steady { (cluster : ClusterModel) (world : World) (number : ℕ) (operation : Operating) (begun : gets.Begun) → IsAlone cluster world number → numbered world.operations number ≡ Some operation →
        IsGetOf operation.begun begun → IsSteady begun operation.past }
    ensures kept { (cluster : ClusterModel) (world : World) (number : ℕ) (operation : Operating) (begun : gets.Begun) (turns : List gets.Turn) → IsAlone cluster world number → numbered world.operations number ≡ Some operation →
        IsGetOf operation.begun begun → gets.AreTurns begun operation.past turns → MissesAlike begun operation.past → length (kept_events begun turns) ≤ 1 }
    ensures not_overtaken { (cluster : ClusterModel) (world : World) (number : ℕ) (operation : Operating) (begun : gets.Begun) (events : List AnEvent) → IsAlone cluster world number → numbered world.operations number ≡ Some operation →
        IsGetOf operation.begun begun → MissesAlike begun operation.past → gets.IsEnd begun operation.past (Overtaken events) → ⊥ }
{}
