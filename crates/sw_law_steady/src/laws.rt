//! Laws of gets to which devices show no change, each the contract of a function without arguments.

ghost use Rattle.std.specs.Prelude.{◌≤◌, List, length};
ghost use Rattle.sw_message.specs.Transcript.{IsRun, Step};
ghost use Rattle.sw_get.specs.Get.{AreTurns, Begun, IsBegun, IsEnd, IsNext, Turn};
ghost use Rattle.sw_get.specs.declared.end.GetEnd.TheVariants.{Overtaken};
ghost use Rattle.sw_get.specs.declared.round_end.KeptEvent.{KeptEvent as AnEvent};
ghost use Rattle.sw_law_steady.specs.Steady.{IsSteady, MissesAlike, kept_events};

/// A get to which each device shows one listing, lacks nothing that it listed, and misses each question or none keeps at most one round
/// as an event: the first, in which the target rose from nothing. So it is not overtaken.
pub fn steady_law()
    ensures kept { (begun : Begun) (past : List Step) (turns : List Turn) → IsBegun begun → IsRun (IsNext begun) past → AreTurns begun past turns → IsSteady begun past → MissesAlike begun past →
        length (kept_events begun turns) ≤ 1 }
    ensures not_overtaken { (begun : Begun) (past : List Step) (events : List AnEvent) → IsBegun begun → IsRun (IsNext begun) past → IsSteady begun past → MissesAlike begun past →
        IsEnd begun past (Overtaken events) → ⊥ }
{}
