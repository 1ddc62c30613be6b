//! The headline, as the contract of a function without arguments.

ghost use Rattle.std.specs.Prelude.{◌≡◌, ◌≤◌, ℕ, List, Some, length};
ghost use Rattle.sw_ring.specs.Cluster.{ClusterModel};
ghost use Rattle.sw_get.specs.Get as gets;
ghost use Rattle.sw_get.specs.declared.end.GetEnd.TheVariants.{Overtaken};
ghost use Rattle.sw_get.specs.declared.round_end.KeptEvent.{KeptEvent as AnEvent};
ghost use Rattle.sw_core.specs.Event.{Event, IsRun};
ghost use Rattle.sw_operation.specs.Operating.{IsGetOf};
ghost use Rattle.sw_core.specs.World.{Operating, World, numbered};
ghost use Rattle.sw_law_steady.specs.Steady.{MissesAlike, kept_events};
ghost use Rattle.sw_law_alone.specs.Alone.{IsAlone};
ghost use Rattle.sw_law_complete.specs.InFull.{DeletesEndInFull, GetsEndInFull, PutsEndInFull};
ghost use Rattle.sw_law_headline.specs.Headline.{NeverOlder, ShowsOrOvertaken, StaysDeleted};
ghost use Rattle.sw_law_headline.specs.Invariant.{Invariant};
ghost use Rattle.sw_law_headline.specs.Timed.{IsTimely};

/// Over every list of basic events, from the empty world of any cluster that keeps the rules, the invariant holds. After a put was
/// acknowledged with so many commits, a get of its name that begins later, with fewer devices lost since the put's start or missing a
/// message of the get, tells of nothing older; if besides at most q - k devices are so, it shows the put or something newer, or it was
/// overtaken. After a delete was acknowledged with so many marks, with fewer devices so, it tells of nothing older than the delete. A get
/// beside which nothing steps, and of which each device misses all questions or none, keeps at most one round as an event and is not
/// overtaken. On devices that are all up and sure of their disks, with nothing else stepping and no message given up, operations that
/// are over ended in full: a put is acknowledged with k + m commits where every disk has room, a delete with k + m marks, and a get ends
/// by what the devices have.
pub fn headline_law()
    ensures invariant { (cluster : ClusterModel) (events : List Event) (world : World) → IsRun cluster events world → Invariant cluster world }
    ensures never_older { (cluster : ClusterModel) → NeverOlder cluster }
    ensures shows { (cluster : ClusterModel) → ShowsOrOvertaken cluster }
    ensures stays_deleted { (cluster : ClusterModel) → StaysDeleted cluster }
    ensures alone { (cluster : ClusterModel) (world : World) (number : ℕ) (operation : Operating) (begun : gets.Begun) (turns : List gets.Turn) → IsAlone cluster world number → numbered world.operations number ≡ Some operation →
        IsGetOf operation.begun begun → gets.AreTurns begun operation.past turns → MissesAlike begun operation.past →
        (length (kept_events begun turns) ≤ 1) × ((events : List AnEvent) → gets.IsEnd begun operation.past (Overtaken events) → ⊥) }
    ensures puts_in_full { (cluster : ClusterModel) → PutsEndInFull cluster }
    ensures deletes_in_full { (cluster : ClusterModel) → DeletesEndInFull cluster }
    ensures gets_in_full { (cluster : ClusterModel) → GetsEndInFull cluster }
{}

/// Whatever happens to a cluster, one basic event after the other: the messages of each operation were made in the order of its
/// transcript, each request once.
pub fn times_law()
    ensures { (cluster : ClusterModel) (events : List Event) (world : World) (number : ℕ) (operation : Operating) → IsRun cluster events world → numbered world.operations number ≡ Some operation →
        IsTimely world.scene number operation }
{}
