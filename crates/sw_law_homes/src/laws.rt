//! Laws of homes, each the contract of a function without arguments.

ghost use Rattle.std.specs.Prelude.{◌≡◌, ◌≢◌, ◌≤◌, ◌<◌, ℕ, ◌+◌, Contains, List, length};
ghost use Rattle.std.specs.List.{All, AllPairs};
ghost use Rattle.sw_hashdir.specs.Directory.{StandsAbove};
ghost use Rattle.sw_hashdir.specs.declared.floor.Floor.{Floor as AFloor};
ghost use Rattle.sw_hashpath.specs.Place.{IsPlace, PlaceModel};
ghost use Rattle.sw_ring.specs.Cluster.{ClusterModel, KeepsRules};
ghost use Rattle.sw_message.specs.Floors.{durable_at, floors_in, tombstone_floor};
ghost use Rattle.sw_message.specs.Message.{IsMember};
ghost use Rattle.sw_message.specs.declared.target.Target.{Target as ATarget};
ghost use Rattle.sw_law_scene.specs.Scene.{Scene, StartedDelete, StartedPut};
ghost use Rattle.sw_law_scene.specs.Sound.{IsSoundScene};
ghost use Rattle.sw_law_owed.specs.Promise.{KeepsPromises};
ghost use Rattle.sw_law_owed.specs.Decided.{AreApart, KeepsStamps, WasDecided};
ghost use Rattle.sw_law_homes.specs.Homes.{AreHeard, AreLeft, IsFloorHeard, IsListed, Reaches, Shown, WasBuried, WasCommitted};

/// Of fragments at different devices, each its index's primary or a handoff, those whose homes are all others than some devices are
/// at most so many fewer than there are such devices.
pub fn homes_law()
    ensures { (cluster : ClusterModel) (place : PlaceModel) (out : List ℕ) (targets : List ATarget) → KeepsRules cluster → IsPlace cluster.part_power place → AreApart cluster place targets →
        AreLeft cluster place out targets }
{}

/// One who hears every device but some that are out, among them each that was lost since a put or delete began: if fewer are out than
/// fragments were made durable before, hears of a floor of that stamp or above it; likewise if fewer are out than devices had the
/// tombstone; and if at most q - k are out and nothing above a decided stamp is heard, hears of k of its fragments.
pub fn hearing_law()
    ensures committed { (scene : Scene) (place : PlaceModel) (since : ℕ) (out : List ℕ) (heard : List Shown) (put : StartedPut) (targets : List ATarget) →
        IsSoundScene scene → KeepsPromises scene → KeepsStamps scene → IsPlace scene.cluster.part_power place → Contains scene.book put → AreHeard scene place put.start since out heard →
        AreApart scene.cluster place targets → All (WasCommitted scene place put.booked.stamp since) targets → length out < length targets → IsFloorHeard heard (Reaches (durable_at put.booked.stamp)) }
    ensures buried { (scene : Scene) (place : PlaceModel) (since : ℕ) (out : List ℕ) (heard : List Shown) (delete : StartedDelete) (devices : List ℕ) →
        IsSoundScene scene → KeepsPromises scene → KeepsStamps scene → IsPlace scene.cluster.part_power place → Contains scene.marks delete → AreHeard scene place delete.start since out heard →
        AllPairs (λ one other. one ≢ other) devices → All (IsMember scene.cluster) devices → All (WasBuried scene place delete.marked.stamp since) devices → length out < length devices → IsFloorHeard heard (Reaches (tombstone_floor delete.marked.stamp)) }
    ensures decided { (scene : Scene) (place : PlaceModel) (start since stamp : ℕ) (out : List ℕ) (heard : List Shown) →
        IsSoundScene scene → KeepsPromises scene → KeepsStamps scene → IsPlace scene.cluster.part_power place → AreHeard scene place start since out heard →
        ((put : StartedPut) → Contains scene.book put → put.booked.stamp ≡ stamp → start ≤ put.start) → WasDecided scene place stamp since →
        ((shown : Shown) (floor : AFloor) → Contains heard shown → Contains (floors_in shown.listing) floor → StandsAbove floor stamp → ⊥) →
        length out + scene.cluster.policy.k ≤ scene.cluster.policy.q →
        (targets : List ATarget) × (scene.cluster.policy.k ≤ length targets) × AllPairs (λ one other. one.index ≢ other.index) targets × All (IsListed out heard stamp) targets }
{}
