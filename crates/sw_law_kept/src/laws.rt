//! The law of the step, as the contract of a function without arguments.

ghost use Rattle.std.specs.Prelude.{ℕ};
ghost use Rattle.sw_ring.specs.Cluster.{ClusterModel, KeepsRules};
ghost use Rattle.sw_law_scene.specs.Scene.{Scene, empty_scene};
ghost use Rattle.sw_law_scene.specs.SceneMove.{MayHappen};
ghost use Rattle.sw_law_kept.specs.Kept.{KeepsAll};

/// All that every scene of a run keeps, the empty scene of every cluster keeps that keeps the rules; and whatever may happen to a scene
/// that keeps it leads to one that does: messages are made, each about a place of the cluster and warranted by what is known, whichever
/// operation makes them, once a put or a delete was noted with the next stamp; a device handles any message that was ever made for it,
/// or its disk fails, or it crashes within that; it stops, mounts, crashes within a mount, or loses its disk; or time passes.
pub fn step_law()
    ensures empty { (cluster : ClusterModel) → KeepsRules cluster → KeepsAll (empty_scene cluster) }
    ensures step { (clock : ℕ) (before after : Scene) → KeepsAll before → MayHappen clock before after → KeepsAll after }
{}
