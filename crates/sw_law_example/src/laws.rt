//! Laws of runs that there are, each the contract of a function without arguments.

ghost use Rattle.std.specs.Prelude.{◌≡◌, ◌≤◌, ℕ, ◌+◌, Contains, [], ◌∷◌, length, Some};
ghost use Rattle.sw_types.specs.Name.{NameModel};
ghost use Rattle.sw_types.specs.Object.{ObjectModel};
ghost use Rattle.sw_archive.specs.Put.{IsPut, put_archive};
ghost use Rattle.sw_ring.specs.Cluster.{ClusterModel, KeepsRules, place_of_name};
ghost use Rattle.sw_message.specs.Transcript.{Closed};
ghost use Rattle.sw_message.specs.Warrant.{IsPrimaryOf};
ghost use Rattle.sw_message.specs.declared.reply.Reply.TheVariants as reply;
ghost use Rattle.sw_law_scene.specs.Devices.{capacity_of};
ghost use Rattle.sw_law_scene.specs.Scene.{empty_scene};
ghost use Rattle.sw_core.specs.Event.{Deliver, IsRun, Put, Start};
ghost use Rattle.sw_core.specs.World.{Operating, World, first_clock, numbered};
ghost use Rattle.sw_law_complete.specs.Complete.{HaveRoom};
ghost use Rattle.sw_law_example.specs.Example.{stores_first};
ghost use Rattle.sw_law_example.specs.Loss.{FindsAfterLoss};
ghost use Rattle.sw_law_example.specs.Pair.{pair};

/// In every cluster that keeps the rules there is a run in which a put of any object starts, the primary of index 0, if it has room,
/// stores its fragment, and its answer comes to the put: the events are the start, the delivery of the first message, and that of the
/// first reply, which follows the k + m fragments.
///
/// In a cluster of two devices, of which one is enough to read, there is an object that may be put and for whose archives both have room;
/// and for each such there is a run in which its put is acknowledged with more than one commit, a device loses its disk then, and a get
/// that starts later finds the object. So a put that was acknowledged and a get with a device out are no empty premises, nor are
/// operations beside which nothing steps.
pub fn example_law()
    ensures stores { (cluster : ClusterModel) (name : NameModel) (object : ObjectModel) (device : ℕ) → KeepsRules cluster → IsPut cluster.policy first_clock name object → IsPrimaryOf cluster (place_of_name cluster name) 0 device →
        length (put_archive cluster.policy first_clock name object 0) ≤ capacity_of cluster device →
        (world : World) × IsRun cluster (Start (Put name object) ∷ Deliver 1 ∷ Deliver (cluster.policy.k + cluster.policy.m + 1) ∷ []) world ×
        ((operation : Operating) × (numbered world.operations 1 ≡ Some operation) × Contains operation.past (Closed (stores_first cluster name object device) (Some reply.Synced))) }
    ensures given { (name : NameModel) × (object : ObjectModel) × IsPut pair.policy first_clock name object × HaveRoom (empty_scene pair) first_clock name object }
    ensures finds { (name : NameModel) (object : ObjectModel) → IsPut pair.policy first_clock name object → HaveRoom (empty_scene pair) first_clock name object → FindsAfterLoss pair name object 1 }
{}
