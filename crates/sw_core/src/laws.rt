//! Laws of operations, each the contract of a function without arguments.

ghost use Rattle.std.specs.Prelude.{◌≡◌, ◌≤◌, ℕ, Contains, List, length, Some};
ghost use Rattle.sw_types.specs.Object.{ObjectModel};
ghost use Rattle.sw_ring.specs.Cluster.{ClusterModel};
ghost use Rattle.sw_message.specs.Message.{IsPlaceOf, place_in};
ghost use Rattle.sw_message.specs.Step.{Folders};
ghost use Rattle.sw_message.specs.Transcript.{Closed, Hand, Step, given};
ghost use Rattle.sw_message.specs.Warrant.{IsWarranted};
ghost use Rattle.sw_message.specs.declared.reply.Reply.{Reply as AReply};
ghost use Rattle.sw_message.specs.declared.sent.Sent.{Sent as ASent};
ghost use Rattle.sw_message.specs.declared.target.Target.{Target as ATarget};
ghost use Rattle.sw_get.specs.Causes.{IsPutFound};
ghost use Rattle.sw_get.specs.Get as gets;
ghost use Rattle.sw_get.specs.declared.end.GetEnd.TheVariants.{Found};
ghost use Rattle.sw_law_scene.specs.Filed.{AreFiled};
ghost use Rattle.sw_law_scene.specs.Disks.{IsSide};
ghost use Rattle.sw_law_scene.specs.Scene.{Answer, Request, disk_of, known_to};
ghost use Rattle.sw_core.specs.Event.{Event, IsRun, Happens};
ghost use Rattle.sw_operation.specs.Operating.{Begun, IsGetOf, IsNext};
ghost use Rattle.sw_core.specs.World.{Operating, World, numbered};
ghost use Rattle.sw_law_scene.specs.SceneMove.{MayHappen, SceneMove};
ghost use Rattle.sw_core.specs.Sound.{IsSoundWorld};
ghost use Rattle.sw_core.specs.WorldMove.{WorldMove};

/// Each message that an operation hands out has for its ticket the number of those that it handed out before.
pub fn tickets_law()
    ensures tickets { (begun : Begun) (past : List Step) (sent : ASent) → IsNext begun past (Hand sent) → sent.ticket ≡ length (given past) }
{}

/// Whatever happens to a cluster, one basic event after the other: each request that was made is about a place of the cluster and is
/// warranted by what is known; each archive in the files, and in what may be in them where a disk is undecided, is that of a put; each
/// reply that an operation has taken was made for it, since it began; and what a get or a head finds is one put's whole object, from
/// k sources of different indices that sent this get that put's archives, at a stamp that some answer showed as a durable floor.
pub fn run_law()
    ensures warranted { (cluster : ClusterModel) (events : List Event) (world : World) → IsRun cluster events world → (at number : ℕ) (sent : ASent) → Contains world.scene.messages (Request at number sent) →
        IsPlaceOf cluster (place_in sent.msg) × IsWarranted cluster (known_to world.scene) sent.msg }
    ensures filed { (cluster : ClusterModel) (events : List Event) (world : World) → IsRun cluster events world → (side : ℕ → Folders) → ((device : ℕ) → IsSide (disk_of world.scene device) (side device)) →
        AreFiled cluster (known_to world.scene).book side }
    ensures told { (cluster : ClusterModel) (events : List Event) (world : World) (number : ℕ) (operation : Operating) (sent : ASent) (reply : AReply) → IsRun cluster events world →
        numbered world.operations number ≡ Some operation → Contains operation.past (Closed sent (Some reply)) → (at : ℕ) × (operation.start ≤ at) × Contains world.scene.messages (Answer at number sent reply) }
    ensures found { (cluster : ClusterModel) (events : List Event) (world : World) (number : ℕ) (operation : Operating) (begun : gets.Begun) (stamp : ℕ) (object : ObjectModel) (sources : List ATarget) →
        IsRun cluster events world → numbered world.operations number ≡ Some operation → IsGetOf operation.begun begun → gets.IsEnd begun operation.past (Found stamp object sources) →
        IsPutFound begun operation.past (known_to world.scene) stamp object sources }
{}

/// Whatever a basic event does to a world is one of four moves: something happens to one device, or nothing but that time passes, and
/// the clock may be set; an operation goes on with a reply that was made for it; one gives a message up; or one begins, as which one put
/// or delete with the next stamp may be noted. And its scene moves in one of two ways: by what happens to a device, or as an operation
/// makes requests, once this is noted. Where the world is sound, that may happen to its scene: each request is warranted.
pub fn moves_law()
    ensures world { (event : Event) (before after : World) → Happens event before after → WorldMove before after }
    ensures scene { (event : Event) (before after : World) → Happens event before after → SceneMove before.clock before.scene after.scene }
    ensures may { (cluster : ClusterModel) (event : Event) (before after : World) → IsSoundWorld cluster before → Happens event before after → MayHappen before.clock before.scene after.scene }
{}
