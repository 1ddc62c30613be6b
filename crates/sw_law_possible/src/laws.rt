//! Laws of what can happen, each the contract of a function without arguments.

ghost use Rattle.std.specs.Prelude.{ℕ, Contains};
ghost use Rattle.sw_ring.specs.Cluster.{ClusterModel};
ghost use Rattle.sw_message.specs.Learnt.{IsSoundBook, Learnt};
ghost use Rattle.sw_message.specs.Step.{Folders};
ghost use Rattle.sw_message.specs.declared.message.Msg.{Msg as AMsg};
ghost use Rattle.sw_message.specs.declared.reply.Reply.{Reply as AReply};
ghost use Rattle.sw_message.specs.declared.sent.Sent.{Sent as ASent};
ghost use Rattle.sw_law_scene.specs.Devices.{IsDeviceStep};
ghost use Rattle.sw_law_scene.specs.Disks.{AreOfPlaces, IsMounted};
ghost use Rattle.sw_law_scene.specs.Filed.{FoldersFiled};
ghost use Rattle.sw_law_scene.specs.Moves.{Crashes, CrashesMounting, Fails, Handles, Restarts};
ghost use Rattle.sw_law_scene.specs.Scene.{Request, Scene};
ghost use Rattle.sw_law_scene.specs.Sound.{MayBeSent};
ghost use Rattle.sw_law_kept.specs.Kept.{KeepsAll};

/// A device whose files are in the folders of places, each archive that of a put, has an answer to each message about a place of the
/// cluster that is warranted; and each device can mount its disk. So in a scene that keeps all that every scene of a run keeps a device
/// can handle each request that was made for it, and its disk can fail within that; and whatever a scene is, a device can crash within
/// the handling of a message, or within a mount, and can restart.
pub fn possible_law()
    ensures answers { (cluster : ClusterModel) (learnt : Learnt) (device : ℕ) (msg : AMsg) (before : Folders) → IsSoundBook cluster.policy learnt.book → FoldersFiled cluster learnt.book before → AreOfPlaces cluster before →
        MayBeSent cluster learnt msg → (reply : AReply) × (after : Folders) × IsDeviceStep cluster device msg reply before after }
    ensures mounts { (cluster : ClusterModel) (device : ℕ) (before : Folders) → (after : Folders) × IsMounted cluster device before after }
    ensures handles { (scene : Scene) (at operation : ℕ) (sent : ASent) → KeepsAll scene → Contains scene.messages (Request at operation sent) → (after : Scene) × Handles scene operation sent after }
    ensures fails { (scene : Scene) (at operation : ℕ) (sent : ASent) → KeepsAll scene → Contains scene.messages (Request at operation sent) → (after : Scene) × Fails scene operation sent after }
    ensures crashes { (scene : Scene) (sent : ASent) → (after : Scene) × Crashes scene sent after }
    ensures crashes_mounting { (scene : Scene) (device : ℕ) → (after : Scene) × CrashesMounting scene device after }
    ensures restarts { (scene : Scene) (device : ℕ) → (after : Scene) × Restarts scene device after }
{}
