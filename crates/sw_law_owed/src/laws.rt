//! Laws of what devices owe, each the contract of a function without arguments.

ghost use Rattle.std.specs.Prelude.{◌≡◌, ◌⊎◌, ◌≤◌, ℕ, Some, true};
ghost use Rattle.sw_hashdir.specs.Directory.{StandsAbove};
ghost use Rattle.sw_hashpath.specs.Place.{PlaceModel, folder_of};
ghost use Rattle.sw_ring.specs.Cluster.{ClusterModel};
ghost use Rattle.sw_message.specs.Message.{IsPlaceOf, is_primary, place_in};
ghost use Rattle.sw_message.specs.Step.{Folders};
ghost use Rattle.sw_message.specs.declared.message.Msg.{Msg as AMsg};
ghost use Rattle.sw_message.specs.declared.reply.Reply.{Reply as AReply};
ghost use Rattle.sw_objsrv.specs.Handling.{IsStamped};
ghost use Rattle.sw_law_claim.specs.Claim.{ATombstone, Claim, IsBorneBy};
ghost use Rattle.sw_law_scene.specs.Devices.{IsDeviceStep};
ghost use Rattle.sw_law_scene.specs.Scene.{Scene};
ghost use Rattle.sw_law_owed.specs.Decided.{AreNamesBy, IsMessageBy, IsReplyBy};
ghost use Rattle.sw_law_owed.specs.Duties.{HasFloorOf, Holds};

/// What a device's folder bears it holds, or the device is a primary of the place and the folder has a floor above it; where it bears a
/// tombstone, its floor is of no lesser stamp. Where the files of a device, by their names, and a message are of what was put, decided
/// or deleted by a step, so are its files once it has handled the message, and so is what its reply shows.
pub fn owed_law()
    ensures held { (cluster : ClusterModel) (device : ℕ) (place : PlaceModel) (claim : Claim) (folders : Folders) → IsBorneBy (is_primary cluster device place) claim (folders (folder_of place)) →
        Holds cluster device place claim.stamp claim.what folders ⊎ ((is_primary cluster device place ≡ true) × HasFloorOf place (λ floor. StandsAbove floor claim.stamp) folders) }
    ensures buried { (cluster : ClusterModel) (device : ℕ) (place : PlaceModel) (stamp : ℕ) (folders : Folders) → IsBorneBy (is_primary cluster device place) (record { stamp = stamp; what = ATombstone }) (folders (folder_of place)) →
        HasFloorOf place (λ floor. stamp ≤ floor.stamp) folders }
    ensures handled { (scene : Scene) (by device : ℕ) (msg : AMsg) (reply : AReply) (before after : Folders) → AreNamesBy scene by before → IsPlaceOf scene.cluster (place_in msg) → IsStamped msg → IsMessageBy scene by msg →
        IsDeviceStep scene.cluster device msg reply before after → AreNamesBy scene by after × ((place : PlaceModel) → place_in msg ≡ Some place → IsReplyBy scene place by reply) }
{}
