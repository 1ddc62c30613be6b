//! Laws of claims, each the contract of a function without arguments.

ghost use Rattle.std.specs.Prelude.{◌≡◌, ◌≤◌, ◌↔◌, ℕ, Bool, Contains, List, Some, false};
ghost use Rattle.sw_types.specs.Stamp.{greatest_stamp};
ghost use Rattle.sw_disk.specs.Folder.{File};
ghost use Rattle.sw_hashdir.specs.Listing.{ListingModel};
ghost use Rattle.sw_hashpath.specs.Place.{IsPlace, PlaceModel, folder_of};
ghost use Rattle.sw_diskfile.specs.Normal.{HaveOneNormalForm, IsNormalForm};
ghost use Rattle.sw_ring.specs.Cluster.{ClusterModel};
ghost use Rattle.sw_message.specs.Message.{IsPlaceOf, is_primary, place_in};
ghost use Rattle.sw_message.specs.Step.{Folders, IsNodeStep};
ghost use Rattle.sw_message.specs.Warrant.{HasListing};
ghost use Rattle.sw_message.specs.declared.message.Msg.{Msg as AMsg};
ghost use Rattle.sw_message.specs.declared.reply.Reply.{Reply as AReply};
ghost use Rattle.sw_objsrv.specs.Handling.{IsStamped};
ghost use Rattle.sw_law_claim.specs.Claim.{AsksAway, Claim, Claims, IsBorneBy, IsListedIn};

/// A device that handles a message keeps in the folder of each place what this bears, but for an entry that it is asked to remove
/// and is no primary for. What its reply claims the folder of the message's place bears then, and a listing in the reply bears what
/// the folder bore before. A tombstone's stamp has to be one that there is: the name of a greater one reads as that of a lesser one;
/// and a listing has none but such.
/// Bringing a folder to normal form changes nothing of what it bears, so that a mount and a crash don't.
pub fn claim_law()
    ensures keeps { (cluster : ClusterModel) (device room : ℕ) (msg : AMsg) (place : PlaceModel) (before after : Folders) (reply : AReply) (claim : Claim) → IsPlaceOf cluster (place_in msg) → IsStamped msg → IsPlace cluster.part_power place →
        IsNodeStep cluster device room msg before after reply → (is_primary cluster device place ≡ false → AsksAway place claim msg → ⊥) →
        IsBorneBy (is_primary cluster device place) claim (before (folder_of place)) → IsBorneBy (is_primary cluster device place) claim (after (folder_of place)) }
    ensures bears { (cluster : ClusterModel) (device room : ℕ) (msg : AMsg) (place : PlaceModel) (before after : Folders) (reply : AReply) (claim : Claim) → place_in msg ≡ Some place → IsStamped msg →
        IsNodeStep cluster device room msg before after reply → Claims (is_primary cluster device place) msg reply claim → IsBorneBy (is_primary cluster device place) claim (after (folder_of place)) }
    ensures lists { (cluster : ClusterModel) (device room : ℕ) (msg : AMsg) (place : PlaceModel) (before after : Folders) (reply : AReply) (listing : ListingModel) (claim : Claim) → place_in msg ≡ Some place →
        IsNodeStep cluster device room msg before after reply → HasListing reply listing → IsBorneBy (is_primary cluster device place) claim (before (folder_of place)) →
        IsListedIn (is_primary cluster device place) claim listing }
    ensures stamped { (cluster : ClusterModel) (device room : ℕ) (msg : AMsg) (place : PlaceModel) (before after : Folders) (reply : AReply) (listing : ListingModel) (stamp : ℕ) → place_in msg ≡ Some place →
        IsNodeStep cluster device room msg before after reply → HasListing reply listing → Contains listing.tombstones stamp → stamp ≤ greatest_stamp }
    ensures normal { (primary : Bool) (files normal : List File) (claim : Claim) → IsNormalForm primary files normal → IsBorneBy primary claim files ↔ IsBorneBy primary claim normal }
    ensures crashes { (primary : Bool) (files others : List File) (claim : Claim) → HaveOneNormalForm primary files others → IsBorneBy primary claim files → IsBorneBy primary claim others }
{}
