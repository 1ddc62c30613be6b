//! Laws of the definitions, each the contract of a function without arguments.

ghost use Rattle.std.specs.Prelude.{ℕ};
ghost use Rattle.sw_ring.specs.Cluster.{ClusterModel};
ghost use Rattle.sw_message.specs.Learnt.{IsGenuine, IsSoundBook, Learnt};
ghost use Rattle.sw_message.specs.Message.{IsPlaceOf, place_in};
ghost use Rattle.sw_message.specs.Warrant.{IsWarranted};
ghost use Rattle.sw_message.specs.declared.message.Msg.{Msg as AMsg};
ghost use Rattle.sw_message.specs.declared.reply.Reply.{Reply as AReply};
ghost use Rattle.sw_law_scene.specs.Devices.{Devices, IsHandledBy};
ghost use Rattle.sw_law_scene.specs.Filed.{AreFiled};

/// Where each archive in the files is that of a put, a warranted message leaves it so, whoever sends it, and an archive in a reply
/// is that of a put.
pub fn filed_law()
    ensures filed { (cluster : ClusterModel) (learnt : Learnt) (device : ℕ) (msg : AMsg) (reply : AReply) (before after : Devices) → IsSoundBook cluster.policy learnt.book →
        AreFiled cluster learnt.book before → IsPlaceOf cluster (place_in msg) → IsWarranted cluster learnt msg → IsHandledBy cluster device msg reply before after → AreFiled cluster learnt.book after }
    ensures genuine { (cluster : ClusterModel) (learnt : Learnt) (device : ℕ) (msg : AMsg) (reply : AReply) (before after : Devices) → IsSoundBook cluster.policy learnt.book →
        AreFiled cluster learnt.book before → IsPlaceOf cluster (place_in msg) → IsHandledBy cluster device msg reply before after → IsGenuine cluster learnt reply }
{}
