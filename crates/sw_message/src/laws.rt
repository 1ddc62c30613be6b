//! Laws of the definitions, each the contract of a function without arguments.

ghost use Rattle.std.specs.Prelude.{◌≡◌, ◌≢◌, ◌<◌, [], ◌∷◌, ◌++◌, ℕ, true, Contains, List, Some};
ghost use Rattle.std.specs.List.{AllPairs};
ghost use Rattle.sw_types.specs.Policy.{PolicyModel};
ghost use Rattle.sw_archive.specs.Put.{IsPut};
ghost use Rattle.sw_ring.specs.Cluster.{ClusterModel};
ghost use Rattle.sw_hashdir.specs.declared.floor.Floor.{Floor as AFloor};
ghost use Rattle.sw_message.specs.Floors.{IsHighest, highest};
ghost use Rattle.sw_message.specs.Learnt.{Booked, Learnt, Marked};
ghost use Rattle.sw_message.specs.Running.{TellsSoundly};
ghost use Rattle.sw_message.specs.Soundly.{is_sound_learnt, stamps_of, told_soundly};
ghost use Rattle.sw_message.specs.Step.{Folders, IsNodeStep};
ghost use Rattle.sw_message.specs.declared.message.Msg.{Msg as AMsg};
ghost use Rattle.sw_message.specs.declared.reply.Reply.{Reply as AReply};

/// A message leads from given folders to the same folders and the same reply, whenever it is handled.
pub fn step_law()
    ensures reply { (cluster : ClusterModel) (device room : ℕ) (message : AMsg) (before after other : Folders) (first second : AReply) →
        IsNodeStep cluster device room message before after first → IsNodeStep cluster device room message before other second → first ≡ second }
    ensures folders { (cluster : ClusterModel) (device room : ℕ) (message : AMsg) (before after other : Folders) (first second : AReply) →
        IsNodeStep cluster device room message before after first → IsNodeStep cluster device room message before other second → (name : List ℕ) → after name ≡ other name }
{}

/// The greatest of some floors is one of them, and none is above it.
pub fn highest_law()
    ensures { (floors : List AFloor) → IsHighest floors (highest floors) }
{}

/// What a link tells by a test of its puts and deletes is sound, as a link's law asks. What passes is told; what is sound passes, where
/// nothing is there twice; and with a put or a delete of a later stamp it passes still.
pub fn sound_law()
    ensures sound { (cluster : ClusterModel) (learnt : Learnt) → TellsSoundly (Some cluster) (told_soundly cluster.policy learnt) }
    ensures told { (policy : PolicyModel) (learnt : Learnt) → is_sound_learnt policy learnt ≡ true → told_soundly policy learnt ≡ Some learnt }
    ensures passes { (policy : PolicyModel) (learnt : Learnt) → ((booked : Booked) → Contains learnt.book booked → IsPut policy booked.stamp booked.name booked.object) →
        AllPairs (λ n m. n ≢ m) (stamps_of learnt) → is_sound_learnt policy learnt ≡ true }
    ensures more_puts { (policy : PolicyModel) (learnt : Learnt) (booked : Booked) → is_sound_learnt policy learnt ≡ true → IsPut policy booked.stamp booked.name booked.object →
        ((n : ℕ) → Contains (stamps_of learnt) n → n < booked.stamp) → is_sound_learnt policy (record learnt { book = learnt.book ++ booked ∷ [] }) ≡ true }
    ensures more_deletes { (policy : PolicyModel) (learnt : Learnt) (marked : Marked) → is_sound_learnt policy learnt ≡ true →
        ((n : ℕ) → Contains (stamps_of learnt) n → n < marked.stamp) → is_sound_learnt policy (record learnt { marks = learnt.marks ++ marked ∷ [] }) ≡ true }
{}
