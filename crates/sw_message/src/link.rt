//! Links: the way of a message to a device, and of its reply back.

ghost use Rattle.std.specs.Prelude.{◌≡◌, ℕ, Option, Some};
ghost use Rattle.sw_ring.specs.Cluster.{ClusterModel};
ghost use Rattle.sw_message.specs.Learnt.{Learnt};
ghost use Rattle.sw_message.specs.Running.{CountsLoss, Hears, IsOf, StillTells, TellsSoundly};
ghost use Rattle.sw_message.specs.Warrant.{IsWarranted};
ghost use Rattle.sw_message.specs.declared.message.Msg.{Msg as AMsg};
ghost use Rattle.sw_message.specs.declared.reply.Reply.{Reply as AReply};

use crate::message::Msg;
use crate::reply::Reply;

/// Calls devices.
///
/// A link may tell what it has learnt: of puts and deletes that were started, and of replies. Only where it says that it may be silent can
/// it fall silent at a call, and then it tells nothing from then on.
pub trait Link {
    /// Its cluster, where it has one.
    ghost cluster: { Self → Option ClusterModel };

    /// What it has learnt, where it tells.
    ghost learnt: { Self → Option Learnt };

    /// Whether it may be silent though it told before. It may be so from then on.
    ghost may_be_silent: { Self → Type 0 };

    /// What a call of a device with a message may answer, and leave.
    ghost calls: { Self → ℕ → AMsg → Option AReply → Self → Type 0 };

    /// How many messages were lost.
    ghost losses: { Self → ℕ };

    /// Sends a message to a device. There is no reply where the message was lost, and then the count of losses rose.
    fn call(&mut self, device: u16, msg: &Msg) -> Option<Reply>
        requires known { (of : ClusterModel) → cluster self.old ≡ Some of → IsOf of device msg.now }
        requires warranted { (of : ClusterModel) (known : Learnt) → cluster self.old ≡ Some of → learnt self.old ≡ Some known → IsWarranted of known msg.now }
        ensures calls { calls self.old device msg.now result self.new }
        ensures cluster { cluster self.new ≡ cluster self.old }
        ensures tells { StillTells (may_be_silent self.new) (learnt self.old) (learnt self.new) }
        ensures silence { may_be_silent self.old → may_be_silent self.new }
        ensures hears { Hears (cluster self.new) (learnt self.new) device msg.now result }
        ensures counts { CountsLoss (losses self.old) (losses self.new) result };

    /// Whatever it tells is sound, also before the first call.
    ghost sound: { (link : Self) → TellsSoundly (cluster link) (learnt link) };
}
