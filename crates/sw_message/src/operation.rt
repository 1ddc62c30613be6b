//! Operations: state machines that hand out messages and take the replies.

ghost use Rattle.std.specs.Prelude.{◌≡◌, ◌⊎◌, ◌<◌, ℕ, Bool, true, false, List, Some, None, ◌∷◌, IfOk, IfSome, OnErr, IsTrue, MatchOption};
ghost use Rattle.sw_ring.specs.Cluster.{ClusterModel};
ghost use Rattle.sw_message.specs.Learnt.{AreKnown, HasOwn, Learnt, Own};
ghost use Rattle.sw_message.specs.Running.{IsOf};
ghost use Rattle.sw_message.specs.Transcript.{Gave, Hand, Next, Over, Step, Wait, after_answer, is_waiting};
ghost use Rattle.sw_message.specs.Warrant.{IsWarranted};

use crate::reply::Reply;
use crate::sent::Sent;
use sw_types::NoMemory;

/// An operation hands out messages to devices and takes their replies, until it has ended.
pub trait Operation {
    /// What it was begun with.
    ghost Begun: { Type 0 };

    /// The cluster among that.
    ghost cluster: { Begun → ClusterModel };

    /// What it started itself, if it is a put or a delete.
    ghost own: { Begun → Own };

    /// Its machine: what may come after a transcript, the latest step first.
    ghost machine: { Begun → List Step → Next → Type 0 };

    /// The transcripts that it stands for.
    ghost stands: { Self → Begun → List Step → Type 0 };

    /// Whether it has found that it is over.
    ghost has_ended: { Self → Bool };

    /// It hands out at most so many messages more.
    ghost left: { Self → ℕ };

    /// The next message. There is none where it has ended or waits for an answer. With each message it makes room for whatever
    /// the answer will leave. Where memory is wanted it stands for what it stood for before.
    fn next(&mut self) -> Result<Option<Sent>, NoMemory>
        ensures hands { (begun : Begun) (past : List Step) → stands self.old begun past → IfOk result (λ handed. MatchOption handed
            ((machine begun past Over × (has_ended self.new ≡ true)) ⊎ (machine begun past Wait × IsTrue (is_waiting past) × (has_ended self.new ≡ false)))
            (λ sent. machine begun past (Hand sent) × IsOf (cluster begun) sent.device sent.msg × (has_ended self.new ≡ false))) }
        ensures goes_on { (begun : Begun) (past : List Step) → stands self.old begun past → IfOk result (λ handed. MatchOption handed
            (stands self.new begun past) (λ sent. stands self.new begun (Gave sent ∷ past))) }
        ensures warranted { (begun : Begun) (past : List Step) (learnt : Learnt) → stands self.old begun past → HasOwn (own begun) learnt → AreKnown (cluster begun) learnt past →
            IfOk result (λ handed. IfSome handed (λ sent. IsWarranted (cluster begun) learnt sent.msg)) }
        ensures fewer { IfOk result (λ handed. MatchOption handed (left self.new ≡ left self.old) (λ sent. left self.new < left self.old)) }
        ensures refused { OnErr result ((begun : Begun) (past : List Step) → stands self.old begun past → stands self.new begun past) }
        ensures refused_ended { OnErr result (has_ended self.new ≡ has_ended self.old) }
        ensures refused_left { OnErr result (left self.new ≡ left self.old) };

    /// Takes the reply to a message. A ticket that is not open is ignored. It takes no memory.
    fn take(&mut self, ticket: u64, reply: Reply)
        ensures goes_on { (begun : Begun) (past : List Step) → stands self.old begun past → stands self.new begun (after_answer past ticket (Some reply)) }
        ensures ended { has_ended self.new ≡ has_ended self.old }
        ensures left { left self.new ≡ left self.old };

    /// Gives a message up. A ticket that is not open is ignored. It takes no memory.
    fn give_up(&mut self, ticket: u64)
        ensures goes_on { (begun : Begun) (past : List Step) → stands self.old begun past → stands self.new begun (after_answer past ticket None) }
        ensures ended { has_ended self.new ≡ has_ended self.old }
        ensures left { left self.new ≡ left self.old };

    /// Whether it has ended, as far as `next` has seen.
    fn ended(&self) -> bool
        ensures ended { result ≡ has_ended self.now }
        ensures over { (begun : Begun) (past : List Step) → stands self.now begun past → result ≡ true → machine begun past Over };
}
