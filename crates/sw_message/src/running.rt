//! Operations over a link.

ghost use Rattle.std.specs.Prelude.{◌≡◌, ◌++◌, [], List, OnOk, true};
ghost use Rattle.sw_message.specs.Running.{AreCalls, MayBegin, MayRun, StillTells};
ghost use Rattle.sw_message.specs.Transcript.{IsRun, Over, Step};

use crate::link::Link;
use crate::operation::Operation;
use sw_types::NoMemory;

/// Runs an operation to its end: each message that it hands out goes to the link once, and the answer to the operation. Its transcript
/// goes on by these steps alone, and stays one of its machine.
pub fn run<P: Operation, L: Link>(op: &mut P, link: &mut L) -> Result<(), NoMemory>
    requires begun { (begun : P.Begun) × (past : List Step) × P.stands op.old begun past
        × MayRun (P.cluster begun) (P.own begun) past (L.cluster link.old) (L.learnt link.old) }
    ensures runs { (more : List Step) × AreCalls L.calls L.losses link.old more link.new × ((begun : P.Begun) (past : List Step) → P.stands op.old begun past →
        MayRun (P.cluster begun) (P.own begun) past (L.cluster link.old) (L.learnt link.old) →
        P.stands op.new begun (more ++ past) × MayRun (P.cluster begun) (P.own begun) (more ++ past) (L.cluster link.new) (L.learnt link.new)
        × (IsRun (P.machine begun) past → IsRun (P.machine begun) (more ++ past))
        × OnOk result (P.machine begun (more ++ past) Over)) }
    ensures ended { OnOk result (P.has_ended op.new ≡ true) }
    ensures learns { StillTells (L.may_be_silent link.new) (L.learnt link.old) (L.learnt link.new) }
    ensures silence { L.may_be_silent link.old → L.may_be_silent link.new }
    ensures cluster { L.cluster link.new ≡ L.cluster link.old }
{
    while let Some(sent) = op.next()? {
        match link.call(sent.device, &sent.msg) {
            Some(reply) => op.take(sent.ticket, reply),
            None => op.give_up(sent.ticket),
        }
    }
    Ok(())
}

/// Runs an operation that has handed out nothing to its end. What becomes of it is one transcript of its machine, each message of which
/// went to the link once.
pub fn run_whole<P: Operation, L: Link>(op: &mut P, link: &mut L) -> Result<(), NoMemory>
    requires begun { (begun : P.Begun) × P.stands op.old begun [] × MayBegin (P.cluster begun) (P.own begun) (L.cluster link.old) (L.learnt link.old) }
    ensures runs { (past : List Step) × AreCalls L.calls L.losses link.old past link.new × ((begun : P.Begun) → P.stands op.old begun [] →
        MayBegin (P.cluster begun) (P.own begun) (L.cluster link.old) (L.learnt link.old) →
        P.stands op.new begun past × IsRun (P.machine begun) past × MayRun (P.cluster begun) (P.own begun) past (L.cluster link.new) (L.learnt link.new)
        × OnOk result (P.machine begun past Over)) }
    ensures ended { OnOk result (P.has_ended op.new ≡ true) }
    ensures learns { StillTells (L.may_be_silent link.new) (L.learnt link.old) (L.learnt link.new) }
    ensures silence { L.may_be_silent link.old → L.may_be_silent link.new }
    ensures cluster { L.cluster link.new ≡ L.cluster link.old }
{
    run(op, link)
}
