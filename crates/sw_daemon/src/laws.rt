//! Laws of passes, each the contract of a function without arguments.

ghost use Rattle.std.specs.Prelude.{◌≡◌, List};
ghost use Rattle.sw_message.specs.Transcript.{Hand, IsRun, Next, Step};
ghost use Rattle.sw_message.specs.declared.sent.Sent.{Sent as ASent};
ghost use Rattle.sw_daemon.specs.Causes.{AreOnce, IsWhole, MaySend};
ghost use Rattle.sw_daemon.specs.Pass.{Begun, IsBegun, IsEnd, IsNext};
ghost use Rattle.sw_daemon.specs.declared.report.PassReport.{PassReport as AReport};

/// After a transcript of a pass one thing comes next, and it has one end at most.
pub fn machine_law()
    ensures one_next { (begun : Begun) (past : List Step) (one other : Next) → IsBegun begun → IsNext begun past one → IsNext begun past other → one ≡ other }
    ensures one_end { (begun : Begun) (past : List Step) (one other : AReport) → IsBegun begun → IsEnd begun past one → IsEnd begun past other → one ≡ other }
{}

/// A pass sends messages only about places that its own device listed: where that is a primary of the place, only if another primary
/// missed or differs at the place's suffix. At its end, where no partition was listed twice, each that is treated was asked for, and the
/// own device was asked about each of its places as a handoff, and as a primary about each at whose suffix another one missed or differs,
/// as each job begins.
pub fn pass_law()
    ensures sends { (begun : Begun) (past : List Step) (sent : ASent) → IsBegun begun → IsRun (IsNext begun) past →
        IsNext begun past (Hand sent) → MaySend begun past sent.device sent.msg }
    ensures whole { (begun : Begun) (past : List Step) (report : AReport) → IsBegun begun → IsRun (IsNext begun) past →
        IsEnd begun past report → AreOnce begun past → IsWhole begun past }
{}
