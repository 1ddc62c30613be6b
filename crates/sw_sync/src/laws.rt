//! Laws of syncs, each the contract of a function without arguments.

ghost use Rattle.std.specs.Prelude.{◌≡◌, ℕ, List};
ghost use Rattle.sw_hashdir.specs.declared.floor.Floor.{Floor as AFloor};
ghost use Rattle.sw_ring.specs.Cluster.{KeepsRules};
ghost use Rattle.sw_message.specs.Transcript.{Hand, IsFirst, IsRun, Next, Step};
ghost use Rattle.sw_message.specs.declared.miss.Miss.{Miss as AMiss};
ghost use Rattle.sw_message.specs.declared.sent.Sent.{Sent as ASent};
ghost use Rattle.sw_sync.specs.Answers.{AllAnswered};
ghost use Rattle.sw_sync.specs.Causes.{IsDone, IsNewer, IsTooFew, IsUnanswered};
ghost use Rattle.sw_sync.specs.Sends.{MaySend};
ghost use Rattle.sw_sync.specs.Sync.{Begun, IsBegun, IsEnd, IsNext};
ghost use Rattle.sw_sync.specs.declared.sync_end.Failure.{Failure as AFailure};
ghost use Rattle.sw_sync.specs.declared.sync_end.SyncEnd.{SyncEnd as ASyncEnd};
ghost use Rattle.sw_sync.specs.declared.sync_end.SyncEnd.TheVariants.{Done, Newer, TooFew, Unanswered};

/// After a transcript of a sync one thing comes next, and it has one end at most.
pub fn machine_law()
    ensures one_next { (begun : Begun) (past : List Step) (one other : Next) → KeepsRules begun.cluster → IsNext begun past one → IsNext begun past other → one ≡ other }
    ensures one_end { (begun : Begun) (past : List Step) (one other : ASyncEnd) → IsEnd begun past one → IsEnd begun past other → one ≡ other }
{}

/// Each end of a sync has its cause in what was answered, once each device of the cluster was asked. It hands out nothing twice. A
/// tombstone goes only to primaries that listed a smaller floor or none; archives are fetched only for primaries that lack theirs, are
/// stored only there, rebuilt from k that were brought; and entries are made durable only where they were listed plain, or were stored.
pub fn sync_law()
    ensures answered { (begun : Begun) (past : List Step) (end : ASyncEnd) → IsBegun begun → IsRun (IsNext begun) past → IsEnd begun past end → AllAnswered begun past }
    ensures done { (begun : Begun) (past : List Step) (commits rebuilt tombstones : ℕ) (failed : List AFailure) → IsBegun begun → IsRun (IsNext begun) past →
        IsEnd begun past (Done commits rebuilt tombstones failed) → IsDone begun past commits rebuilt tombstones failed }
    ensures unanswered { (begun : Begun) (past : List Step) (device : ℕ) → IsBegun begun → IsRun (IsNext begun) past →
        IsEnd begun past (Unanswered device) → IsUnanswered begun past device }
    ensures newer { (begun : Begun) (past : List Step) (floor : AFloor) → IsBegun begun → IsRun (IsNext begun) past →
        IsEnd begun past (Newer floor) → IsNewer begun past floor }
    ensures too_few { (begun : Begun) (past : List Step) (stamp have : ℕ) (misses : List (ℕ × AMiss)) → IsBegun begun → IsRun (IsNext begun) past →
        IsEnd begun past (TooFew stamp have misses) → IsTooFew begun past stamp have misses }
    ensures sends { (begun : Begun) (past : List Step) (sent : ASent) → IsBegun begun → IsRun (IsNext begun) past →
        IsNext begun past (Hand sent) → MaySend begun past sent.device sent.msg }
    ensures first { (begun : Begun) (past : List Step) (sent : ASent) → IsBegun begun → IsRun (IsNext begun) past →
        IsNext begun past (Hand sent) → IsFirst past sent }
{}
