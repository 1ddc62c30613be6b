//! Laws of puts, each the contract of a function without arguments.

ghost use Rattle.std.specs.Prelude.{◌≡◌, ℕ, List, Some};
ghost use Rattle.sw_hashdir.specs.declared.floor.Floor.{Floor as AFloor};
ghost use Rattle.sw_message.specs.Transcript.{IsRun, Next, Step};
ghost use Rattle.sw_message.specs.declared.miss.Miss.{Miss as AMiss};
ghost use Rattle.sw_put.specs.Causes.{IsCreated, IsSuperseded, IsTooFewCommits, IsTooFewSynced};
ghost use Rattle.sw_put.specs.Put.{Begun, IsBegun, IsNext, put_end};
ghost use Rattle.sw_put.specs.declared.end.PutEnd.{PutEnd as APutEnd};
ghost use Rattle.sw_put.specs.declared.end.PutEnd.TheVariants.{Created, Superseded, TooFewCommits, TooFewSynced};

/// After a transcript of a put one thing comes next, and it has one end at most.
pub fn machine_law()
    ensures one_next { (begun : Begun) (past : List Step) (one other : Next) → IsNext begun past one → IsNext begun past other → one ≡ other }
    ensures one_end { (begun : Begun) (past : List Step) (one other : APutEnd) → put_end begun past ≡ Some one → put_end begun past ≡ Some other → one ≡ other }
{}

/// Each end of a put has its cause in what was answered.
pub fn end_law()
    ensures created { (begun : Begun) (past : List Step) (stamp count : ℕ) → IsBegun begun → IsRun (IsNext begun) past →
        put_end begun past ≡ Some (Created stamp count) → IsCreated begun past stamp count }
    ensures superseded { (begun : Begun) (past : List Step) (floor : AFloor) → IsBegun begun → IsRun (IsNext begun) past →
        put_end begun past ≡ Some (Superseded floor) → IsSuperseded begun past floor }
    ensures too_few_synced { (begun : Begun) (past : List Step) (have : ℕ) (missed : List (ℕ × AMiss)) → IsBegun begun → IsRun (IsNext begun) past →
        put_end begun past ≡ Some (TooFewSynced have missed) → IsTooFewSynced begun past have missed }
    ensures too_few_commits { (begun : Begun) (past : List Step) (have : ℕ) (missed : List (ℕ × AMiss)) → IsBegun begun → IsRun (IsNext begun) past →
        put_end begun past ≡ Some (TooFewCommits have missed) → IsTooFewCommits begun past have missed }
{}
