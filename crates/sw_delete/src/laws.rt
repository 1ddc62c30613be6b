//! Laws of deletes, each the contract of a function without arguments.

ghost use Rattle.std.specs.Prelude.{◌≡◌, ℕ, Bool, List, Some};
ghost use Rattle.sw_hashdir.specs.declared.floor.Floor.{Floor as AFloor};
ghost use Rattle.sw_message.specs.Transcript.{IsRun, Next, Step};
ghost use Rattle.sw_message.specs.declared.miss.Miss.{Miss as AMiss};
ghost use Rattle.sw_delete.specs.Causes.{IsDeleted, IsSuperseded, IsTooFewMarks};
ghost use Rattle.sw_delete.specs.Delete.{Begun, IsBegun, IsNext, delete_end};
ghost use Rattle.sw_delete.specs.declared.end.DeleteEnd.{DeleteEnd as ADeleteEnd};
ghost use Rattle.sw_delete.specs.declared.end.DeleteEnd.TheVariants.{Deleted, Superseded, TooFewMarks};

/// After a transcript of a delete one thing comes next, and it has one end at most.
pub fn machine_law()
    ensures one_next { (begun : Begun) (past : List Step) (one other : Next) → IsNext begun past one → IsNext begun past other → one ≡ other }
    ensures one_end { (begun : Begun) (past : List Step) (one other : ADeleteEnd) → delete_end begun past ≡ Some one → delete_end begun past ≡ Some other → one ≡ other }
{}

/// Each end of a delete has its cause in what was answered.
pub fn end_law()
    ensures deleted { (begun : Begun) (past : List Step) (stamp marks : ℕ) (existed : Bool) → IsBegun begun → IsRun (IsNext begun) past →
        delete_end begun past ≡ Some (Deleted stamp marks existed) → IsDeleted begun past stamp marks existed }
    ensures superseded { (begun : Begun) (past : List Step) (floor : AFloor) → IsBegun begun → IsRun (IsNext begun) past →
        delete_end begun past ≡ Some (Superseded floor) → IsSuperseded begun past floor }
    ensures too_few_marks { (begun : Begun) (past : List Step) (have : ℕ) (misses : List (ℕ × AMiss)) → IsBegun begun → IsRun (IsNext begun) past →
        delete_end begun past ≡ Some (TooFewMarks have misses) → IsTooFewMarks begun past have misses }
{}
