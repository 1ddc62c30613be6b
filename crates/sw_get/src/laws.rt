//! Laws of the definitions, each the contract of a function without arguments.

ghost use Rattle.std.specs.Prelude.{◌≡◌, ℕ, List};
ghost use Rattle.sw_types.specs.Object.{ObjectModel};
ghost use Rattle.sw_message.specs.Learnt.{AreKnown, Learnt};
ghost use Rattle.sw_message.specs.Transcript.{IsRun, Next, Step};
ghost use Rattle.sw_message.specs.declared.miss.Miss.{Miss as AMiss};
ghost use Rattle.sw_message.specs.declared.target.Target.{Target as ATarget};
ghost use Rattle.sw_get.specs.Causes.{IsAbsent, IsBook, IsBuried, IsOvertaken, IsPutFound, IsTooFew, IsUnanswered};
ghost use Rattle.sw_get.specs.Get.{AreTurns, Begun, IsBegun, IsEnd, IsNext, Turn};
ghost use Rattle.sw_get.specs.declared.end.GetEnd.{GetEnd as AGetEnd};
ghost use Rattle.sw_get.specs.declared.end.GetEnd.TheVariants as gets;
ghost use Rattle.sw_get.specs.declared.round_end.KeptEvent.{KeptEvent as AnEvent};

/// A transcript has one list of turns: each answer has one meaning.
pub fn turns_law()
    ensures { (begun : Begun) (past : List Step) (one other : List Turn) → AreTurns begun past one → AreTurns begun past other → one ≡ other }
{}

/// After a transcript of a get one thing comes next, and it has one end at most.
pub fn machine_law()
    ensures one_next { (begun : Begun) (past : List Step) (one other : Next) → IsNext begun past one → IsNext begun past other → one ≡ other }
    ensures one_end { (begun : Begun) (past : List Step) (one other : AGetEnd) → IsBegun begun → IsEnd begun past one → IsEnd begun past other → one ≡ other }
{}

/// A get finds an object that was put under its name, from k archives of that put, at a stamp that some answer showed as a durable
/// floor, and that is the greatest once every device of its last round had answered or was given up.
pub fn found_law()
    ensures { (begun : Begun) (past : List Step) (learnt : Learnt) (stamp : ℕ) (object : ObjectModel) (sources : List ATarget) → IsBegun begun → IsRun (IsNext begun) past →
        IsBook learnt.book → AreKnown begun.cluster learnt past → IsEnd begun past (gets.Found stamp object sources) → IsPutFound begun past learnt stamp object sources }
{}

/// Every other end of a get has its cause in the answers, once every device of its last round had answered or was given up: no floor and
/// few misses, a tombstone that no floor is above, misses where no floor was shown or its archives are wanting, too few indices
/// with no miss, or eight rounds each of which was kept as an event.
pub fn end_law()
    ensures absent { (begun : Begun) (past : List Step) → IsBegun begun → IsRun (IsNext begun) past → IsEnd begun past gets.Absent → IsAbsent begun past }
    ensures buried { (begun : Begun) (past : List Step) → IsBegun begun → IsRun (IsNext begun) past → (stamp : ℕ) → IsEnd begun past (gets.Buried stamp) → IsBuried begun past stamp }
    ensures unanswered { (begun : Begun) (past : List Step) → IsBegun begun → IsRun (IsNext begun) past → (misses : List (ℕ × AMiss)) → IsEnd begun past (gets.Unanswered misses) →
        IsUnanswered begun past misses }
    ensures too_few { (begun : Begun) (past : List Step) → IsBegun begun → IsRun (IsNext begun) past → (stamp have : ℕ) → IsEnd begun past (gets.TooFew stamp have) →
        IsTooFew begun past stamp have }
    ensures overtaken { (begun : Begun) (past : List Step) → IsBegun begun → IsRun (IsNext begun) past → (events : List AnEvent) → IsEnd begun past (gets.Overtaken events) →
        IsOvertaken begun past events }
{}
