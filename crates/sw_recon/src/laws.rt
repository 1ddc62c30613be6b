//! Laws of reverts, each the contract of a function without arguments.

ghost use Rattle.std.specs.Prelude.{◌≡◌, ℕ, List, take};
ghost use Rattle.sw_hashpath.specs.Place.{PlaceModel};
ghost use Rattle.sw_hashdir.specs.Listing.{ListingModel};
ghost use Rattle.sw_hashdir.specs.declared.entry.Entry.{Entry as AnEntry};
ghost use Rattle.sw_message.specs.Transcript.{Hand, IsRun, Next, Step};
ghost use Rattle.sw_message.specs.declared.message.Msg.TheVariants.{PutFrag, Remove};
ghost use Rattle.sw_message.specs.declared.sent.Sent.{Sent as ASent};
ghost use Rattle.sw_recon.specs.Causes.{IsCovered, IsDone, IsUnanswered, ListsOwn, WasFetched};
ghost use Rattle.sw_recon.specs.Course.{most_entries};
ghost use Rattle.sw_recon.specs.Revert.{Begun, IsBegun, IsEnd, IsNext};
ghost use Rattle.sw_recon.specs.Sends.{IsFirstFor, MaySend};
ghost use Rattle.sw_recon.specs.declared.kept.KeptEntry.{KeptEntry as AKeptEntry};
ghost use Rattle.sw_recon.specs.declared.revert_end.RevertEnd.{RevertEnd as ARevertEnd};
ghost use Rattle.sw_recon.specs.declared.revert_end.RevertEnd.TheVariants.{Done, Unanswered};

/// After a transcript of a revert one thing comes next, and it has one end at most.
pub fn machine_law()
    ensures one_next { (begun : Begun) (past : List Step) (one other : Next) → IsNext begun past one → IsNext begun past other → one ≡ other }
    ensures one_end { (begun : Begun) (past : List Step) (one other : ARevertEnd) → IsEnd begun past one → IsEnd begun past other → one ≡ other }
{}

/// Each end of a revert has its cause in what was answered. It has its primary store what its own device sent, and has an entry removed
/// only once an answer of the primary shows it durable or a floor above its stamp. Its first message asks its own device, and every other
/// one is about an entry that this listed. Where that lists none twice, it hands out nothing twice but questions: each entry has its own
/// to its primary, which is so asked again for the next entry of its index.
pub fn revert_law()
    ensures done { (begun : Begun) (past : List Step) (removed : ℕ) (kept : List AKeptEntry) → IsBegun begun → IsRun (IsNext begun) past →
        IsEnd begun past (Done removed kept) → IsDone begun past removed kept }
    ensures unanswered { (begun : Begun) (past : List Step) (device : ℕ) → IsBegun begun → IsRun (IsNext begun) past →
        IsEnd begun past (Unanswered device) → IsUnanswered begun past device }
    ensures stores { (begun : Begun) (past : List Step) (sent : ASent) (place : PlaceModel) (stamp index : ℕ) (bytes : List ℕ) → IsBegun begun → IsRun (IsNext begun) past →
        IsNext begun past (Hand sent) → sent.msg ≡ PutFrag place stamp index bytes → (place ≡ begun.place) × WasFetched begun past stamp index bytes }
    ensures removes { (begun : Begun) (past : List Step) (sent : ASent) (place : PlaceModel) (entry : AnEntry) → IsBegun begun → IsRun (IsNext begun) past →
        IsNext begun past (Hand sent) → sent.msg ≡ Remove place entry.stamp entry.index → (place ≡ begun.place) × IsCovered begun past entry }
    ensures sends { (begun : Begun) (past : List Step) (sent : ASent) → IsBegun begun → IsRun (IsNext begun) past →
        IsNext begun past (Hand sent) → MaySend begun past sent.device sent.msg }
    ensures first { (begun : Begun) (past : List Step) (sent : ASent) (listing : ListingModel) → IsBegun begun → IsRun (IsNext begun) past → ListsOwn begun past listing →
        IsNext begun past (Hand sent) → IsFirstFor begun (take most_entries listing.entries) past sent }
{}
