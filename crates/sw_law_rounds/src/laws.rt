//! Laws of the transcripts of gets, each the contract of a function without arguments.

ghost use Rattle.std.specs.Prelude.{◌≡◌, ℕ, Contains, List, Option, Some};
ghost use Rattle.sw_hashdir.specs.Listing.{ListingModel};
ghost use Rattle.sw_message.specs.Message.{IsMember, place_in};
ghost use Rattle.sw_message.specs.Transcript.{Closed, IsRun, Step};
ghost use Rattle.sw_message.specs.declared.reply.Reply.{Reply as AReply};
ghost use Rattle.sw_message.specs.declared.sent.Sent.{Sent as ASent};
ghost use Rattle.sw_get.specs.Causes.{AllAnswered, floors_before};
ghost use Rattle.sw_get.specs.Get.{AreTurns, Begun, Hears, IsBegun, IsNext, Sends, Turn, facts_in, place_of, round_in, ask_message, devices};
ghost use Rattle.sw_get.specs.Meaning.{Meaning};
ghost use Rattle.sw_law_rounds.specs.Missed.{HasMissed};
ghost use Rattle.sw_hashdir.specs.declared.floor.Floor.{Floor as AFloor};
ghost use Rattle.sw_law_rounds.specs.Asked.{HadAnswered, IsSentAfter, WasShown};

/// Each message of a get is about the place of its name, and what was heard in its last round was handed out in that round. Where all
/// devices have answered in it, each device of the cluster that missed no message of the get has listed what it has.
pub fn rounds_law()
    ensures about { (begun : Begun) (past : List Step) (sent : ASent) (answer : Option AReply) → IsRun (IsNext begun) past → Contains past (Closed sent answer) → place_in sent.msg ≡ Some (place_of begun) }
    ensures sent { (begun : Begun) (past : List Step) (turns : List Turn) (sent : ASent) (meaning : Meaning) → IsBegun begun → IsRun (IsNext begun) past → AreTurns begun past turns →
        Contains (round_in begun turns).turns (Hears sent meaning) → Contains (round_in begun turns).turns (Sends sent) }
    ensures listed { (begun : Begun) (past : List Step) (turns : List Turn) (device : ℕ) → AreTurns begun past turns → (HasMissed begun past device → ⊥) → AllAnswered begun turns → IsMember begun.cluster device →
        (listing : ListingModel) × Contains (facts_in begun turns).lists (device, listing) }
{}

/// Before a primary is asked in a round of a get, every handoff has answered or was given up; and before any message of a round is
/// handed out, the floors had been shown that count as shown before the round.
pub fn asked_law()
    ensures handoffs { (begun : Begun) (past earlier : List Step) (turns : List Turn) (ticket primary handoff : ℕ) → IsBegun begun → IsRun (IsNext begun) past → AreTurns begun past turns →
        IsSentAfter begun past turns (ask_message begun ticket primary) earlier → Contains (devices begun).primaries primary → Contains (devices begun).handoffs handoff → HadAnswered begun turns handoff earlier }
    ensures floors { (begun : Begun) (past earlier : List Step) (turns : List Turn) (sent : ASent) (floor : AFloor) → IsBegun begun → IsRun (IsNext begun) past → AreTurns begun past turns →
        IsSentAfter begun past turns sent earlier → Contains (floors_before begun turns) floor → WasShown earlier floor }
{}
