//! Laws of inputs and answers, the contracts of functions without arguments.

ghost use Rattle.std.specs.Prelude.{◌≡◌, ◌≢◌, ◌⊎◌, ◌<◌, ℕ, List, Result, Some, length};
ghost use Rattle.sw_ring.specs.Members.{RingMembers};
ghost use Rattle.sw_ring.specs.declared.fault.RingFault.{RingFault as AFault};
ghost use Rattle.swift_main.specs.Loading.{SummarizesRing};
ghost use Rattle.swift_main.specs.Outcome.{PlayGives, greatest_input};
ghost use Rattle.swift_main.specs.Reading.{IsInput};
ghost use Rattle.swift_main.specs.Seen.{SourceSeen};
ghost use Rattle.swift_main.specs.declared.status.Status.{Status as AStatus};
ghost use Rattle.swift_main.specs.declared.status.Status.TheVariants.{NoMemory};

use sw_law_determined::cluster_law;
use sw_load::summary_law;
use sw_play::text_law;

/// An input gives `play` one status and one text at most, unless memory is wanted.
pub fn answer_law()
    ensures { (input : List ℕ) (one other : AStatus) (told others : List ℕ) → PlayGives input one told → PlayGives input other others →
        one ≢ NoMemory → other ≢ NoMemory → (one ≡ other) × (told ≡ others) }
{
    cluster_law();
    text_law();
}

/// A ring gives `load` of so many steps one text.
pub fn load_law()
    ensures { (steps : ℕ) (ring : Result RingMembers AFault) (text other : List ℕ) → SummarizesRing steps ring text → SummarizesRing steps ring other → text ≡ other }
{
    cluster_law();
    summary_law();
}

/// Of a source that tells what is left to be read, all of that is the input, or both are too long.
pub fn input_law()
    ensures { (before after : SourceSeen) (whole input : List ℕ) → before.left ≡ Some whole → IsInput before after input →
        (input ≡ whole) ⊎ ((greatest_input < length input) × (greatest_input < length whole)) }
{}
