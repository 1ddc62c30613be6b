//! A law of scripts, the contract of a function without arguments.

ghost use Rattle.std.specs.Prelude.{◌≡◌, ◌≢◌, ◌⊎◌, ℕ, List};
ghost use Rattle.sw_ring.specs.Cluster.{ClusterModel, KeepsRules};
ghost use Rattle.sw_sim_world.specs.Doing.{Done};
ghost use Rattle.sw_sim_world.specs.ScriptedWorld.{ScriptedWorld, empty_script};
ghost use Rattle.sw_play.specs.Play.{IsRun};
ghost use Rattle.sw_play.specs.Same.{ArePlayedAlike, IsFront};
ghost use Rattle.sw_play.specs.Story.{Plays};
ghost use Rattle.sw_play.specs.declared.playing.PlayEnd.{PlayEnd as AnEnd};
ghost use Rattle.sw_play.specs.declared.playing.PlayEnd.TheVariants as ended;

use sw_law_determined::event_law;

/// Two runs of one script, from the empty world of a cluster that keeps the rules, have one end and one text, unless memory was wanted in
/// one of them. The text of that one is a front of the other's, or, where it was wanted in both, one of the two is a front of the other.
/// So it is of their stories: line by line they have the same basic events, which lead to the same worlds, and tell the same.
pub fn text_law()
    ensures same { (cluster : ClusterModel) (lines : List (List ℕ)) (one other : AnEnd) (text others : List ℕ) → KeepsRules cluster → IsRun (empty_script cluster) lines one text →
        IsRun (empty_script cluster) lines other others → one ≢ ended.NoMemory → other ≢ ended.NoMemory → (one ≡ other) × (text ≡ others) }
    ensures front { (cluster : ClusterModel) (lines : List (List ℕ)) (one other : AnEnd) (text others : List ℕ) → KeepsRules cluster → IsRun (empty_script cluster) lines one text →
        IsRun (empty_script cluster) lines other others → one ≡ ended.NoMemory → IsFront text others ⊎ ((other ≡ ended.NoMemory) × IsFront others text) }
    ensures story { (cluster : ClusterModel) (lines : List (List ℕ)) (story other : List Done) (end how : AnEnd) (after later : ScriptedWorld) → KeepsRules cluster →
        Plays (empty_script cluster) 1 lines story end after → Plays (empty_script cluster) 1 lines other how later → ArePlayedAlike story other end how after later }
{
    event_law();
}
