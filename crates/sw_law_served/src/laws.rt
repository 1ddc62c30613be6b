//! The law of what answers over nodes behind locks show, as the contract of a function without arguments.

ghost use Rattle.std.specs.Prelude.{Bool};
ghost use Rattle.sw_law_served.specs.Laws.{AnswersKeepLost, AnswersShow};
ghost use Rattle.sw_ring.specs.Cluster.{ClusterModel};

use sw_io::Clock;

/// Over a link to nodes behind locks whose disks tell what they hold, which loses no call and whose pass knows soundly, each answer is that of an
/// operation whose calls let the pass' view grow, and shows what the view promises of a get and of a put. No answer changes which calls are lost.
pub fn served_law<T: Clock>()
    ensures shows { (cluster : ClusterModel) → AnswersShow cluster T.shows }
    ensures lost { (cluster : ClusterModel) (tells : Bool) → AnswersKeepLost cluster tells T.shows }
{}
