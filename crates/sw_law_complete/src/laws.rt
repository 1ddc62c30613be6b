//! Laws of operations beside which nothing steps, each the contract of a function without arguments.

ghost use Rattle.sw_ring.specs.Cluster.{ClusterModel};
ghost use Rattle.sw_law_complete.specs.InFull.{DeletesEndInFull, GetsEndInFull, PutsEndInFull};

/// On devices that are all up, with nothing else stepping: a put ends as created with all k + m commits where there is room for its
/// archives, and a delete as deleted with k + m marks; it existed exactly where some reply told so.
pub fn complete_writes_law()
    ensures created { (cluster : ClusterModel) → PutsEndInFull cluster }
    ensures deleted { (cluster : ClusterModel) → DeletesEndInFull cluster }
{}

/// On devices that are all up, with nothing else stepping, a get of a name whose place no other name has that was put ends by what the
/// devices have there: as Absent where none has a floor, as Buried where the greatest floor is a tombstone, as Found where it is durable
/// and k of its indices are held, and as TooFew only where fewer are.
pub fn complete_gets_law()
    ensures { (cluster : ClusterModel) → GetsEndInFull cluster }
{}
