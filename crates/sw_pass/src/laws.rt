//! The rule in other words, as the contract of a function without arguments.

ghost use Rattle.sw_ring.specs.Cluster.{ClusterModel};
ghost use Rattle.sw_pass.specs.Pairs.{IsPaired};
ghost use Rattle.sw_pass.specs.Rule.{IsKept, Table as ATable};

/// What the rule says of any two seats.
pub fn pairs_law()
    ensures { (cluster : ClusterModel) (table : ATable) → IsKept cluster table → IsPaired cluster table }
{}
