//! Laws of the definitions, each the contract of a function without arguments.

ghost use Rattle.std.specs.Prelude.{◌≡◌, None, Some};
ghost use Rattle.sw_ring.specs.Members.{RingMembers};
ghost use Rattle.sw_ring.specs.Ring.{ring_fault};
ghost use Rattle.sw_ring.specs.Rules.{IsBroken, KeepRules, greatest_devices, greatest_part_power};
ghost use Rattle.sw_ring.specs.declared.fault.RingFault.{RingFault};

use crate::cluster::Cluster;

/// What a ring is checked by is its rules: members have no fault exactly where they keep the rules, and a fault names what
/// breaks its rule.
pub fn rules_law()
    ensures no_fault { (members : RingMembers) → KeepRules members → ring_fault members ≡ None }
    ensures sound { (members : RingMembers) → ring_fault members ≡ None → KeepRules members }
    ensures witness { (members : RingMembers) (fault : RingFault) → ring_fault members ≡ Some fault → IsBroken members fault }
{}

/// The limits that a caller can test are those of the definitions.
pub fn limits_law()
    ensures part_power { Cluster.GREATEST_PART_POWER ≡ greatest_part_power }
    ensures devices { Cluster.GREATEST_DEVICES ≡ greatest_devices }
{}
