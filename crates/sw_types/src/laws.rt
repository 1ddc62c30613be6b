//! Laws of the definitions, each the contract of a function without arguments.

ghost use Rattle.std.specs.Prelude.{◌≡◌};
ghost use Rattle.sw_types.specs.Head.{greatest_overall, greatest_pairs};
ghost use Rattle.sw_types.specs.Object.{greatest_body};
ghost use Rattle.sw_types.specs.Policy.{greatest_segment, greatest_total};
ghost use Rattle.sw_types.specs.Stamp.{greatest_stamp};

use crate::{Head, Object, Policy, Stamp};

/// The limits that a caller can test are those of the definitions.
pub fn limits_law()
    ensures stamp { Stamp.GREATEST_UNITS ≡ greatest_stamp }
    ensures body { Object.GREATEST_BODY ≡ greatest_body }
    ensures pairs { Head.GREATEST_PAIRS ≡ greatest_pairs }
    ensures overall { Head.GREATEST_OVERALL ≡ greatest_overall }
    ensures total { Policy.GREATEST_TOTAL ≡ greatest_total }
    ensures segment { Policy.GREATEST_SEGMENT ≡ greatest_segment }
{}
