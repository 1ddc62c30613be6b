//! Laws of the definitions, each the contract of a function without arguments.

ghost use Rattle.std.specs.Prelude.{◌≡◌, ◌++◌, Bool, List, Option, ℕ};
ghost use Rattle.sw_httpread.specs.declared.body.BodyNext.TheVariants.{ReadFault as BodyFault};
ghost use Rattle.sw_httpread.specs.declared.head.HeadNext.TheVariants.{ReadFault as HeadFault};
ghost use Rattle.sw_serve.specs.Asks.{Asked as AnAsked, IsAsked};
ghost use Rattle.sw_serve.specs.Serving.{IsOpen};

/// Bytes begin with one thing that is asked, whatever comes behind it, or with none while they are of no whole request.
pub fn asked_law()
    ensures one { (bytes first second : List ℕ) (asked other : AnAsked) (waits waits' : Bool) → IsAsked bytes asked waits first → IsAsked bytes other waits' second →
        (asked ≡ other) × (waits ≡ waits') × (first ≡ second) }
    ensures more { (bytes more unused : List ℕ) (asked : AnAsked) (waits : Bool) → IsAsked bytes asked waits unused → IsAsked (bytes ++ more) asked waits (unused ++ more) }
    ensures undecided { (bytes unused written : List ℕ) (left : Option (List ℕ)) (asked : AnAsked) (waits : Bool) → IsOpen bytes left HeadFault BodyFault written →
        ¬ (IsAsked bytes asked waits unused) }
{}
