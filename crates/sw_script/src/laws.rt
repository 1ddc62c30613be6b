//! Laws of the definitions, each the contract of a function without arguments.

ghost use Rattle.std.specs.Prelude.{◌≡◌};
ghost use Rattle.sw_script.specs.Line.{greatest_line};

use crate::line::GREATEST_LINE;

/// The limit that a caller can test is that of the definitions.
pub fn limits_law()
    ensures line { GREATEST_LINE ≡ greatest_line }
{}
