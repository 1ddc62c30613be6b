//! Lines of a text.

ghost use Rattle.std.specs.Prelude.{◌≡◌, ◌++◌, ℕ, List, IfOk, OnOk, map};
ghost use Rattle.std.specs.List.{concat};

use std::alloc::Global;
use sw_types::{Bytes, NoMemory};

// What is told by one line.
pub(crate) trait Line {
    // The line, and the byte that ends it.
    ghost text: { Self → List ℕ };

    fn line(&self, alloc: Global) -> Result<Bytes, NoMemory>
        ensures { IfOk result (λ line. line ≡ text self.now) };
}

// Adds the lines of these to a text.
pub(crate) fn add_lines<L: Line>(
    lines: &mut Bytes,
    alloc: Global,
    items: &[L],
) -> Result<(), NoMemory>
    ensures { OnOk result (lines.new ≡ lines.old ++ concat (map L.text items.now)) }
{
    for item in items {
        let line = item.line(alloc)?;
        lines.extend_from_slice(line.as_slice())?;
    }
    Ok(())
}
