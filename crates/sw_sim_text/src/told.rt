//! All that is told of an event, as text.

ghost use Rattle.std.specs.Prelude.{◌≡◌, ◌++◌, IfOk, OnErr, OnOk};
ghost use Rattle.sw_sim_text.specs.Text.{told_text};

use crate::lines::add_lines;
use std::alloc::Global;
use sw_sim_world::Told;
use sw_types::{Bytes, NoMemory};

/// Adds the lines of what is told to a text. After an `Err` the text is as before.
pub fn print_told(alloc: Global, told: &Told, text: &mut Bytes) -> Result<(), NoMemory>
    ensures ok { OnOk result (text.new ≡ text.old ++ told_text told.now) }
    ensures err { OnErr result (text.new ≡ text.old) }
{
    let lines = lines_of(alloc, told)?;
    text.extend_from_slice(lines.as_slice())
}

// The lines.
fn lines_of(alloc: Global, told: &Told) -> Result<Bytes, NoMemory>
    ensures { IfOk result (λ lines. lines ≡ told_text told.now) }
{
    let mut lines = Bytes::new(alloc);
    add_lines(&mut lines, alloc, told.sent.as_slice())?;
    add_lines(&mut lines, alloc, told.ends.as_slice())?;
    add_lines(&mut lines, alloc, told.shown.as_slice())?;
    Ok(lines)
}
