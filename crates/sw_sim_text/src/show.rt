//! The lines of what a device keeps of a name.

ghost use Rattle.std.specs.Prelude.{◌≡◌, IfOk};
ghost use Rattle.sw_sim_text.specs.Text.{durable_text, show_line};

use crate::lines::Line;
use std::alloc::Global;
use sw_hashdir::Entry;
use sw_sim_world::ShowLine;
use sw_types::{Bytes, NoMemory, print_hex};

impl Line for ShowLine {
    ghost text = { show_line };

    fn line(&self, alloc: Global) -> Result<Bytes, NoMemory> {
        match self {
            ShowLine::Stored {
                device,
                entry,
                payload,
            } => stored_line(alloc, *device, *entry, payload),
            ShowLine::Buried { device, stamp } => {
                let line = format!(in alloc; "s {device} - {stamp} tombstone\n")?;
                Ok(Bytes::from(line.into_bytes()))
            }
            ShowLine::Empty { device } => {
                let line = format!(in alloc; "s {device} empty\n")?;
                Ok(Bytes::from(line.into_bytes()))
            }
        }
    }
}

// The line of an archive that a device keeps, with its payload.
fn stored_line(alloc: Global, device: u16, entry: Entry, payload: &Bytes) -> Result<Bytes, NoMemory>
    ensures { IfOk result (λ line. line ≡ show_line (ShowLine.Stored device entry payload.now)) }
{
    let Entry {
        stamp,
        index,
        durable,
    } = entry;
    let durable = durable_word(durable);
    let front = format!(in alloc; "s {device} {index} {stamp} {durable} ")?;
    let mut line = Bytes::from(front.into_bytes());
    let payload = print_hex(alloc, payload.as_slice())?;
    line.extend_from_slice(payload.as_slice())?;
    line.extend_from_slice(b"\n")?;
    Ok(line)
}

// The word for whether an archive is durable.
fn durable_word(durable: bool) -> &'static str
    ensures { result.now ≡ durable_text durable }
{
    if durable { "durable" } else { "plain" }
}
