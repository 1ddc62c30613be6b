//! The lines of messages that were made.

ghost use Rattle.std.specs.Prelude.{◌≡◌, ◌≤◌, ◌++◌, suc, IfOk, drop, length, map, option_to_list};
ghost use Rattle.sw_sim_exchange.specs.declared.lines.SentLine.TheVariants.{Started};
ghost use Rattle.sw_sim_exchange.specs.Letters.{lines_from};

use crate::kinds::{AnswerKind, RequestKind};
use crate::letter::{Content, Letter};
use crate::lines::SentLine;
use std::alloc::Global;
use sw_types::NoMemory;

/// The line of the operation that started, if one did, and those of the letters from this slot on.
pub fn sent_since(
    alloc: Global,
    started: Option<u64>,
    letters: &[Letter],
    from: usize,
) -> Result<Vec<SentLine>, NoMemory>
    requires { from ≤ length letters.now }
    ensures { IfOk result (λ lines. lines.items ≡ map Started (option_to_list started) ++ lines_from (suc from) (drop from letters.now)) }
{
    let mut lines = Vec::new(alloc);
    if let Some(operation) = started {
        lines.push(SentLine::Started { operation })?;
    }
    'letters: for slot in from..letters.len() {
        let letter = &letters[slot];
        let (message, operation, device) = (slot as u64 + 1, letter.operation, letter.device);
        match &letter.content {
            Content::Request(msg) => {
                if let Some(kind) = RequestKind::of(msg) {
                    lines.push(SentLine::Request {
                        message,
                        operation,
                        device,
                        kind,
                    })?;
                }
            }
            Content::Answer(Some(reply)) => {
                if let Some(kind) = AnswerKind::of(reply) {
                    lines.push(SentLine::Answered {
                        message,
                        operation,
                        device,
                        kind,
                    })?;
                }
            }
            Content::Answer(None) => {}
        }
    }
    Ok(lines)
}
