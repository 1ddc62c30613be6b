//! Numbers in a line.

ghost use Rattle.std.specs.Prelude.{◌≡◌, IfOk, string_bytes};
ghost use Rattle.sw_sim_text.specs.Text.{numbers_text};

use std::alloc::Global;
use sw_types::NoMemory;

// The numbers in their order, with a comma between each two.
pub(crate) fn join_numbers(alloc: Global, numbers: &[u32]) -> Result<String, NoMemory>
    ensures { IfOk result (λ text. string_bytes text ≡ numbers_text numbers.now) }
{
    let mut texts = Vec::new(alloc);
    for number in numbers {
        texts.push(format!(in alloc; "{number}")?)?;
    }
    let text = texts.join(alloc, ",")?;
    Ok(text)
}
