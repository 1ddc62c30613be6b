//! Devices of misses.

ghost use Rattle.std.specs.Prelude.{◌≡◌, IfOk};
ghost use Rattle.sw_sim_text.specs.Text.{devices_of};

use std::alloc::Global;
use sw_message::Miss;
use sw_types::NoMemory;

// Each device that missed once, ascending.
pub(crate) fn devices_of(alloc: Global, misses: &[(u16, Miss)]) -> Result<Vec<u16>, NoMemory>
    ensures { IfOk result (λ devices. devices.items ≡ devices_of misses.now) }
{
    let mut devices: Vec<u16> = misses.iter().map(|miss| miss.0).collect(alloc)?;
    devices.sort_unstable();
    devices.dedup();
    Ok(devices)
}
