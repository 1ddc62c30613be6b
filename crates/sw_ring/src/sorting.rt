//! The order of the devices.

ghost use Rattle.std.specs.List.Sorted.{IsNonDecreasing, IsPermutation};
ghost use Rattle.sw_ring.specs.Rules.{device_ids};

use crate::device::Device;

/// Sorts devices by their ids.
pub(crate) fn sort_by_id(devices: &mut [Device])
    ensures permutation { IsPermutation devices.old devices.new }
    ensures sorted { IsNonDecreasing (device_ids devices.new) }
{
    devices.sort_unstable_by_key(|device| device.id);
}
