//! The devices of a partition: those that the rows have at its number.

ghost use Rattle.std.specs.Prelude.{◌≡◌, ◌<◌, [], filter, map, not, position, IfOk, length, slice_get, slice_index, slice_index_or};
ghost use Rattle.sw_ring.specs.Ring.{has_at, option_is};
ghost use Rattle.sw_ring.specs.Rules.{column_at, device_ids};

use crate::device::Device;
use crate::rules::{has_at, is_at};
use std::alloc::Global;
use sw_types::NoMemory;

/// The device of a row at a partition.
pub(crate) fn device_at(rows: &[Vec<u16>], part: usize, index: usize) -> u16
    requires index { index < length rows.now }
    requires part { part < length (slice_index_or (map (λ row. row.items) rows.now) index []) }
    ensures { result ≡ slice_index (column_at part (map (λ row. row.items) rows.now)) index }
{
    rows[index][part]
}

/// The first row that has this device at a partition.
pub(crate) fn index_in(rows: &[Vec<u16>], part: usize, device: u16) -> Option<usize>
    ensures { result ≡ position (λ row. option_is (slice_get row part) device) (map (λ row. row.items) rows.now) }
{
    rows.iter().position(|row| is_at(row, part, device))
}

/// The ids of the devices that no row has at a partition.
pub(crate) fn absent(
    alloc: Global,
    devices: &[Device],
    rows: &[Vec<u16>],
    part: usize,
) -> Result<Vec<u16>, NoMemory>
    ensures { IfOk result (λ ids. ids.items ≡ filter (λ id. not (has_at part id (map (λ row. row.items) rows.now))) (device_ids devices.now)) }
{
    let ids = devices
        .iter()
        .map(|device| device.id)
        .filter(|id| !has_at(part, *id, rows))
        .collect(alloc)?;
    Ok(ids)
}
