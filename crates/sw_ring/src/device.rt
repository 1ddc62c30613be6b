//! Devices.

/// A device, and how many bytes its disk has.
#[derive(Clone, Copy, Debug, PartialEq, Eq)]
pub struct Device {
    pub id: u16,
    pub capacity: u64,
}
