//! Disks over folders of the host, and the shelf that hands them out.
#![tactic(auto)]

mod device;
mod disk;
mod fault;
mod files;
mod host;
mod identity;
mod known;
mod path;
mod shelf;
mod walk;

pub use crate::disk::HostDisk;
pub use crate::host::Host;
pub use crate::shelf::HostShelf;

#[cfg(test)]
mod tests;
