//! The outside of the program: where bytes come from and where they go, connections, and the time.
//!
//! A [`Source`] tells what it has left to give, and a [`Sink`] what was written to it, where they know: over memory
//! they do, over standard input and output they don't. A [`Conn`] is both, with one count. Each has a count of faults: a
//! call that fails raises it by one, and one that goes well leaves it. A [`Clock`] never fails.
#![tactic(auto)]

mod adapters;
mod clock;
mod conn;
mod doors;
#[cfg(test)]
mod doors_tests;
mod fuse;
mod gate;
mod host_clock;
mod mem_conn;
mod mem_doors;
mod memory;
mod sink;
mod source;
mod stock;
mod tcp_conn;
mod tcp_doors;
#[cfg(test)]
mod tests;

pub use crate::adapters::{ReadSource, WriteSink};
pub use crate::clock::{Clock, MemClock};
pub use crate::conn::Conn;
pub use crate::doors::{DoorFailed, Doors};
pub use crate::gate::{Gate, GatePoint, OpenGate};
pub use crate::host_clock::HostClock;
pub use crate::mem_conn::MemConn;
pub use crate::mem_doors::MemDoors;
pub use crate::memory::{MemSink, MemSource};
pub use crate::sink::{Sink, WriteFailed, write_all};
pub use crate::source::{ReadError, ReadFailed, Source, read_up_to};
pub use crate::tcp_conn::TcpConn;
pub use crate::tcp_doors::TcpDoors;
