//! Messages that an operation hands out.

use crate::message::Msg;

/// A message, the device that it goes to, and the ticket by which it is answered or given up.
#[derive(Debug, Drop)]
pub struct Sent {
    pub ticket: u64,
    pub device: u16,
    pub msg: Msg,
}
