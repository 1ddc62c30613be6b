//! What is told of operations: that they started, the messages and replies that were made, and how they ended.

use crate::kinds::{AnswerKind, RequestKind};
use sw_operation::OpEnd;

/// An operation that started, or a message or a reply that was made, each with its number.
#[derive(Clone, Copy, Debug)]
pub enum SentLine {
    Started {
        operation: u64,
    },
    /// A message of an operation to a device.
    Request {
        message: u64,
        operation: u64,
        device: u16,
        kind: RequestKind,
    },
    /// The reply of a device to a message of an operation.
    Answered {
        message: u64,
        operation: u64,
        device: u16,
        kind: AnswerKind,
    },
}

/// How the operation of this number ended.
#[derive(Debug, Drop)]
pub struct EndLine {
    pub operation: u64,
    pub end: OpEnd,
}
