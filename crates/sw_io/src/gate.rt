//! Gates, at which a test may hold a worker.

/// Where a worker is.
#[derive(Clone, Copy, Debug, PartialEq, Eq)]
pub enum GatePoint {
    /// It has a connection.
    Accepted,
    /// It is about to send a node a message.
    BeforeMessage,
    /// It has an answer to its message.
    Answered,
}

/// What a worker passes. A gate answers nothing, and changes nothing that the worker sees.
pub trait Gate {
    /// Called by a worker at each of its points. It may hold the worker there.
    fn at(&self, worker: u16, point: GatePoint);
}

/// The gate that does nothing.
#[derive(Clone, Copy, Debug)]
pub struct OpenGate;

impl Gate for OpenGate {
    fn at(&self, _worker: u16, _point: GatePoint) {}
}
