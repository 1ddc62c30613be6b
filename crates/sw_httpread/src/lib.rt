//! Requests are read from a connection, however their bytes are cut into pieces.
//!
//! [`next_head`] reads a head and [`read_body`] the body behind it; a [`Carry`] keeps what was read and is not used yet.
//! `src/ending.rt` and `src/lines.rt` find where a head, a chunk line or a trailer section ends, `src/parse.rt` reads a
//! head's parts, and `src/step.rt` tells what stands where a chunk would begin: these look at bytes alone. `src/head.rt`
//! and `src/body.rt` read until the bytes decide.
#![tactic(auto)]

mod body;
mod carry;
mod ending;
mod head;
mod lines;
mod parse;
mod request;
mod step;

pub use crate::body::{BodyNext, Framing, body_law, read_body};
pub use crate::carry::Carry;
pub use crate::head::{HeadNext, head_law, next_head};
pub use crate::request::RequestHead;

#[cfg(test)]
mod body_tests;
#[cfg(test)]
mod head_tests;
