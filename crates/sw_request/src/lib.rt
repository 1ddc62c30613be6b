//! Requests of HTTP/1.1 (RFC 9110, RFC 9112) to a proxy of an object store: what a head is refused for, and what a request
//! without a defect tells.
//!
//! [`judge`] answers a head with its first defect, or tells how its body is read. [`Request`] is a head without a defect and
//! its body: the name of the object that it speaks of, and the object that it puts. [`word_answer`] and [`refusal_answer`]
//! are the answers whose body is a word.
#![tactic(auto)]

mod closing;
mod fields;
mod framing;
mod judging;
mod metadata;
mod method;
mod refusal;
mod request;
mod response;
mod tag;
mod target;

pub use crate::closing::asks_to_close;
pub use crate::judging::{Verdict, judge};
pub use crate::method::{Method, is_head};
pub use crate::refusal::{BadInput, Refusal};
pub use crate::request::Request;
pub use crate::response::{refusal_answer, refused, word_answer};

#[cfg(test)]
mod tests;
