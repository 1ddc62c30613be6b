//! MD5 (RFC 1321) of several messages of one length, side by side: each word of the state is a vector with a lane for
//! each message.
#![tactic(auto)]

mod absorbing;
mod blocks;
mod compress;
mod digests;
mod eight;
mod four;
mod keeping;
mod lanes;
mod last;
mod list;
mod loading;
mod piece;

pub use crate::digests::Digests;
pub use crate::list::digests_of;
pub use crate::piece::Piece;

#[cfg(test)]
mod tests;
