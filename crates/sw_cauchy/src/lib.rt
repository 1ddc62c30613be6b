//! The erasure code: a segment becomes k data and m parity fragments, of which any k give it back. The generator matrix
//! is that of ISA-L's `gf_gen_cauchy1_matrix` over the field of 256 elements.
#![tactic(auto)]

mod code;
mod decode;
mod gather;
mod inversion;
mod laws;
mod rows;

pub use crate::code::Code;
pub use crate::gather::Gather;
pub use crate::laws::{any_rows_law, any_shares_law};

#[cfg(test)]
mod tests;
