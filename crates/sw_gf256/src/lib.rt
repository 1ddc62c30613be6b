//! The field of 256 elements that the erasure code counts in: its elements are bytes, as polynomials of degree below 8
//! over two elements, with products modulo x^8 + x^4 + x^3 + x^2 + 1, as in ISA-L. The sum of two elements is `^`.
#![tactic(auto)]

mod field;
mod lanes;
mod laws;

pub use crate::field::{inv, mul, mul_acc};
pub use crate::laws::{field_law, product_law};

#[cfg(test)]
mod tests;
