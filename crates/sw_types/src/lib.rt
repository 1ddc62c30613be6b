//! The types that every crate of the cluster speaks of: bytes, lists, timestamps, names of objects, heads, objects and policies,
//! and the readers and printers of their texts.
#![tactic(auto)]

mod bytes;
mod decimal;
mod head;
mod hexadecimal;
mod items;
mod laws;
mod memory;
mod name;
mod object;
mod policy;
mod stamp;

pub use crate::bytes::Bytes;
pub use crate::decimal::{is_decimal, read_decimal};
pub use crate::head::{Head, HeadFault};
pub use crate::hexadecimal::{HexFault, hex_law, print_hex, read_hex};
pub use crate::items::Items;
pub use crate::laws::limits_law;
pub use crate::memory::NoMemory;
pub use crate::name::{Name, NameFault, Part, name_law};
pub use crate::object::Object;
pub use crate::policy::{Policy, PolicyFault};
pub use crate::stamp::Stamp;

#[cfg(test)]
mod head_tests;
#[cfg(test)]
mod tests;
