//! Bytes as hex text: `-` for none, and else two digits a byte.

ghost use Rattle.std.specs.Prelude.{◌≡◌, ◌*◌, ◌<◌, ◌≤◌, ℕ, List, Some, None, IfErr, IfOk, length, slice_index};
ghost use Rattle.sw_words.specs.Memory.{UnlessMemory};
ghost use Rattle.sw_types.specs.declared.hexadecimal.HexFault.TheVariants.{NoMemory as WantOfMemory};
ghost use Rattle.sw_types.specs.Hex.{bytes_of_hex, hex_text};

use crate::{Bytes, NoMemory};
use hex::FromHexError;
use std::alloc::Global;
use thiserror::Error;

/// Why a text was not read as hex.
#[derive(Clone, Copy, Debug, PartialEq, Eq, Error)]
pub enum HexFault {
    /// It is neither `-` nor a nonempty even number of hexadecimal digits.
    #[error("not hex")]
    Bad,
    #[error("out of memory")]
    NoMemory,
}

impl From<NoMemory> for HexFault {
    ghost from_gives = { λ _ fault. fault ≡ WantOfMemory };

    fn from(_refused: NoMemory) -> HexFault {
        HexFault::NoMemory
    }
}

/// The bytes that a text spells: `-` spells none, and two hexadecimal digits of either case spell one.
pub fn read_hex(alloc: Global, text: &[u8]) -> Result<Bytes, HexFault>
    ensures read { IfOk result (λ bytes. bytes_of_hex text.now ≡ Some bytes) }
    ensures fault { IfErr result (λ fault. UnlessMemory HexFault.NoMemory fault (bytes_of_hex text.now ≡ None)) }
{
    if text == b"-".as_slice() {
        return Ok(Bytes::new(alloc));
    }
    if text.is_empty() {
        return Err(HexFault::Bad);
    }
    match hex::decode(alloc, text) {
        Ok(bytes) => Ok(Bytes::from(bytes)),
        Err(FromHexError::OutOfMemory) => Err(HexFault::NoMemory),
        Err(_) => Err(HexFault::Bad),
    }
}

/// The text of some bytes, in lower case.
pub fn print_hex(alloc: Global, bytes: &[u8]) -> Result<Bytes, NoMemory>
    ensures { IfOk result (λ text. text ≡ hex_text bytes.now) }
{
    if bytes.is_empty() {
        return Bytes::from_slice(alloc, b"-");
    }
    let text = hex::encode(alloc, bytes)?;
    Ok(Bytes::from(text.into_bytes()))
}

/// The text of some bytes spells these bytes, and a text spells at most one byte for two of its own.
pub fn hex_law()
    ensures read_again { (bytes : List ℕ) → ((place : ℕ) → slice_index bytes place < 256) → bytes_of_hex (hex_text bytes) ≡ Some bytes }
    ensures short { (text bytes : List ℕ) → bytes_of_hex text ≡ Some bytes → 2 * length bytes ≤ length text }
{}
