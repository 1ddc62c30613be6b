//! What a message goes on by.

ghost use Rattle.std.specs.Prelude.{◌≡◌, ℕ, List, [], ◌∷◌};

use std::slice;
use sw_types::Bytes;

/// Bytes that a message goes on by.
pub trait Piece {
    // The bytes.
    ghost content: { Self → List ℕ };

    /// The bytes.
    fn bytes(&self) -> &[u8]
        ensures { result.now ≡ content self.now };
}

impl Piece for &[u8] {
    ghost content = { λ piece. piece.now };

    fn bytes(&self) -> &[u8] {
        *self
    }
}

impl Piece for Bytes {
    ghost content = { λ piece. piece };

    fn bytes(&self) -> &[u8] {
        self.as_slice()
    }
}

impl<const N: usize> Piece for [u8; N] {
    ghost content = { λ piece. piece };

    fn bytes(&self) -> &[u8] {
        self.as_slice()
    }
}

impl Piece for u8 {
    ghost content = { λ piece. piece ∷ [] };

    fn bytes(&self) -> &[u8] {
        slice::from_ref(self)
    }
}
