//! The matrix that decodes fragments.

ghost use Rattle.std.specs.Prelude.{◌≡◌, ◌≢◌, ◌+◌, ◌*◌, ◌<◌, IfOk, length};
ghost use Rattle.std.specs.List.{All, AllPairs};
ghost use Rattle.sw_cauchy.specs.Decodes.{Decodes};
ghost use Rattle.sw_cauchy.specs.Rows.{generator_rows};

use crate::Code;
use crate::inversion::{invert, write_unit_matrix};
use std::alloc::Global;
use sw_types::{NoMemory, Policy};

// The most entries of a square matrix of k columns.
const GREATEST_SQUARE: usize = (Policy::GREATEST_TOTAL * Policy::GREATEST_TOTAL) as usize;

/// The matrix that decodes the fragments of k indices: the inverse of the generator matrix's rows of these indices, as k
/// rows of k entries, one after another. It stays until there are k other indices, or the same in another order.
#[derive(Debug, Drop)]
pub(crate) struct Decoder {
    indices: Vec<u32>,
    pub(crate) matrix: Vec<u8>,
}

impl Decoder {
    /// That of the data fragments, which is the unit matrix.
    pub(crate) fn new(alloc: Global, code: Code) -> Result<Decoder, NoMemory>
        ensures { IfOk result (λ decoder. Decodes code.k decoder.matrix.items decoder.indices.items) }
    {
        let k = code.k as usize;
        let indices = (0..code.k).collect(alloc)?;
        let mut matrix = vec![in alloc; 0; k * k]?;
        write_unit_matrix(&mut matrix, k);
        Ok(Decoder { indices, matrix })
    }

    /// Becomes that of these indices, if there are k. It takes no memory.
    pub(crate) fn follow(&mut self, code: Code, indices: &[u32])
        requires before { Decodes code.k self.old.matrix.items self.old.indices.items }
        requires below { All (λ index. index < code.k + code.m) indices.now }
        requires distinct { AllPairs (λ s t. s ≢ t) indices.now }
        ensures decodes { Decodes code.k self.new.matrix.items self.new.indices.items }
        ensures follows { length indices.now ≡ code.k → self.new.indices.items ≡ indices.now }
    {
        if indices.len() != code.k as usize || self.indices.as_slice() == indices {
            return;
        }
        write_decode_matrix(&mut self.matrix, code, indices);
        self.indices.copy_from_slice(indices);
    }
}

// Writes the matrix that decodes the fragments of k indices.
fn write_decode_matrix(matrix: &mut [u8], code: Code, indices: &[u32])
    requires square { length matrix.old ≡ code.k * code.k }
    requires count { length indices.now ≡ code.k }
    requires below { All (λ index. index < code.k + code.m) indices.now }
    requires distinct { AllPairs (λ s t. s ≢ t) indices.now }
    ensures { Decodes code.k matrix.new indices.now }
{
    let k = code.k as usize;
    let mut room = [0; GREATEST_SQUARE];
    let rows = &mut room[..k * k];
    write_generator_rows(rows, code, indices);
    invert(rows, matrix, k);
}

// Writes the rows of the generator matrix of these indices, one after another.
fn write_generator_rows(rows: &mut [u8], code: Code, indices: &[u32])
    requires square { length rows.old ≡ code.k * code.k }
    requires count { length indices.now ≡ code.k }
    requires below { All (λ index. index < code.k + code.m) indices.now }
    ensures { rows.new ≡ generator_rows code.k indices.now }
{
    let k = code.k as usize;
    for (t, index) in indices.iter().enumerate() {
        code.write_row(&mut rows[t * k..(t + 1) * k], *index);
    }
}
