//! A code, and the fragments of a segment.

ghost use Rattle.std.specs.Prelude.{◌≡◌, ◌+◌, ◌*◌, ◌^◌, ◌<◌, ◌≤◌, IfOk, length, map, slice_index};
ghost use Rattle.std.specs.List.{range_with_len};
ghost use Rattle.sw_cauchy.specs.Matrix.{entry};
ghost use Rattle.sw_cauchy.specs.Rows.{generator_row};
ghost use Rattle.sw_cauchy.specs.Stripe.{fragment_width, segment_fragment, segment_fragments};
ghost use Rattle.sw_types.specs.Policy.{greatest_total};

use crate::rows::write_row_times;
use std::alloc::Global;
use sw_gf256::inv;
use sw_types::{Bytes, NoMemory, Policy};

/// A code of `k` data fragments and `m` parity fragments, at least one of each, at most three parity fragments for each
/// data fragment, and at most 32 fragments in all.
#[derive(Clone, Copy, Debug)]
pub struct Code {
    pub k: u32,
    pub m: u32,
    ghost some_data: { 1 ≤ k },
    ghost some_parity: { 1 ≤ m },
    ghost most_parity: { m ≤ 3 * k },
    ghost total: { k + m ≤ greatest_total },
}

impl Code {
    /// The code of so many data and parity fragments.
    pub fn new(k: u32, m: u32) -> Code
        requires some_data { 1 ≤ k }
        requires some_parity { 1 ≤ m }
        requires most_parity { m ≤ 3 * k }
        requires total { k + m ≤ greatest_total }
        ensures data { result.k ≡ k }
        ensures parity { result.m ≡ m }
    {
        Code { k, m }
    }

    /// The entry of the generator matrix in row `i` and column `j`.
    pub fn coefficient(&self, i: u32, j: u32) -> u8
        requires row { i < self.now.k + self.now.m }
        requires column { j < self.now.k }
        ensures { result ≡ entry self.now.k i j }
    {
        if i >= self.k {
            inv((i ^ j) as u8)
        } else if i == j {
            1
        } else {
            0
        }
    }

    /// Writes row `i` of the generator matrix.
    pub(crate) fn write_row(&self, row: &mut [u8], i: u32)
        requires index { i < self.now.k + self.now.m }
        requires width { length row.old ≡ self.now.k }
        ensures { row.new ≡ generator_row self.now.k i }
    {
        for j in 0..self.k {
            row[j as usize] = self.coefficient(i, j);
        }
    }

    /// The `k + m` fragments of a segment, the data fragments first. Each has a k-th of the segment's bytes, rounded up.
    pub fn encode_stripe(&self, alloc: Global, segment: &[u8]) -> Result<Vec<Bytes>, NoMemory>
        ensures { IfOk result (λ fragments. fragments.items ≡ segment_fragments self.now.k (self.now.k + self.now.m) segment.now) }
    {
        let width = self.fragment_width(segment.len());
        let count = self.k + self.m;
        let mut fragments = Vec::with_capacity(alloc, count as usize)?;
        for index in 0..count {
            let mut fragment = vec![in alloc; 0; width]?;
            self.write_fragment(&mut fragment, segment, index);
            fragments.push(Bytes::from(fragment))?;
        }
        Ok(fragments)
    }

    /// Writes the fragment of an index of a segment. It takes no memory.
    pub fn write_fragment(&self, fragment: &mut [u8], segment: &[u8], index: u32)
        requires index { index < self.now.k + self.now.m }
        requires width { length fragment.old ≡ fragment_width self.now.k (length segment.now) }
        ensures { fragment.new ≡ segment_fragment self.now.k segment.now index }
    {
        if index < self.k {
            write_piece(fragment, segment, index as usize);
        } else {
            let mut room = [0; Policy::GREATEST_TOTAL as usize];
            let row = &mut room[..self.k as usize];
            self.write_row(row, index);
            write_row_times(fragment, row, segment);
        }
    }

    /// A k-th of so many bytes, rounded up.
    pub fn fragment_width(&self, bytes: usize) -> usize
        ensures { result ≡ fragment_width self.now.k bytes }
    {
        bytes.div_ceil(self.k as usize)
    }
}

impl From<Policy> for Code {
    ghost from_gives = { λ policy code. (code.k ≡ policy.k) × (code.m ≡ policy.m) };

    fn from(policy: Policy) -> Code {
        Code::new(policy.k(), policy.m())
    }
}

// Writes piece `j` of a segment that is cut into pieces of one width, with zeros behind where the segment ends early.
fn write_piece(piece: &mut [u8], segment: &[u8], j: usize)
    requires { j * length piece.old < 2 ^ 64 }
    ensures { piece.new ≡ map (λ position. slice_index segment.now (j * length piece.old + position)) (range_with_len 0 (length piece.old)) }
{
    let width = piece.len();
    let rest = &segment[(j * width).min(segment.len())..];
    let (bytes, zeros) = piece.split_at_mut(width.min(rest.len()));
    bytes.copy_from_slice(&rest[..bytes.len()]);
    zeros.fill(0);
}
