//! Fragments gathered to decode a segment.

ghost use Rattle.std.specs.Prelude.{◌≡◌, ◌≢◌, ◌+◌, ◌*◌, ◌<◌, List, ℕ, [], ◌∷◌, ◌++◌, IfOk, IfErr, OnOk, length, take};
ghost use Rattle.std.specs.List.{All};
ghost use Rattle.sw_words.specs.Bytes.{IsBytes};
ghost use Rattle.sw_cauchy.specs.Share.{AreFragments};
ghost use Rattle.sw_cauchy.specs.Stripe.{fragment, fragment_width};

use crate::Code;
use crate::decode::Decoder;
use crate::rows::{push_matrix_times, push_row_times};
use std::alloc::Global;
use std::marker::Model;
use sw_types::{Bytes, NoMemory, Policy};

/// Fragments of one segment, up to k of them, from which the segment and every other fragment are decoded.
#[derive(Debug, Drop)]
pub struct Gather {
    code: Code,
    width: usize,
    indices: Vec<u32>,
    bytes: Vec<u8>,
    decoder: Decoder,
}

impl Model for Gather {
    ghost use Rattle.sw_cauchy.specs.Share.{GatherModel};

    ghost Value = { GatherModel };

    ghost use Rattle.sw_cauchy.specs.Gather.{gather_model, IsGather};

    ghost view = { gather_model };

    ghost invariant = { IsGather };
}

impl Gather {
    /// No fragment yet, with room for k of them, each of so many bytes.
    pub fn new(alloc: Global, code: Code, width: usize) -> Result<Gather, NoMemory>
        ensures { IfOk result (λ gather. gather ≡ record { k = code.k; m = code.m; width = width; shares = [] }) }
    {
        let count = code.k as usize;
        let length = count.checked_mul(width).ok_or(NoMemory)?;
        let indices = Vec::with_capacity(alloc, count)?;
        let bytes = Vec::with_capacity(alloc, length)?;
        let decoder = Decoder::new(alloc, code)?;
        Ok(Gather {
            code,
            width,
            indices,
            bytes,
            decoder,
        })
    }

    /// Begins anew, for fragments of so many bytes of another segment. Where memory is wanted, nothing changes.
    pub fn again(&mut self, width: usize) -> Result<(), NoMemory>
        ensures fresh { IfOk result (λ _. self.new ≡ record { k = self.old.k; m = self.old.m; width = width; shares = [] }) }
        ensures unchanged { IfErr result (λ _. self.new ≡ self.old) }
    {
        let count = self.code.k as usize;
        let length = count.checked_mul(width).ok_or(NoMemory)?;
        self.bytes.reserve(length.saturating_sub(self.bytes.len()))?;
        self.bytes.clear();
        self.indices.clear();
        self.width = width;
        Ok(())
    }

    /// Adds a fragment. It takes no memory.
    pub fn add(&mut self, index: u32, fragment: &[u8])
        requires below { index < self.old.k + self.old.m }
        requires new { All (λ share. share.index ≢ index) self.old.shares }
        requires width { length fragment.now ≡ self.old.width }
        requires room { length self.old.shares < self.old.k }
        ensures { self.new ≡ record self.old { shares = self.old.shares ++ record { index = index; bytes = fragment.now } ∷ [] } }
    {
        self.indices.push(index).unwrap();
        self.bytes.extend_from_slice(fragment).unwrap();
        self.decoder.follow(self.code, &self.indices);
    }

    /// The segment of so many bytes whose fragments were gathered.
    pub fn finish(&self, alloc: Global, segment_length: usize) -> Result<Bytes, NoMemory>
        requires enough { length self.now.shares ≡ self.now.k }
        requires fits { fragment_width self.now.k segment_length ≡ self.now.width }
        ensures length { IfOk result (λ segment. length segment ≡ segment_length) }
        ensures decoded { (pieces : List ℕ) → IsBytes pieces → length pieces ≡ self.now.k * self.now.width →
            AreFragments self.now.k self.now.width pieces self.now.shares →
            IfOk result (λ segment. segment ≡ take segment_length pieces) }
    {
        let mut segment = Vec::new(alloc);
        self.push_segment(&mut segment, segment_length)?;
        Ok(Bytes::from(segment))
    }

    /// Adds the segment of so many bytes whose fragments were gathered. At `Err` some of it may have been added.
    pub fn push_segment(&self, out: &mut Vec<u8>, segment_length: usize) -> Result<(), NoMemory>
        requires enough { length self.now.shares ≡ self.now.k }
        requires fits { fragment_width self.now.k segment_length ≡ self.now.width }
        ensures length { OnOk result (length out.new.items ≡ length out.old.items + segment_length) }
        ensures decoded { (pieces : List ℕ) → IsBytes pieces → length pieces ≡ self.now.k * self.now.width →
            AreFragments self.now.k self.now.width pieces self.now.shares →
            OnOk result (out.new.items ≡ out.old.items ++ take segment_length pieces) }
    {
        let k = self.code.k as usize;
        let start = out.len();
        out.reserve(self.bytes.len())?;
        push_matrix_times(out, k, &self.decoder.matrix, &self.bytes, self.width)?;
        out.truncate(start + segment_length);
        Ok(())
    }

    /// The fragment of an index, gathered or not.
    pub fn rebuild(&self, alloc: Global, index: u32) -> Result<Bytes, NoMemory>
        requires enough { length self.now.shares ≡ self.now.k }
        requires below { index < self.now.k + self.now.m }
        ensures length { IfOk result (λ bytes. length bytes ≡ self.now.width) }
        ensures decoded { (pieces : List ℕ) → IsBytes pieces → length pieces ≡ self.now.k * self.now.width →
            AreFragments self.now.k self.now.width pieces self.now.shares →
            IfOk result (λ bytes. bytes ≡ fragment self.now.k self.now.width pieces index) }
    {
        // The row that makes the fragment from the shares is that fragment of the matrix's rows.
        let mut room = [0; Policy::GREATEST_TOTAL as usize];
        let row = &mut room[..self.code.k as usize];
        self.code.write_fragment(row, &self.decoder.matrix, index);
        let mut fragment = Vec::new(alloc);
        push_row_times(&mut fragment, row, &self.bytes, self.width)?;
        Ok(Bytes::from(fragment))
    }
}
