//! Archives, as they are read.

ghost use Rattle.std.specs.Prelude.{◌≡◌};
ghost use Rattle.sw_archive.specs.Archive.{IsSound};
ghost use Rattle.sw_archive.specs.Alike.{are_alike, head_eq};

use std::alloc::AllocError;
use std::marker::Model;
use sw_cauchy::Code;
use sw_types::{Bytes, Head, Name, Stamp};

/// The archive of one index of an object: its fragments, one of each segment, and what tells whose they are. It owns its
/// payload, so it does not borrow from the bytes that it was read from.
#[derive(Debug, Drop)]
pub struct Archive {
    pub(crate) k: u32,
    pub(crate) m: u32,
    pub(crate) index: u32,
    pub(crate) segment: u32,
    pub(crate) stamp: Stamp,
    pub(crate) body_length: u64,
    pub(crate) body_md5: [u8; 16],
    pub(crate) name: Name,
    pub(crate) head: Head,
    pub(crate) payload: Bytes,
}

impl Model for Archive {
    ghost use Rattle.sw_archive.specs.Archive.{ArchiveModel, IsSound};

    ghost Value = { ArchiveModel };

    ghost view = { λ a. record {
      k = a.k;
      m = a.m;
      index = a.index;
      segment = a.segment;
      stamp = a.stamp;
      body_length = a.body_length;
      body_md5 = a.body_md5;
      name = a.name;
      head = a.head;
      payload = a.payload;
    } };

    ghost invariant = { λ a. IsSound (record {
      k = a.k;
      m = a.m;
      index = a.index;
      segment = a.segment;
      stamp = a.stamp;
      body_length = a.body_length;
      body_md5 = a.body_md5;
      name = a.name;
      head = a.head;
      payload = a.payload;
    }) };
}

impl Archive {
    /// How many data fragments a segment has.
    pub fn k(&self) -> u32
        ensures { result ≡ self.now.k }
    {
        self.k
    }

    /// How many parity fragments a segment has.
    pub fn m(&self) -> u32
        ensures { result ≡ self.now.m }
    {
        self.m
    }

    /// Which fragment of each segment the payload has.
    pub fn index(&self) -> u32
        ensures { result ≡ self.now.index }
    {
        self.index
    }

    /// The greatest number of bytes of a segment.
    pub fn segment(&self) -> u32
        ensures { result ≡ self.now.segment }
    {
        self.segment
    }

    /// When the object was put.
    pub fn stamp(&self) -> Stamp
        ensures { result ≡ self.now.stamp }
    {
        self.stamp
    }

    /// How many bytes the object's body has.
    pub fn body_length(&self) -> u64
        ensures { result ≡ self.now.body_length }
    {
        self.body_length
    }

    /// The MD5 of the object's body.
    pub fn body_md5(&self) -> [u8; 16]
        ensures { result ≡ self.now.body_md5 }
    {
        self.body_md5
    }

    /// The object's name.
    pub fn name(&self) -> &Name
        ensures { result.now ≡ self.now.name }
    {
        &self.name
    }

    /// The object's head.
    pub fn head(&self) -> &Head
        ensures { result.now ≡ self.now.head }
    {
        &self.head
    }

    /// The fragments of all segments, joined.
    pub fn payload(&self) -> &[u8]
        ensures payload { result.now ≡ self.now.payload }
        ensures sound { IsSound self.now }
    {
        self.payload.as_slice()
    }

    /// The code of its segments.
    pub(crate) fn code(&self) -> Code
        ensures k { result.k ≡ self.now.k }
        ensures m { result.m ≡ self.now.m }
        ensures sound { IsSound self.now }
    {
        Code::new(self.k, self.m)
    }

    /// Whether two archives are alike but for index and payload.
    pub(crate) fn is_alike(&self, other: &Archive) -> bool
        ensures { result ≡ are_alike self.now other.now }
    {
        self.k == other.k
            && self.m == other.m
            && self.segment == other.segment
            && self.stamp == other.stamp
            && self.body_length == other.body_length
            && self.body_md5 == other.body_md5
            && self.name == other.name
            && are_equal(&self.head, &other.head)
    }
}

// Whether two heads have the same content type and pairs.
fn are_equal(a: &Head, b: &Head) -> bool
    ensures { result ≡ head_eq a.now b.now }
{
    a.content_type() == b.content_type() && a.pairs() == b.pairs()
}

impl Clone for Archive {
    ghost is_clone = { λ archive copy. copy ≡ archive };

    fn clone(&self) -> Result<Archive, AllocError> {
        let name = self.name.clone()?;
        let head = self.head.clone()?;
        let payload = self.payload.clone()?;
        Ok(Archive {
            k: self.k,
            m: self.m,
            index: self.index,
            segment: self.segment,
            stamp: self.stamp,
            body_length: self.body_length,
            body_md5: self.body_md5,
            name,
            head,
            payload,
        })
    }
}
