//! Archives, where they stand in bytes.

ghost use Rattle.std.specs.Prelude.{◌≡◌, ◌↔◌, IfOk, IsTrue, None};
ghost use Rattle.sw_types.specs.Name.{name_fault, path_of};
ghost use Rattle.sw_archive.specs.Archive.{IsSound};

use crate::archive::Archive;
use crate::head_text::HeadText;
use crate::path_text::PathText;
use std::alloc::Global;
use std::marker::Model;
use sw_types::{Bytes, Name, NoMemory, Stamp};

/// The archive that some bytes spell. It borrows from them, and took no memory; contracts see the archive.
#[derive(Debug, Drop)]
pub struct Spelled<'a> {
    pub(crate) k: u32,
    pub(crate) m: u32,
    pub(crate) index: u32,
    pub(crate) segment: u32,
    pub(crate) stamp: Stamp,
    pub(crate) body_length: u64,
    pub(crate) body_md5: [u8; 16],
    pub(crate) name: PathText<'a>,
    pub(crate) head: HeadText<'a>,
    pub(crate) payload: &'a [u8],
}

impl<'a> Model for Spelled<'a> {
    ghost use Rattle.sw_archive.specs.Archive.{ArchiveModel, IsSound};

    ghost Value = { ArchiveModel };

    ghost view = { λ a. record {
      k = a.k;
      m = a.m;
      index = a.index;
      segment = a.segment;
      stamp = a.stamp;
      body_length = a.body_length;
      body_md5 = a.body_md5;
      name = a.name;
      head = a.head;
      payload = a.payload.now;
    } };

    ghost invariant = { λ a. IsSound (record {
      k = a.k;
      m = a.m;
      index = a.index;
      segment = a.segment;
      stamp = a.stamp;
      body_length = a.body_length;
      body_md5 = a.body_md5;
      name = a.name;
      head = a.head;
      payload = a.payload.now;
    }) };
}

impl<'a> Spelled<'a> {
    /// How many data fragments a segment has.
    pub fn k(&self) -> u32
        ensures { result ≡ self.now.k }
    {
        self.k
    }

    /// How many parity fragments a segment has.
    pub fn m(&self) -> u32
        ensures { result ≡ self.now.m }
    {
        self.m
    }

    /// Which fragment of each segment the payload has.
    pub fn index(&self) -> u32
        ensures { result ≡ self.now.index }
    {
        self.index
    }

    /// The greatest number of bytes of a segment.
    pub fn segment(&self) -> u32
        ensures { result ≡ self.now.segment }
    {
        self.segment
    }

    /// When the object was put.
    pub fn stamp(&self) -> Stamp
        ensures { result ≡ self.now.stamp }
    {
        self.stamp
    }

    /// The path of the object's name.
    pub fn path(&self) -> &'a [u8]
        ensures path { result.now ≡ path_of self.now.name }
        ensures sound { name_fault self.now.name ≡ None }
    {
        self.name.path()
    }

    /// Whether the object has this name.
    pub fn is_named(&self, name: &Name) -> bool
        ensures { IsTrue result ↔ self.now.name ≡ name.now }
    {
        self.name.is_of(name)
    }

    /// The archive, which borrows no more from the bytes.
    pub fn archive(&self, alloc: Global) -> Result<Archive, NoMemory>
        ensures { IfOk result (λ archive. archive ≡ self.now) }
    {
        Ok(Archive {
            k: self.k,
            m: self.m,
            index: self.index,
            segment: self.segment,
            stamp: self.stamp,
            body_length: self.body_length,
            body_md5: self.body_md5,
            name: self.name.name(alloc)?,
            head: self.head.head(alloc)?,
            payload: Bytes::from_slice(alloc, self.payload)?,
        })
    }
}
