//! What an archive tells of its payload.

ghost use Rattle.std.specs.Prelude.{◌≡◌, ◌+◌, ◌<◌, ◌≤◌, ◌++◌, List, ℕ, IfOk, length};
ghost use Rattle.md5.specs.Md5.{md5};
ghost use Rattle.sw_types.specs.Object.{greatest_body};
ghost use Rattle.sw_archive.specs.Archive.{label_bytes, payload_length};
ghost use Rattle.sw_archive.specs.Label.{header_told, labelled};

use crate::archive_bytes::ArchiveBytes;
use crate::header::Header;
use crate::parts::head_bytes;
use crate::payload::payload_length;
use md5::{Digest, Md5};
use std::alloc::Global;
use sw_cauchy::Code;
use sw_types::{Bytes, Head, Name, NoMemory, Stamp};

/// All that an archive tells but the payload itself.
#[derive(Debug, Drop)]
pub(crate) struct Label<'a> {
    pub(crate) code: Code,
    pub(crate) index: u32,
    pub(crate) segment: u32,
    pub(crate) stamp: Stamp,
    pub(crate) body_length: usize,
    pub(crate) body_md5: [u8; 16],
    pub(crate) name: &'a Name,
    pub(crate) head: &'a Head,
}

impl Label<'_> {
    /// The bytes of an archive before its payload, with room for so many more.
    pub(crate) fn open(&self, alloc: Global, room: usize) -> Result<Vec<u8>, NoMemory>
        requires some { 0 < self.now.segment }
        requires index { self.now.index < self.now.code.k + self.now.code.m }
        requires within { self.now.body_length ≤ greatest_body }
        ensures { (payload : List ℕ) → length payload ≡ payload_length self.now.code.k self.now.segment self.now.body_length →
            IfOk result (λ bytes. bytes.items ≡ label_bytes (labelled self.now payload)) }
    {
        let path = self.name.path(alloc)?;
        let head = head_bytes(alloc, self.head)?;
        let header = self.header(path.len() as u16, head.len() as u16);
        let length = 52 + usize::from(header.path_length) + usize::from(header.head_length);
        let mut bytes = Vec::with_capacity(alloc, length.saturating_add(room))?;
        header.write(&mut bytes)?;
        bytes.extend_from_slice(path.as_slice())?;
        bytes.extend_from_slice(&head)?;
        Ok(bytes)
    }

    // The header, where the path and the head have so many bytes.
    fn header(&self, path_length: u16, head_length: u16) -> Header
        requires some { 0 < self.now.segment }
        requires index { self.now.index < self.now.code.k + self.now.code.m }
        requires within { self.now.body_length ≤ greatest_body }
        ensures { result ≡ header_told self.now path_length head_length }
    {
        let length = payload_length(self.code, self.segment as usize, self.body_length);
        Header {
            magic: *b"ECFA",
            version: 1,
            k: self.code.k as u8,
            m: self.code.m as u8,
            index: self.index as u8,
            segment: self.segment,
            stamp: self.stamp.units(),
            body_length: self.body_length as u64,
            body_md5: self.body_md5,
            path_length,
            head_length,
            payload_length: length as u32,
        }
    }
}

/// The bytes, and their MD5 behind them.
pub(crate) fn seal(bytes: Vec<u8>) -> Result<ArchiveBytes, NoMemory>
    ensures { IfOk result (λ sealed. sealed ≡ bytes.items ++ md5 bytes.items) }
{
    let digest = Md5::digest(bytes.as_slice());
    seal_with(bytes, digest)
}

/// The same, where their MD5 is known.
pub(crate) fn seal_with(mut bytes: Vec<u8>, digest: [u8; 16]) -> Result<ArchiveBytes, NoMemory>
    requires { digest ≡ md5 bytes.items }
    ensures { IfOk result (λ sealed. sealed ≡ bytes.items ++ md5 bytes.items) }
{
    bytes.extend_from_slice(&digest)?;
    Ok(ArchiveBytes::sealed(Bytes::from(bytes)))
}
