//! Archives are read.

ghost use Rattle.std.specs.Prelude.{◌≡◌, ◌≢◌, ◌≤◌, ◌+◌, length, Err, IfErr, IfOk, IsTrue, MatchOption, MatchResult, Ok};
ghost use Rattle.md5.specs.Md5.{md5};
ghost use Rattle.sw_words.specs.Memory.{UnlessMemory};
ghost use Rattle.sw_archive.specs.Archive.{ArchiveModel, IsArchive};
ghost use Rattle.sw_archive.specs.Fault.{IsFault, IsLateFault, IsSealed, before_md5, early_fault, is_code, last_md5, number_fault};
ghost use Rattle.sw_archive.specs.Header.{told_length};
ghost use Rattle.sw_archive.specs.Reading.{AreNumbers, IsReadBehind};

use crate::archive::Archive;
use crate::fault::{ArchiveFault, ArchiveField};
use crate::head_text::HeadText;
use crate::header::{Header, sixteen};
use crate::path_text::PathText;
use crate::payload::payload_length;
use crate::spelled::Spelled;
use md5::{Digest, Md5};
use std::alloc::Global;
use sw_types::{Object, Policy, Stamp};

/// The archive that the bytes spell, or their first fault. Bytes past the end are a fault. It takes memory, and may
/// answer `NoMemory`, only where there is no fault.
pub fn read_archive(alloc: Global, bytes: &[u8]) -> Result<Archive, ArchiveFault>
    ensures found { IfOk result (λ archive. IsArchive bytes.now archive) }
    ensures reads { (archive : ArchiveModel) → IsArchive bytes.now archive → UnlessMemory (Err ArchiveFault.NoMemory) result (result ≡ Ok archive) }
    ensures fault { IfErr result (λ fault. UnlessMemory ArchiveFault.NoMemory fault (IsFault bytes.now fault)) }
    ensures refused { (fault : ArchiveFault) → IsFault bytes.now fault → result ≡ Err fault }
    ensures memory { result ≡ Err ArchiveFault.NoMemory → (archive : ArchiveModel) × IsArchive bytes.now archive }
{
    let spelled = check_archive(bytes)?;
    let archive = spelled.archive(alloc)?;
    Ok(archive)
}

/// The archive that the bytes spell, where they stand, or their first fault. It takes no memory.
pub fn check_archive(bytes: &[u8]) -> Result<Spelled<'_>, ArchiveFault>
    ensures found { IfOk result (λ archive. IsArchive bytes.now archive) }
    ensures reads { (archive : ArchiveModel) → IsArchive bytes.now archive → result ≡ Ok archive }
    ensures fault { IfErr result (λ fault. IsFault bytes.now fault × (fault ≢ ArchiveFault.NoMemory)) }
    ensures refused { (fault : ArchiveFault) → IsFault bytes.now fault → result ≡ Err fault }
{
    check_noted(bytes, false)
}

/// The same, where it is known whether they end with the MD5 of those before.
pub(crate) fn check_noted(bytes: &[u8], is_sealed: bool) -> Result<Spelled<'_>, ArchiveFault>
    requires sealed { IsTrue is_sealed → IsSealed bytes.now }
    ensures found { IfOk result (λ archive. IsArchive bytes.now archive) }
    ensures reads { (archive : ArchiveModel) → IsArchive bytes.now archive → result ≡ Ok archive }
    ensures fault { IfErr result (λ fault. IsFault bytes.now fault × (fault ≢ ArchiveFault.NoMemory)) }
    ensures refused { (fault : ArchiveFault) → IsFault bytes.now fault → result ≡ Err fault }
{
    check_fields(bytes, is_sealed)
}

// The same, field by field.
fn check_fields(bytes: &[u8], is_sealed: bool) -> Result<Spelled<'_>, ArchiveFault>
    requires sealed { IsTrue is_sealed → IsSealed bytes.now }
    ensures { MatchResult result (λ archive. IsArchive bytes.now archive) (λ fault. IsFault bytes.now fault) }
{
    if bytes.len() < 68 {
        return Err(ArchiveFault::Short { found: bytes.len() });
    }
    let (header, rest) = Header::read(bytes);
    if let Some(fault) = header.early_fault(bytes, is_sealed) {
        return Err(fault);
    }
    check_behind(&header, rest)
}

impl Header {
    // The first fault that the header and the last MD5 tell.
    fn early_fault(&self, bytes: &[u8], is_sealed: bool) -> Option<ArchiveFault>
        requires long { 16 ≤ length bytes.now }
        requires sealed { IsTrue is_sealed → IsSealed bytes.now }
        ensures { result ≡ early_fault bytes.now self.now }
    {
        if self.magic != *b"ECFA" {
            return Some(ArchiveFault::BadMagic);
        }
        if self.version != 1 {
            return Some(ArchiveFault::BadVersion {
                version: self.version,
            });
        }
        let told = self.told_length();
        if told != bytes.len() {
            return Some(ArchiveFault::BadLength {
                told,
                found: bytes.len(),
            });
        }
        if !is_sealed {
            if let Some(fault) = seal_fault(bytes) {
                return Some(fault);
            }
        }
        self.number_fault()
    }

    // The first number that is out of its bounds.
    fn number_fault(&self) -> Option<ArchiveFault>
        ensures { result ≡ number_fault self.now }
    {
        if !(self.is_code() && u32::from(self.index) < u32::from(self.k) + u32::from(self.m)) {
            return Some(ArchiveFault::BadField(ArchiveField::Code));
        }
        if self.stamp > Stamp::GREATEST_UNITS {
            return Some(ArchiveFault::BadField(ArchiveField::Stamp));
        }
        if self.body_length > Object::GREATEST_BODY as u64 {
            return Some(ArchiveFault::BadField(ArchiveField::BodyLength));
        }
        None
    }

    // Whether the numbers are those of a code and its segment.
    fn is_code(&self) -> bool
        ensures { result ≡ is_code self.now.k self.now.m self.now.segment }
    {
        let k = u32::from(self.k);
        Policy::make(k, u32::from(self.m), k, k, self.segment).is_ok()
    }
}

// The fault that the last MD5 tells.
fn seal_fault(bytes: &[u8]) -> Option<ArchiveFault>
    requires { 16 ≤ length bytes.now }
    ensures { MatchOption result (IsSealed bytes.now)
        (λ fault. (fault ≡ ArchiveFault.Damaged (last_md5 bytes.now) (md5 (before_md5 bytes.now))) × (last_md5 bytes.now ≢ md5 (before_md5 bytes.now))) }
{
    let (checked, stored) = bytes.split_at(bytes.len() - 16);
    let computed = Md5::digest(checked);
    if stored == computed.as_slice() {
        return None;
    }
    Some(ArchiveFault::Damaged {
        stored: sixteen(stored),
        computed,
    })
}

// What stands behind a header without a fault.
fn check_behind<'a>(header: &Header, rest: &'a [u8]) -> Result<Spelled<'a>, ArchiveFault>
    requires length { length rest.now + 52 ≡ told_length header.now }
    requires numbers { AreNumbers header.now }
    ensures { MatchResult result (λ archive. IsReadBehind header.now rest.now archive) (λ fault. IsLateFault header.now rest.now fault) }
{
    let (path, tail) = rest.split_at(usize::from(header.path_length));
    let (head, tail) = tail.split_at(usize::from(header.head_length));
    let (payload, _md5) = tail.split_at(header.payload_length as usize);
    let Some(name) = PathText::read(path) else {
        return Err(ArchiveFault::BadField(ArchiveField::Name));
    };
    let Some(head) = HeadText::read(head) else {
        return Err(ArchiveFault::BadField(ArchiveField::Head));
    };
    let length = payload_length(
        header.code(),
        header.segment as usize,
        header.body_length as usize,
    );
    if header.payload_length as usize != length {
        return Err(ArchiveFault::BadField(ArchiveField::Payload));
    }
    let Some(stamp) = Stamp::make(header.stamp) else {
        return Err(ArchiveFault::BadField(ArchiveField::Stamp));
    };
    Ok(Spelled {
        k: u32::from(header.k),
        m: u32::from(header.m),
        index: u32::from(header.index),
        segment: header.segment,
        stamp,
        body_length: header.body_length,
        body_md5: header.body_md5,
        name,
        head,
        payload,
    })
}
