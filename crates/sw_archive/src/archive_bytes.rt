//! The bytes of archives as they are handed on.

ghost use Rattle.std.specs.Prelude.{◌≡◌, ◌≢◌, ◌==◌, Err, IfErr, IfOk, Ok, length};
ghost use Rattle.sw_archive.specs.Archive.{ArchiveModel, IsArchive};
ghost use Rattle.sw_archive.specs.Fault.{IsFault, IsSealed};

use crate::fault::ArchiveFault;
use crate::reading::check_noted;
use crate::spelled::Spelled;
use std::alloc::AllocError;
use std::marker::Model;
use sw_types::Bytes;

/// Bytes that are an archive's, or stand in its place. Beside them stands whether they are known to end with the MD5 of those before, so that
/// nobody computes it again who reads them; contracts see the bytes alone.
#[derive(Debug, Drop)]
pub struct ArchiveBytes {
    bytes: Bytes,
    is_sealed: bool,
}

impl Model for ArchiveBytes {
    ghost use Rattle.std.specs.Prelude.{◌≡◌, List, true, ℕ};
    ghost use Rattle.sw_archive.specs.Fault.{IsSealed};

    ghost Value = { List ℕ };

    ghost view = { λ it. it.bytes };

    ghost invariant = { λ it. it.is_sealed ≡ true → IsSealed it.bytes };
}

impl ArchiveBytes {
    /// Bytes of which nothing is known.
    pub fn new(bytes: Bytes) -> ArchiveBytes
        ensures { result ≡ bytes }
    {
        ArchiveBytes {
            bytes,
            is_sealed: false,
        }
    }

    /// Bytes that end with the MD5 of those before.
    pub(crate) fn sealed(bytes: Bytes) -> ArchiveBytes
        requires { IsSealed bytes }
        ensures { result ≡ bytes }
    {
        ArchiveBytes {
            bytes,
            is_sealed: true,
        }
    }

    /// The same bytes, which were checked: they are an archive's.
    pub fn into_checked(self) -> ArchiveBytes
        requires { (archive : ArchiveModel) × IsArchive self archive }
        ensures { result ≡ self }
    {
        ArchiveBytes::sealed(self.bytes)
    }

    /// The bytes alone.
    pub fn into_bytes(self) -> Bytes
        ensures { result ≡ self }
    {
        self.bytes
    }

    /// The bytes.
    pub fn as_slice(&self) -> &[u8]
        ensures { result.now ≡ self.now }
    {
        self.bytes.as_slice()
    }

    /// How many bytes there are.
    pub fn len(&self) -> usize
        ensures { result ≡ length self.now }
    {
        self.bytes.len()
    }

    /// Whether there are no bytes.
    pub fn is_empty(&self) -> bool
        ensures { result ≡ (length self.now == 0) }
    {
        self.bytes.is_empty()
    }

    /// The archive that the bytes spell, where they stand, or their first fault. It takes no memory.
    pub fn check(&self) -> Result<Spelled<'_>, ArchiveFault>
        ensures found { IfOk result (λ archive. IsArchive self.now archive) }
        ensures reads { (archive : ArchiveModel) → IsArchive self.now archive → result ≡ Ok archive }
        ensures fault { IfErr result (λ fault. IsFault self.now fault × (fault ≢ ArchiveFault.NoMemory)) }
        ensures refused { (fault : ArchiveFault) → IsFault self.now fault → result ≡ Err fault }
    {
        check_noted(self.bytes.as_slice(), self.is_sealed)
    }
}

impl Clone for ArchiveBytes {
    ghost is_clone = { λ it copy. copy ≡ it };

    fn clone(&self) -> Result<ArchiveBytes, AllocError> {
        let bytes = self.bytes.clone()?;
        Ok(ArchiveBytes {
            bytes,
            is_sealed: self.is_sealed,
        })
    }
}
