//! Why bytes are no archive.

ghost use Rattle.std.specs.Prelude.{◌≡◌};
ghost use Rattle.sw_archive.specs.declared.fault.ArchiveFault.TheVariants.{NoMemory as WantOfMemory};

use sw_types::NoMemory;
use thiserror::Error;

/// A field of an archive that is out of its bounds.
#[derive(Clone, Copy, Debug, PartialEq, Eq)]
pub enum ArchiveField {
    /// k, m and the segment are not those of a policy, or the index is not below k + m.
    Code,
    /// The timestamp is above the greatest.
    Stamp,
    /// The length of the body is above 16,777,216 bytes.
    BodyLength,
    /// The path is not that of a name.
    Name,
    /// The head is not that of an object.
    Head,
    /// The payload has not the length of one of such a body.
    Payload,
}

impl ArchiveField {
    ghost use Rattle.sw_archive.specs.Fault.{archive_field_number};

    /// The number by which an answer names this field, 1 to 6.
    pub fn number(self) -> u8
        ensures { result ≡ archive_field_number self }
    {
        match self {
            ArchiveField::Code => 1,
            ArchiveField::Stamp => 2,
            ArchiveField::BodyLength => 3,
            ArchiveField::Name => 4,
            ArchiveField::Head => 5,
            ArchiveField::Payload => 6,
        }
    }
}

/// Why bytes are no archive: the first fault, in the order of the variants.
#[derive(Clone, Copy, Debug, PartialEq, Eq, Error)]
pub enum ArchiveFault {
    /// Fewer than the 68 bytes of a header and an MD5 were found.
    #[error("{found} bytes are too short for an archive")]
    Short {
        found: usize,
    },
    #[error("another format")]
    BadMagic,
    /// The version is not 1.
    #[error("version {version}")]
    BadVersion {
        version: u8,
    },
    /// The header tells another length than was found.
    #[error("{found} bytes where {told} are told")]
    BadLength {
        told: usize,
        found: usize,
    },
    /// The MD5 at the end is not that of the bytes before it.
    #[error("damaged")]
    Damaged {
        stored: [u8; 16],
        computed: [u8; 16],
    },
    #[error("a field out of its bounds")]
    BadField(ArchiveField),
    #[error("out of memory")]
    NoMemory,
}

impl ArchiveFault {
    ghost use Rattle.sw_archive.specs.Fault.{archive_fault_number};

    /// The number by which an answer names this fault: 0 for want of memory, and 1 to 6 for what is wrong with the bytes.
    pub fn number(self) -> u8
        ensures { result ≡ archive_fault_number self }
    {
        match self {
            ArchiveFault::NoMemory => 0,
            ArchiveFault::Short { .. } => 1,
            ArchiveFault::BadMagic => 2,
            ArchiveFault::BadVersion { .. } => 3,
            ArchiveFault::BadLength { .. } => 4,
            ArchiveFault::Damaged { .. } => 5,
            ArchiveFault::BadField(_) => 6,
        }
    }
}

impl From<NoMemory> for ArchiveFault {
    ghost from_gives = { λ _ fault. fault ≡ WantOfMemory };

    fn from(_refused: NoMemory) -> ArchiveFault {
        ArchiveFault::NoMemory
    }
}
