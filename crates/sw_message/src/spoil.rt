//! Why bytes are not the archive that was asked for.

ghost use Rattle.std.specs.Prelude.{◌≡◌};
ghost use Rattle.sw_message.specs.Spoil.{foreign_number};
ghost use Rattle.sw_message.specs.declared.spoil.Spoil.TheVariants.{Fault};

use sw_archive::ArchiveFault;

/// In what an archive differs from the one that was asked for: the first of these, in their order.
#[derive(Clone, Copy, Debug, PartialEq, Eq)]
pub enum Foreign {
    /// Its name, or the place of its name.
    Name,
    /// Its stamp.
    Stamp,
    /// Its index.
    Index,
    /// k, m or the segment.
    Code,
    /// It is of another object than the archives before it.
    Object,
}

impl Foreign {
    /// The number by which an answer names it, 1 to 5.
    pub fn number(self) -> u8
        ensures { result ≡ foreign_number self }
    {
        match self {
            Foreign::Name => 1,
            Foreign::Stamp => 2,
            Foreign::Index => 3,
            Foreign::Code => 4,
            Foreign::Object => 5,
        }
    }
}

/// Why bytes are not the archive that was asked for.
#[derive(Clone, Copy, Debug, PartialEq, Eq)]
pub enum Spoil {
    /// They are no archive.
    Fault(ArchiveFault),
    /// They are another one.
    Foreign(Foreign),
}

impl From<ArchiveFault> for Spoil {
    ghost from_gives = { λ fault spoil. spoil ≡ Fault fault };

    fn from(fault: ArchiveFault) -> Spoil {
        Spoil::Fault(fault)
    }
}
