//! Keys of floors.

ghost use Rattle.std.specs.Prelude.{◌≡◌};
ghost use Rattle.sw_suffix.specs.Entries.{key_of, key_place};

use sw_hashpath::Place;

/// Where a floor stands: by partition, then by suffix, then by hash.
#[derive(Clone, Copy, Debug, PartialEq, Eq, PartialOrd, Ord)]
pub(crate) struct Key {
    pub(crate) part: u32,
    pub(crate) suffix: u16,
    pub(crate) hash: [u8; 16],
}

impl Key {
    /// The key of a place.
    pub(crate) fn of(place: &Place) -> Key
        ensures { result ≡ key_of place.now }
    {
        let hash = place.hash();
        Key {
            part: place.part(),
            suffix: u16::from(hash[14] % 16) * 256 + u16::from(hash[15]),
            hash,
        }
    }

    /// The place of a key.
    pub(crate) fn place(&self) -> Place
        ensures { result ≡ key_place self.now }
    {
        Place::new(self.part, self.hash)
    }
}
