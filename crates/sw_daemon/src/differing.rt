//! The suffixes at which other primaries differ from the own device.

ghost use Rattle.std.specs.Prelude.{◌≡◌, ℕ, OnErr, OnOk, filter};
ghost use Rattle.sw_suffix.specs.Suffix.{suffix_number};
ghost use Rattle.sw_daemon.specs.Comparing.{HasSuffix, MoreDiffer, has_suffix};

use std::alloc::Global;
use std::collections::VecDeque;
use std::marker::Model;
use sw_hashpath::Place;
use sw_suffix::differing;
use sw_types::NoMemory;

/// All suffixes, once some other primary has missed, and else those at which some other one differs.
#[derive(Debug, Drop)]
pub(crate) struct Differing {
    is_all: bool,
    suffixes: Vec<u16>,
}

impl Model for Differing {
    ghost use Rattle.sw_daemon.specs.Comparing.{Differing};
    ghost use Rattle.sw_daemon.specs.DifferingInside.{differing_seen};

    ghost Value = { Differing };

    ghost view = { differing_seen };
}

impl Differing {
    /// None.
    pub(crate) fn new(alloc: Global) -> Differing
        ensures { (suffix : ℕ) → HasSuffix result suffix → ⊥ }
    {
        Differing {
            is_all: false,
            suffixes: Vec::new(alloc),
        }
    }

    /// All, as a primary has missed.
    pub(crate) fn add_all(&mut self)
        ensures { (suffix : ℕ) → HasSuffix self.new suffix }
    {
        self.is_all = true;
    }

    /// Adds those at which another list differs from the own one.
    pub(crate) fn add(
        &mut self,
        alloc: Global,
        own: &[(u16, [u8; 16])],
        hashes: &[(u16, [u8; 16])],
    ) -> Result<(), NoMemory>
        ensures more { OnOk result (MoreDiffer self.old own.now hashes.now self.new) }
        ensures refused { OnErr result (self.new ≡ self.old) }
    {
        let more = differing(alloc, own, hashes)?;
        self.suffixes.extend_from_slice(&more)?;
        Ok(())
    }

    // Whether the suffix of a place is one of them.
    fn has(&self, place: &Place) -> bool
        ensures { result ≡ has_suffix self.now (suffix_number place.now.hash) }
    {
        self.is_all || self.suffixes.contains(&suffix_of(place))
    }
}

/// Keeps the places whose suffixes differ, in their order.
pub(crate) fn keep_differing(places: &mut VecDeque<Place>, differing: &Differing)
    ensures { places.new.items ≡ filter (λ place. has_suffix differing.now (suffix_number place.hash)) places.old.items }
{
    places.retain(|place| differing.has(place));
}

// The last three hexadecimal digits of a place's hash, as a number.
fn suffix_of(place: &Place) -> u16
    ensures { result ≡ suffix_number place.now.hash }
{
    let hash = place.hash();
    u16::from(hash[14] % 16) * 256 + u16::from(hash[15])
}
