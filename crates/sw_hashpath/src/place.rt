//! Places of names, and their folders.

ghost use Rattle.std.specs.Prelude.{◌≡◌, ◌≢◌, ◌≤◌, ◌<◌, ◌^◌, ◌∷◌, ◌++◌, ◌↔◌, ℕ, List, IfOk, IfSome, IsTrue, MatchOption, string_bytes};
ghost use Rattle.hex.specs.Hex.{encode_lower};
ghost use Rattle.sw_hashpath.specs.Place.{IsHash, IsPlace, PlaceModel, folder_of, hash_of, hash_of_path, place_of};

use md5::{Digest, Md5};
use std::alloc::Global;
use std::marker::Model;
use sw_types::{Name, NoMemory, is_decimal};

// Where the suffix begins in the digits of a hash.
const SUFFIX_START: usize = 29;

/// A partition and a hash. A message may carry a place that is wrong: its hash lies in another partition.
#[derive(Clone, Copy, Debug, PartialEq, Eq)]
pub struct Place {
    part: u32,
    hash: [u8; 16],
}

impl Model for Place {
    ghost use Rattle.sw_hashpath.specs.Place.{IsHash, PlaceModel};

    ghost Value = { PlaceModel };

    ghost view = { λ place. record { part = place.part; hash = place.hash } };

    ghost invariant = { λ place. IsHash place.hash };

    ghost inverse = { λ place. record { part = place.part; hash = place.hash } };
}

impl Place {
    /// This partition and this hash, right or not.
    pub fn new(part: u32, hash: [u8; 16]) -> Place
        ensures { result ≡ record { part = part; hash = hash } }
    {
        Place { part, hash }
    }

    /// The partition.
    pub fn part(&self) -> u32
        ensures { result ≡ self.now.part }
    {
        self.part
    }

    /// The hash.
    pub fn hash(&self) -> [u8; 16]
        ensures value { result ≡ self.now.hash }
        ensures sound { IsHash self.now.hash }
    {
        self.hash
    }

    /// The text of its folder, `objects/PART/SUFFIX/HASH`: the suffix is the last three of the hash's 32 digits.
    #[tactic(auto, using(crate::proofs::Hashes::digit_bytes))]
    pub fn folder(&self, alloc: Global) -> Result<String, NoMemory>
        ensures { IfOk result (λ text. string_bytes text ≡ folder_of self.now) }
    {
        let digits = hex::encode(alloc, self.hash)?;
        let suffix = &digits[SUFFIX_START..];
        let text = format!(in alloc; "objects/{}/{}/{}", self.part, suffix, digits)?;
        Ok(text)
    }

    // Whether a text is its folder.
    fn has_folder(&self, text: &[u8]) -> bool
        ensures { IsTrue result ↔ text.now ≡ folder_of self.now }
    {
        let digits = digits_of(&self.hash);
        let Some(rest) = text.strip_prefix(b"objects/") else {
            return false;
        };
        let Some(rest) = front_of(rest, &digits) else {
            return false;
        };
        let Some(part) = front_of(rest, &digits[SUFFIX_START..]) else {
            return false;
        };
        is_decimal(part, u64::from(self.part))
    }
}

/// The place of a hash among 2^power partitions. It takes no memory.
pub fn place_of(hash: [u8; 16], power: u32) -> Place
    requires { power ≤ 16 }
    ensures place { result ≡ place_of hash power }
    ensures right { IsPlace power result }
    ensures below { result.part < 2 ^ power }
{
    let front = u32::from_be_bytes([hash[0], hash[1], hash[2], hash[3]]);
    let part = (u64::from(front) >> (32 - power)) as u32;
    Place { part, hash }
}

/// The place of a name: its path is hashed between a prefix and a suffix.
pub fn place_name(
    alloc: Global,
    name: &Name,
    prefix: &[u8],
    suffix: &[u8],
    power: u32,
) -> Result<Place, NoMemory>
    requires { power ≤ 16 }
    ensures place { IfOk result (λ place. place ≡ place_of (hash_of name.now prefix.now suffix.now) power) }
    ensures right { IfOk result (λ place. IsPlace power place) }
    ensures below { IfOk result (λ place. place.part < 2 ^ power) }
{
    let path = name.path(alloc)?;
    Ok(place_path(path.as_slice(), prefix, suffix, power))
}

/// The place of a path, which is hashed between a prefix and a suffix. It takes no memory.
pub fn place_path(path: &[u8], prefix: &[u8], suffix: &[u8], power: u32) -> Place
    requires { power ≤ 16 }
    ensures place { result ≡ place_of (hash_of_path path.now prefix.now suffix.now) power }
    ensures right { IsPlace power result }
    ensures below { result.part < 2 ^ power }
{
    let mut hasher = Md5::new();
    hasher.update(prefix);
    hasher.update(path);
    hasher.update(suffix);
    place_of(hasher.finalize(), power)
}

/// The place whose folder this is, if it is one: the text is exactly what `folder` prints, and the partition is that of
/// the hash. What `folder` prints is read back.
pub fn read_folder(text: &str, power: u32) -> Option<Place>
    requires { power ≤ 16 }
    ensures found { IfSome result (λ place. (text.now ≡ folder_of place) × IsPlace power place) }
    ensures reads { (place : PlaceModel) → IsPlace power place → text.now ≡ folder_of place → result ≡ Some place }
{
    let text = text.as_bytes();
    let place = place_of(last_hash(text)?, power);
    if place.has_folder(text) {
        Some(place)
    } else {
        None
    }
}

// The 32 digits of a hash.
fn digits_of(hash: &[u8; 16]) -> [u8; 32]
    ensures { result ≡ encode_lower hash.now }
{
    let mut digits = [0; 32];
    hex::encode_to_slice(hash, &mut digits).unwrap();
    digits
}

// The hash that the last 32 bytes of a text spell, if they do.
fn last_hash(text: &[u8]) -> Option<[u8; 16]>
    ensures { (front hash : List ℕ) → IsHash hash → text.now ≡ front ++ encode_lower hash → result ≡ Some hash }
{
    let digits = text.last_chunk::<32>()?;
    let mut hash = [0; 16];
    hex::decode_to_slice(digits, &mut hash).ok()?;
    Some(hash)
}

// What stands before a slash and a last part, where a text ends so.
fn front_of<'a>(text: &'a [u8], last: &[u8]) -> Option<&'a [u8]>
    ensures { MatchOption result ((front : List ℕ) → text.now ≢ front ++ 47 ∷ last.now) (λ front. text.now ≡ front.now ++ 47 ∷ last.now) }
{
    text.strip_suffix(last)?.strip_suffix(b"/")
}
