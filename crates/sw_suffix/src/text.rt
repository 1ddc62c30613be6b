//! The hash of a suffix folder.

ghost use Rattle.std.specs.Prelude.{◌≡◌, ◌++◌, List, ℕ};
ghost use Rattle.md5.specs.Md5.{Holds, md5};
ghost use Rattle.hex.specs.Hex.{encode_lower};
ghost use Rattle.sw_suffix.specs.Suffix.{floor_line, kind_text, suffix_text};

use md5::{Digest, Md5};
use sw_hashdir::{Floor, FloorKind};
use sw_hashpath::Place;

/// The hash of a suffix folder: the MD5 of the lines of the floors in it. The line of a hash folder is the 32 digits of its
/// hash, a space, the text of its floor's stamp, `.data` or for a tombstone `.ts`, and a line feed. The lines are hashed in
/// the order in which the floors are given; the format wants them ascending by hash. It takes no memory.
pub fn suffix_hash(floors: &[(Place, Floor)]) -> [u8; 16]
    ensures { result ≡ md5 (suffix_text floors.now) }
{
    let mut hasher = Md5::new();
    for (place, floor) in floors {
        add_line(&mut hasher, place, floor);
    }
    hasher.finalize()
}

// Adds the line of a hash folder with this floor.
pub(crate) fn add_line(hasher: &mut Md5, place: &Place, floor: &Floor)
    ensures { (text : List ℕ) → Holds hasher.old text → Holds hasher.new (text ++ floor_line place.now floor.now) }
{
    hasher.update(digits_of(place.hash()));
    hasher.update(b" ");
    hasher.update(floor.stamp.print());
    hasher.update(ending_of(floor.kind));
    hasher.update(b"\n");
}

// The 32 digits of a hash.
fn digits_of(hash: [u8; 16]) -> [u8; 32]
    ensures { result ≡ encode_lower hash }
{
    let mut digits = [0; 32];
    hex::encode_to_slice(hash, &mut digits).unwrap();
    digits
}

// How the line of such a floor ends.
fn ending_of(kind: FloorKind) -> &'static [u8]
    ensures { result.now ≡ kind_text kind }
{
    match kind {
        FloorKind::Durable => b".data",
        FloorKind::Tombstone => b".ts",
    }
}
