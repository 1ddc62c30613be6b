//! Names of the files of a folder.

ghost use Rattle.std.specs.Prelude.{◌≡◌, ◌<◌, ◌∷◌, ◌++◌, ℕ, Bool, IfOk, IfSome, Some, codes, string_bytes};
ghost use Rattle.std.specs.Fmt.{decimal};
ghost use Rattle.sw_types.specs.Policy.{greatest_total};
ghost use Rattle.sw_types.specs.Stamp.{stamp_text};
ghost use Rattle.sw_hashpath.specs.FileName.{IsFileName, ending, file_name_text};
ghost use Rattle.sw_hashpath.specs.declared.file_name.FileName.TheVariants.{Data, Tombstone};

use std::alloc::Global;
use sw_types::{NoMemory, Policy, Stamp, read_decimal};

/// The name of a file in a folder: that of an archive, durable or not, or that of a tombstone.
#[derive(Clone, Copy, Debug, PartialEq, Eq)]
pub enum FileName {
    /// The archive of an index below 32, at a stamp: `1000000000.00000#3.data`, and `1000000000.00000#3#d.data` where it is
    /// durable.
    Data {
        stamp: Stamp,
        index: u32,
        durable: bool,
    },
    /// A tombstone: `1000000000.00000.ts`.
    Tombstone {
        stamp: Stamp,
    },
}

impl FileName {
    /// Its text.
    pub fn print(&self, alloc: Global) -> Result<String, NoMemory>
        requires { IsFileName self.now }
        ensures { IfOk result (λ text. string_bytes text ≡ file_name_text self.now) }
    {
        match self {
            FileName::Data {
                stamp,
                index,
                durable,
            } => {
                let ending = if *durable { "#d.data" } else { ".data" };
                Ok(format!(in alloc; "{}#{}{}", stamp, index, ending)?)
            }
            FileName::Tombstone { stamp } => Ok(format!(in alloc; "{}.ts", stamp)?),
        }
    }

    /// The name whose text this is, if it is one. What `print` prints is read back, and no other text is read.
    pub fn read(text: &str) -> Option<FileName>
        ensures found { IfSome result (λ name. IsFileName name) }
        ensures text { IfSome result (λ name. text.now ≡ file_name_text name) }
        ensures reads { (name : FileName) → IsFileName name → text.now ≡ file_name_text name → result ≡ Some name }
    {
        let (stamp, rest) = text.as_bytes().split_at_checked(16)?;
        name_at(Stamp::read(stamp)?, rest)
    }
}

// The name of a file at a stamp, by what stands behind the stamp.
fn name_at(stamp: Stamp, rest: &[u8]) -> Option<FileName>
    ensures found { IfSome result (λ name. IsFileName name) }
    ensures text { IfSome result (λ name. stamp_text stamp ++ rest.now ≡ file_name_text name) }
    ensures data { (index : ℕ) (durable : Bool) → index < greatest_total → rest.now ≡ 35 ∷ decimal index ++ ending durable → result ≡ Some (Data stamp index durable) }
    ensures tombstone { rest.now ≡ codes ".ts" → result ≡ Some (Tombstone stamp) }
{
    if rest == b".ts".as_slice() {
        return Some(FileName::Tombstone { stamp });
    }
    let (index, durable) = index_of(rest)?;
    Some(FileName::Data {
        stamp,
        index,
        durable,
    })
}

// The index that stands behind a stamp, and whether the archive is durable.
fn index_of(rest: &[u8]) -> Option<(u32, bool)>
    ensures found { IfSome result (λ found. (found.0 < greatest_total) × (rest.now ≡ 35 ∷ decimal found.0 ++ ending found.1)) }
    ensures reads { (index : ℕ) (durable : Bool) → index < greatest_total → rest.now ≡ 35 ∷ decimal index ++ ending durable → result ≡ Some (index, durable) }
{
    let rest = rest.strip_prefix(b"#")?.strip_suffix(b".data")?;
    let (digits, durable) = match rest.strip_suffix(b"#d") {
        Some(digits) => (digits, true),
        None => (rest, false),
    };
    Some((fragment_of(digits)?, durable))
}

// The index of a fragment whose decimal this is, if it is one.
fn fragment_of(digits: &[u8]) -> Option<u32>
    ensures found { IfSome result (λ index. (index < greatest_total) × (digits.now ≡ decimal index)) }
    ensures reads { (index : ℕ) → index < greatest_total → digits.now ≡ decimal index → result ≡ Some index }
{
    let index = read_decimal(digits)?;
    if index < u64::from(Policy::GREATEST_TOTAL) {
        Some(index as u32)
    } else {
        None
    }
}
