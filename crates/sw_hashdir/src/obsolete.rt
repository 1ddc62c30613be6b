//! Names that are obsolete.

ghost use Rattle.std.specs.Prelude.{◌≡◌, ◌≢◌, ◌↔◌, Contains, IfOk, IsTrue, MatchOption, map, string_bytes};
ghost use Rattle.std.specs.List.{All, AllPairs};
ghost use Rattle.sw_hashpath.specs.FileName.{IsFileName, file_name_text};
ghost use Rattle.sw_hashpath.specs.declared.file_name.FileName.{FileName as AFileName};
ghost use Rattle.sw_hashdir.specs.Directory.{IsFloor};
ghost use Rattle.sw_hashdir.specs.Listing.{IsTextBefore};
ghost use Rattle.sw_hashdir.specs.Obsolete.{IsBelow, IsObsolete, IsTwin};
ghost use Rattle.sw_hashdir.specs.Order.{Ascend};

use crate::directory::HashDir;
use crate::floor::Floor;
use crate::order::has;
use std::alloc::Global;
use sw_hashpath::FileName;
use sw_types::NoMemory;

impl HashDir {
    /// The names that are obsolete at a primary, or at a handoff, ascending as texts.
    pub fn obsolete(&self, alloc: Global, is_primary: bool) -> Result<Vec<FileName>, NoMemory>
        ensures names { IfOk result (λ names. (name : AFileName) → Contains names.items name ↔ IsObsolete is_primary self.now name) }
        ensures ascend { IfOk result (λ names. AllPairs IsTextBefore names.items) }
        ensures named { IfOk result (λ names. (name : AFileName) → Contains names.items name → IsFileName name) }
    {
        let floor = self.floor();
        let mut names = Vec::new(alloc);
        for name in &self.names {
            if is_obsolete(&self.names, &floor, is_primary, name) {
                names.push(*name)?;
            }
        }
        in_order(alloc, &names)
    }
}

// Whether one of the names is obsolete at this role.
fn is_obsolete(names: &[FileName], floor: &Option<Floor>, is_primary: bool, name: &FileName) -> bool
    requires ascend { Ascend names.now }
    requires name { Contains names.now name.now }
    requires floor { IsFloor names.now floor.now }
    ensures { IsTrue result ↔ IsObsolete is_primary names.now name.now }
{
    is_twin(names, name) || (is_primary && is_below_floor(floor, name))
}

// Whether it is the plain name of an entry that has its durable one.
fn is_twin(names: &[FileName], name: &FileName) -> bool
    requires { Ascend names.now }
    ensures { IsTrue result ↔ IsTwin names.now name.now }
{
    match *name {
        FileName::Data {
            stamp,
            index,
            durable: false,
        } => has(
            names,
            &FileName::Data {
                stamp,
                index,
                durable: true,
            },
        ),
        _ => false,
    }
}

// Whether there is a floor and the name is below it.
fn is_below_floor(floor: &Option<Floor>, name: &FileName) -> bool
    ensures { IsTrue result ↔ MatchOption floor.now ⊥ (λ there. IsBelow there name.now) }
{
    match floor {
        Some(floor) => is_below(floor, name),
        None => false,
    }
}

// Whether a name is below a floor.
fn is_below(floor: &Floor, name: &FileName) -> bool
    ensures { IsTrue result ↔ IsBelow floor.now name.now }
{
    match *name {
        FileName::Data { stamp, .. } => floor.stands_above(stamp),
        FileName::Tombstone { stamp } => stamp.units() < floor.stamp.units(),
    }
}

// Different names, ascending as texts.
fn in_order(alloc: Global, names: &[FileName]) -> Result<Vec<FileName>, NoMemory>
    requires distinct { AllPairs (λ a b. a ≢ b) names.now }
    requires named { (name : AFileName) → Contains names.now name → IsFileName name }
    ensures names { IfOk result (λ sorted. (name : AFileName) → Contains sorted.items name ↔ Contains names.now name) }
    ensures ascend { IfOk result (λ sorted. AllPairs IsTextBefore sorted.items) }
{
    let mut texts = printed(alloc, names)?;
    texts.sort_unstable_by(|a, b| a.0.cmp(&b.0));
    let mut sorted = Vec::new(alloc);
    for (_, name) in &texts {
        sorted.push(*name)?;
    }
    Ok(sorted)
}

// Names, each with its text.
fn printed(alloc: Global, names: &[FileName]) -> Result<Vec<(String, FileName)>, NoMemory>
    requires { (name : AFileName) → Contains names.now name → IsFileName name }
    ensures names { IfOk result (λ texts. map (λ text. text.1) texts.items ≡ names.now) }
    ensures texts { IfOk result (λ texts. All (λ text. string_bytes text.0 ≡ file_name_text text.1) texts.items) }
{
    let mut texts = Vec::new(alloc);
    for name in names {
        texts.push((name.print(alloc)?, *name))?;
    }
    Ok(texts)
}
