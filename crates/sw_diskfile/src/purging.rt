//! Removing what is obsolete.

ghost use Rattle.std.specs.Prelude.{◌≡◌, ◌≢◌, ◌↔◌, ◌≤◌, ℕ, [], List, Contains, IfErr, IfOk, OnOk, length, map, string_bytes};
ghost use Rattle.std.specs.List.{All, AllPairs};
ghost use Rattle.std.specs.Cmp.Lexicographic.{slice_cmp};
ghost use Rattle.std.specs.Ordering.{nat_cmp};
ghost use Rattle.std.specs.declared.cmp.Ordering.TheVariants.{Less};
ghost use Rattle.sw_disk.specs.Answers.{names_of, texts_of};
ghost use Rattle.sw_disk.specs.Calls.{RemoveFile};
ghost use Rattle.sw_disk.specs.Folder.{Remove, files_of};
ghost use Rattle.sw_disk.specs.Runs.{IfTold, Runs, refusal_of};
ghost use Rattle.sw_disk.specs.declared.refusal.DiskRefusal.TheVariants.{Failed};
ghost use Rattle.sw_diskfile.specs.Calls.{purge_calls};
ghost use Rattle.sw_diskfile.specs.Changes.{Changes, IfBothTold, IsMadeStable, Keeps};
ghost use Rattle.sw_diskfile.specs.Normal.{AreObsolete, IsObsoleteText, IsTidied, KeepsNormal};

use std::alloc::Global;
use sw_disk::{Disk, DiskRefusal};
use sw_hashdir::HashDir;
use sw_types::NoMemory;

/// The texts of the names that are obsolete in a directory, ascending: those that `purge` takes.
pub fn obsolete_texts(
    alloc: Global,
    dir: &HashDir,
    is_primary: bool,
) -> Result<Vec<String>, NoMemory>
    ensures all { IfOk result (λ texts. (text : List ℕ) → Contains (texts_of texts.items) text ↔ IsObsoleteText is_primary dir.now text) }
    ensures ascend { IfOk result (λ texts. AllPairs (λ a b. slice_cmp nat_cmp a b ≡ Less) (texts_of texts.items)) }
    ensures short { IfOk result (λ texts. All (λ text. length (string_bytes text) ≤ 96) texts.items) }
{
    let mut texts = Vec::new(alloc);
    for name in &dir.obsolete(alloc, is_primary)? {
        texts.push(name.print(alloc)?)?;
    }
    Ok(texts)
}

/// Removes what is obsolete in a folder at a primary, or at a handoff: these names, ascending. There is room for the changes.
///
/// It takes no memory, and does nothing where nothing is obsolete.
pub fn purge<D: Disk>(
    disk: &mut D,
    folder: &str,
    is_primary: bool,
    obsolete: &[String],
) -> Result<(), DiskRefusal>
    requires folder { length folder.now ≤ 64 }
    requires obsolete { IfTold (D.seen disk.old).told (λ state. AreObsolete is_primary (names_of (files_of (state.folder folder.now))) (texts_of obsolete.now)) }
    requires short { All (λ name. length (string_bytes name) ≤ 96) obsolete.now }
    requires room { length obsolete.now ≤ (D.seen disk.old).room folder.now }
    ensures runs { Runs D.seen D.left_since (purge_calls folder.now (texts_of obsolete.now)) (refusal_of result) disk.old disk.new }
    ensures changes { Changes D.seen D.left_since folder.now (map Remove (texts_of obsolete.now)) (refusal_of result) disk.old disk.new }
    ensures tidied { OnOk result (IfBothTold (D.seen disk.old) (D.seen disk.new) folder.now (IsTidied is_primary)) }
    ensures keeps { KeepsNormal D.seen D.left_since folder.now is_primary disk.old disk.new }
    ensures stable { OnOk result (obsolete.now ≢ [] → IfBothTold (D.seen disk.old) (D.seen disk.new) folder.now IsMadeStable) }
    ensures others { Keeps D.seen D.left_since (λ name. name ≢ folder.now) disk.old disk.new }
    ensures nothing { obsolete.now ≡ [] → disk.new ≡ disk.old }
    ensures cause { IfErr result (λ refusal. refusal ≡ Failed) }
{
    purge_by_calls(disk, folder, is_primary, obsolete)
}

// The calls of a purge.
pub(crate) fn purge_by_calls<D: Disk>(
    disk: &mut D,
    folder: &str,
    is_primary: bool,
    obsolete: &[String],
) -> Result<(), DiskRefusal>
    requires folder { length folder.now ≤ 64 }
    requires obsolete { IfTold (D.seen disk.old).told (λ state. AreObsolete is_primary (names_of (files_of (state.folder folder.now))) (texts_of obsolete.now)) }
    requires short { All (λ name. length (string_bytes name) ≤ 96) obsolete.now }
    requires room { length obsolete.now ≤ (D.seen disk.old).room folder.now }
    ensures runs { Runs D.seen D.left_since (purge_calls folder.now (texts_of obsolete.now)) (refusal_of result) disk.old disk.new }
    ensures nothing { obsolete.now ≡ [] → disk.new ≡ disk.old }
    ensures cause { IfErr result (λ refusal. refusal ≡ Failed) }
{
    if obsolete.is_empty() {
        return Ok(());
    }
    remove_all(disk, folder, is_primary, obsolete)?;
    disk.sync_dir(folder)
}

// Removes these files, one after the other.
fn remove_all<D: Disk>(
    disk: &mut D,
    folder: &str,
    is_primary: bool,
    obsolete: &[String],
) -> Result<(), DiskRefusal>
    requires folder { length folder.now ≤ 64 }
    requires obsolete { IfTold (D.seen disk.old).told (λ state. AreObsolete is_primary (names_of (files_of (state.folder folder.now))) (texts_of obsolete.now)) }
    requires short { All (λ name. length (string_bytes name) ≤ 96) obsolete.now }
    requires room { length obsolete.now ≤ (D.seen disk.old).room folder.now }
    ensures runs { Runs D.seen D.left_since (map (RemoveFile folder.now) (texts_of obsolete.now)) (refusal_of result) disk.old disk.new }
    ensures cause { IfErr result (λ refusal. refusal ≡ Failed) }
{
    for name in obsolete {
        disk.remove(folder, name.as_str())?;
    }
    Ok(())
}
