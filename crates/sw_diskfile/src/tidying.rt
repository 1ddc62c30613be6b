//! Tidying folders.

ghost use Rattle.std.specs.Prelude.{◌≡◌, ◌≢◌, ◌≤◌, ℕ, ◌∷◌, List, IfErr, IfOk, OnOk, Some, length, map, string_bytes, ⊤};
ghost use Rattle.std.specs.List.{All};
ghost use Rattle.sw_disk.specs.Answers.{IsNotFull, names_of, texts_of};
ghost use Rattle.sw_disk.specs.Calls.{SyncDir};
ghost use Rattle.sw_disk.specs.Folder.{Remove, files_of};
ghost use Rattle.sw_disk.specs.Runs.{IfTold, Runs, refusal_of};
ghost use Rattle.sw_disk.specs.declared.refusal.DiskRefusal.{DiskRefusal as ARefusal};
ghost use Rattle.sw_disk.specs.declared.refusal.DiskRefusal.TheVariants.{Failed};
ghost use Rattle.sw_diskfile.specs.Calls.{purge_calls, tidy_calls};
ghost use Rattle.sw_diskfile.specs.Changes.{Changes, IfBothTold, IsMadeStable, Keeps};
ghost use Rattle.sw_diskfile.specs.Names.{IsDirectoryOf};
ghost use Rattle.sw_diskfile.specs.Normal.{AreObsolete, IsTidied, KeepsNormal, Tidies, WithObsolete};

use crate::looking::look;
use crate::purging::{obsolete_texts, purge_by_calls};
use std::alloc::Global;
use sw_disk::{Disk, DiskRefusal};
use sw_hashdir::HashDir;

/// Makes the changes of names of a folder stable that are pending, and removes what is obsolete in it at a primary, or at a
/// handoff. It begins from any folder, also one that a crash or a failure left. It answers the directory that it found, whose
/// floor is that of what it leaves.
///
/// All memory is taken before the first device call that changes something.
pub fn tidy<D: Disk>(
    alloc: Global,
    disk: &mut D,
    folder: &str,
    is_primary: bool,
) -> Result<HashDir, DiskRefusal>
    requires { length folder.now ≤ 64 }
    ensures directory { IfOk result (λ dir. IfTold (D.seen disk.old).told (λ before. IsDirectoryOf (before.folder folder.now) dir)) }
    ensures runs { Tidies D.seen D.left_since folder.now is_primary (refusal_of result) disk.old disk.new }
    ensures exact { WithObsolete (D.seen disk.old).told folder.now is_primary (λ obsolete. Runs D.seen D.left_since (tidy_calls folder.now obsolete) (refusal_of result) disk.old disk.new) }
    ensures changes { WithObsolete (D.seen disk.old).told folder.now is_primary (λ obsolete. Changes D.seen D.left_since folder.now (map Remove obsolete) (refusal_of result) disk.old disk.new) }
    ensures tidied { OnOk result (IfBothTold (D.seen disk.old) (D.seen disk.new) folder.now (IsTidied is_primary)) }
    ensures keeps { KeepsNormal D.seen D.left_since folder.now is_primary disk.old disk.new }
    ensures unmade { (reason : ARefusal) → refusal_of result ≡ Some reason → reason ≢ Failed → Keeps D.seen D.left_since (λ name. ⊤) disk.old disk.new }
    ensures stable { OnOk result (IfBothTold (D.seen disk.old) (D.seen disk.new) folder.now IsMadeStable) }
    ensures others { Keeps D.seen D.left_since (λ name. name ≢ folder.now) disk.old disk.new }
    ensures never_full { IfErr result IsNotFull }
{
    tidy_by_calls(alloc, disk, folder, is_primary)
}

// The calls of tidying: it is refused before the first removal, or removes the obsolete names.
fn tidy_by_calls<D: Disk>(
    alloc: Global,
    disk: &mut D,
    folder: &str,
    is_primary: bool,
) -> Result<HashDir, DiskRefusal>
    requires { length folder.now ≤ 64 }
    ensures directory { IfOk result (λ dir. IfTold (D.seen disk.old).told (λ before. IsDirectoryOf (before.folder folder.now) dir)) }
    ensures runs { Tidies D.seen D.left_since folder.now is_primary (refusal_of result) disk.old disk.new }
    ensures never_full { IfErr result IsNotFull }
{
    let dir = look(alloc, disk, folder)?;
    let obsolete = obsolete_texts(alloc, &dir, is_primary)?;
    disk.ready(alloc, folder, obsolete.len())?;
    settle_and_purge(disk, folder, is_primary, &obsolete)?;
    Ok(dir)
}

// Makes a folder stable, and removes what is obsolete in it.
fn settle_and_purge<D: Disk>(
    disk: &mut D,
    folder: &str,
    is_primary: bool,
    obsolete: &[String],
) -> Result<(), DiskRefusal>
    requires folder { length folder.now ≤ 64 }
    requires obsolete { IfTold (D.seen disk.old).told (λ state. AreObsolete is_primary (names_of (files_of (state.folder folder.now))) (texts_of obsolete.now)) }
    requires short { All (λ name. length (string_bytes name) ≤ 96) obsolete.now }
    requires room { length obsolete.now ≤ (D.seen disk.old).room folder.now }
    ensures runs { Runs D.seen D.left_since (SyncDir folder.now ∷ purge_calls folder.now (texts_of obsolete.now)) (refusal_of result) disk.old disk.new }
    ensures cause { IfErr result (λ refusal. refusal ≡ Failed) }
{
    disk.sync_dir(folder)?;
    purge_by_calls(disk, folder, is_primary, obsolete)
}
