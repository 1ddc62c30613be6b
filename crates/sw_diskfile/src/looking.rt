//! Looking at folders.

ghost use Rattle.std.specs.Prelude.{◌<◌, ◌≤◌, [], ◌∷◌, List, ℕ, IfErr, IfOk, length, ⊤};
ghost use Rattle.sw_types.specs.Policy.{greatest_total};
ghost use Rattle.sw_disk.specs.Answers.{HasBytes, HasFile, IsNotFull};
ghost use Rattle.sw_disk.specs.Calls.{ListNames, ReadFile};
ghost use Rattle.sw_disk.specs.Runs.{IfTold, KeepsRoom, Runs, refusal_of};
ghost use Rattle.sw_hashpath.specs.FileName.{file_name_text};
ghost use Rattle.sw_hashpath.specs.declared.file_name.FileName.TheVariants.{Data};
ghost use Rattle.sw_hashdir.specs.Directory.{IsDirectory};
ghost use Rattle.sw_diskfile.specs.Changes.{Keeps};
ghost use Rattle.sw_diskfile.specs.Names.{IsDirectoryOf, IsListed, RunsUnlessMemory};

use std::alloc::Global;
use sw_disk::{Disk, DiskRefusal};
use sw_hashdir::{Entry, HashDir};
use sw_hashpath::FileName;
use sw_types::Bytes;

/// The directory of a folder: an empty one for a folder that is not there. Nothing is changed.
pub fn look<D: Disk>(alloc: Global, disk: &mut D, folder: &str) -> Result<HashDir, DiskRefusal>
    requires { length folder.now ≤ 64 }
    ensures directory { IfOk result (λ dir. IfTold (D.seen disk.old).told (λ state. IsDirectoryOf (state.folder folder.now) dir)) }
    ensures listed { IfOk result (λ dir. (texts : List (List ℕ)) × IsListed (D.seen disk.old).told folder.now texts × IsDirectory texts dir) }
    ensures runs { RunsUnlessMemory D.seen D.left_since (ListNames folder.now ∷ []) (refusal_of result) disk.old disk.new }
    ensures kept { Keeps D.seen D.left_since (λ name. ⊤) disk.old disk.new }
    ensures room { KeepsRoom (D.seen disk.old) (D.seen disk.new) }
    ensures never_full { IfErr result IsNotFull }
{
    let texts = disk.list(alloc, folder)?;
    Ok(HashDir::of(alloc, &texts)?)
}

/// The bytes of an entry of an index below 32 that is there: those of the file of its name, durable or plain as the entry
/// says. Nothing is changed.
pub fn fetch<D: Disk>(
    alloc: Global,
    disk: &mut D,
    folder: &str,
    entry: Entry,
) -> Result<Bytes, DiskRefusal>
    requires folder { length folder.now ≤ 64 }
    requires index { entry.index < greatest_total }
    requires there { IfTold (D.seen disk.old).told (λ state. HasFile state folder.now (file_name_text (Data entry.stamp entry.index entry.durable))) }
    ensures bytes { IfOk result (λ bytes. IfTold (D.seen disk.old).told (λ state. HasBytes state folder.now (file_name_text (Data entry.stamp entry.index entry.durable)) bytes)) }
    ensures runs { Runs D.seen D.left_since (ReadFile folder.now (file_name_text (Data entry.stamp entry.index entry.durable)) ∷ []) (refusal_of result) disk.old disk.new }
    ensures kept { Keeps D.seen D.left_since (λ name. ⊤) disk.old disk.new }
    ensures room { KeepsRoom (D.seen disk.old) (D.seen disk.new) }
    ensures never_full { IfErr result IsNotFull }
{
    let name = FileName::Data {
        stamp: entry.stamp,
        index: entry.index,
        durable: entry.durable,
    };
    let text = name.print(alloc)?;
    disk.read(alloc, folder, text.as_str())
}
