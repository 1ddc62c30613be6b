//! Each call of a disk over real files, in an empty folder.

ghost use Rattle.std.specs.Prelude.{◌≤◌, length};

use crate::{HostDisk, HostShelf};
use std::alloc::Global;
use std::os::unix::fs::symlink;
use std::process::{Abort, id};
use std::rt::LibcRuntime;
use std::test::Fail;
use std::{env, fs};
use sw_disk::{Disk, DiskRefusal};
use sw_shelf::{Shelf, ShelfFault};

type TestDisk = HostDisk<LibcRuntime>;

const FOLDER: &str = "objects/9/f72/900150983cd24fb0d6963f7d28e17f72";

const OTHER: &str = "objects/9/a0b/00000000000000000000000000000a0b";

// A folder of the host that is empty and only of this test and run.
fn empty_folder(rt: &LibcRuntime, test: &str) -> Result<String, Fail> {
    let temp = env::temp_dir(rt)?;
    let path = format!(in rt.alloc();
        "{}/hostdisk-{test}-{}",
        temp.as_path().display(),
        id(rt.process())
    )?;
    fs::create_dir(rt, path.as_str())?;
    Ok(path)
}

fn store(
    disk: &mut TestDisk,
    alloc: Global,
    folder: &str,
    name: &str,
    bytes: &[u8],
) -> Result<(), DiskRefusal>
    requires folder { length folder.now ≤ 64 }
    requires name { length name.now ≤ 96 }
{
    disk.ready(alloc, folder, 1)?;
    disk.write_tmp(alloc, bytes)?;
    disk.sync_tmp()?;
    disk.publish(folder, name)?;
    disk.sync_dir(folder)
}

// The folder has files of these names, and no others.
fn expect_names(
    rt: &impl Abort,
    alloc: Global,
    disk: &mut TestDisk,
    names: &[&str],
) -> Result<(), Fail> {
    let listed = disk.list(alloc, FOLDER)?;
    assert_eq!(rt; listed.len(), names.len());
    for index in 0..4usize {
        assert_eq!(rt;
            listed.get(index).map(|name| name.as_str()),
            names.get(index).copied()
        );
    }
    Ok(())
}

fn expect_full(rt: &impl Abort, alloc: Global, disk: &mut TestDisk, need: u64, free: u64)
    requires { need ≤ 16 }
{
    let bytes = [7; 16];
    assert_eq!(rt;
        disk.write_tmp(alloc, &bytes[..need as usize]),
        Err(DiskRefusal::Full { need, free })
    );
}

#[test]
fn keeps_files_of_the_host(rt: HostRuntime) -> Result<(), Fail> {
    let alloc = rt.alloc();
    let root = empty_folder(&rt, "files")?;
    if root.len() > 512 {
        return Err("the path is too long".into());
    }
    let mut shelf = HostShelf::new(rt.clone()?, &root);
    let mut disk = shelf.disk(alloc, 3, 10)?;
    assert!(rt; disk.folders(alloc)?.is_empty());
    expect_names(&rt, alloc, &mut disk, &[])?;
    assert_eq!(rt; disk.sync_tmp(), Err(DiskRefusal::Failed));
    expect_full(&rt, alloc, &mut disk, 11, 10);
    change_files(&rt, alloc, &mut disk)?;
    fill_and_empty(&rt, alloc, &mut disk)?;
    let base = format!(in alloc; "{root}/data/3")?;
    refuse_and_miss(&rt, &rt, &mut disk, &base)?;
    add_foreign_files(&rt, &base)?;
    expect_no_folder(&rt, alloc, &mut disk);
    assert_eq!(rt; disk.sync_dir("objects/8"), Err(DiskRefusal::Failed));
    shelf.back(3, disk);
    expect_found_again(&rt, alloc, &mut shelf)?;
    expect_locked(&rt, alloc, &root)?;
    expect_foreign_files(&rt, &base)?;
    fs::remove_dir_all(&rt, &root)?;
    Ok(())
}

#[test]
fn fails_where_the_host_does(rt: HostRuntime) -> Result<(), Fail> {
    let alloc = rt.alloc();
    let root = empty_folder(&rt, "faults")?;
    if root.len() > 512 {
        return Err("the path is too long".into());
    }
    let mut shelf = HostShelf::new(rt.clone()?, &root);
    let mut disk = shelf.disk(alloc, 3, 10)?;
    let base = format!(in alloc; "{root}/data/3")?;
    fill_host(&rt, &rt, &mut disk, &base)?;
    lose_new_folder(&rt, &rt, &mut disk, &base)?;
    shelf.back(3, disk);
    fs::remove_dir_all(&rt, &root)?;
    Ok(())
}

// A write for which the host has no room fails.
fn fill_host(
    rt: &impl Abort,
    host: &LibcRuntime,
    disk: &mut TestDisk,
    base: &str,
) -> Result<(), Fail> {
    let temporary = format!(in host.alloc(); "{base}/tmp")?;
    symlink(host, "/dev/full", &temporary)?;
    assert_eq!(rt;
        disk.write_tmp(host.alloc(), b"1"),
        Err(DiskRefusal::Failed)
    );
    fs::remove_file(host, &temporary)?;
    Ok(())
}

// While the name of a new folder can't be made stable, no other is made.
fn lose_new_folder(
    rt: &impl Abort,
    host: &LibcRuntime,
    disk: &mut TestDisk,
    base: &str,
) -> Result<(), Fail> {
    let alloc = host.alloc();
    publish_new(disk, alloc)?;
    let suffix = format!(in alloc; "{base}/objects/9/f72")?;
    let away = format!(in alloc; "{base}.away")?;
    fs::rename(host, &suffix, &away)?;
    assert!(rt; put(disk, alloc, OTHER, "e", b"1").is_err());
    fs::rename(host, &away, &suffix)?;
    put(disk, alloc, OTHER, "e", b"1")?;
    expect_folders(rt, alloc, disk, &[OTHER, FOLDER])
}

// Publishes a file in a new folder, whose name is not made stable.
fn publish_new(disk: &mut TestDisk, alloc: Global) -> Result<(), DiskRefusal> {
    disk.ready(alloc, FOLDER, 1)?;
    disk.write_tmp(alloc, b"2")?;
    disk.sync_tmp()?;
    disk.publish(FOLDER, "f")
}

fn change_files(rt: &impl Abort, alloc: Global, disk: &mut TestDisk) -> Result<(), Fail> {
    store(disk, alloc, FOLDER, "b", b"12345")?;
    store(disk, alloc, FOLDER, "a", b"67")?;
    expect_names(rt, alloc, disk, &["a", "b"])?;
    expect_full(rt, alloc, disk, 4, 3);
    assert_eq!(rt;
        store(disk, alloc, FOLDER, "a", b"8"),
        Err(DiskRefusal::Failed)
    );
    assert_eq!(rt; disk.rename(FOLDER, "a", "b"), Err(DiskRefusal::Failed));
    disk.rename(FOLDER, "a", "c")?;
    assert_eq!(rt; disk.read(alloc, FOLDER, "c")?.as_slice(), b"67".as_slice());
    assert_eq!(rt; disk.read(alloc, FOLDER, "a").is_err(), true);
    disk.remove(FOLDER, "b")?;
    assert_eq!(rt; disk.remove(FOLDER, "b"), Err(DiskRefusal::Failed));
    expect_names(rt, alloc, disk, &["c"])?;
    expect_full(rt, alloc, disk, 9, 8);
    Ok(())
}

// The disk has these folders, and no others.
fn expect_folders(
    rt: &impl Abort,
    alloc: Global,
    disk: &mut TestDisk,
    folders: &[&str],
) -> Result<(), Fail> {
    let listed = disk.folders(alloc)?;
    assert_eq!(rt; listed.len(), folders.len());
    for index in 0..2usize {
        assert_eq!(rt;
            listed.get(index).map(|folder| folder.as_str()),
            folders.get(index).copied()
        );
    }
    Ok(())
}

// A folder is one of the disk's while it has a file, whether the disk knows so or looks again after a failure.
fn fill_and_empty(rt: &impl Abort, alloc: Global, disk: &mut TestDisk) -> Result<(), Fail> {
    fill(rt, alloc, disk)?;
    empty(rt, alloc, disk)?;
    fill_again(rt, alloc, disk)
}

fn fill(rt: &impl Abort, alloc: Global, disk: &mut TestDisk) -> Result<(), Fail> {
    expect_folders(rt, alloc, disk, &[FOLDER])?;
    put(disk, alloc, OTHER, "e", b"1")?;
    put(disk, alloc, FOLDER, "f", b"23")?;
    expect_folders(rt, alloc, disk, &[OTHER, FOLDER])
}

fn empty(rt: &impl Abort, alloc: Global, disk: &mut TestDisk) -> Result<(), Fail> {
    take(disk, FOLDER, "f")?;
    expect_folders(rt, alloc, disk, &[OTHER, FOLDER])?;
    take(disk, FOLDER, "c")?;
    expect_folders(rt, alloc, disk, &[OTHER])
}

fn fill_again(rt: &impl Abort, alloc: Global, disk: &mut TestDisk) -> Result<(), Fail> {
    assert!(rt; take(disk, FOLDER, "c").is_err());
    expect_folders(rt, alloc, disk, &[OTHER])?;
    put(disk, alloc, FOLDER, "c", b"67")?;
    expect_folders(rt, alloc, disk, &[OTHER, FOLDER])?;
    take(disk, OTHER, "e")?;
    expect_folders(rt, alloc, disk, &[FOLDER])
}

// The same as `store`, of which nothing is said.
fn put(
    disk: &mut TestDisk,
    alloc: Global,
    folder: &str,
    name: &str,
    bytes: &[u8],
) -> Result<(), DiskRefusal>
    requires folder { length folder.now ≤ 64 }
    requires name { length name.now ≤ 96 }
{
    store(disk, alloc, folder, name, bytes)
}

fn take(disk: &mut TestDisk, folder: &str, name: &str) -> Result<(), DiskRefusal>
    requires folder { length folder.now ≤ 64 }
    requires name { length name.now ≤ 96 }
{
    disk.remove(folder, name)
}

// A folder of another form is refused, and a disk whose folder is away fails until it is back.
fn refuse_and_miss(
    rt: &impl Abort,
    host: &LibcRuntime,
    disk: &mut TestDisk,
    base: &str,
) -> Result<(), Fail> {
    let alloc = host.alloc();
    assert!(rt; put(disk, alloc, "objects/9", "g", b"4").is_err());
    let away = format!(in alloc; "{base}.away")?;
    fs::rename(host, base, &away)?;
    assert!(rt; fails(alloc, disk));
    fs::create_dir(host, base)?;
    assert!(rt; fails(alloc, disk));
    assert!(rt; put(disk, alloc, OTHER, "g", b"4").is_err());
    fs::remove_dir(host, base)?;
    fs::rename(host, &away, base)?;
    expect_folders(rt, alloc, disk, &[FOLDER])
}

// Whether the disk tells neither its folders nor the files of an empty one.
fn fails(alloc: Global, disk: &mut TestDisk) -> bool {
    disk.list(alloc, OTHER).is_err() && disk.folders(alloc).is_err()
}

// Files and folders that are none of a disk's.
const FOREIGN: [&str; 3] = [
    "note",
    "objects/9/f72/note",
    "objects/9/f72/900150983cd24fb0d6963f7d28e17f72/folder",
];

fn add_foreign_files(rt: &LibcRuntime, base: &str) -> Result<(), Fail> {
    for (index, path) in FOREIGN.iter().enumerate() {
        let path = format!(in rt.alloc(); "{base}/{path}")?;
        if index == 2 {
            fs::create_dir(rt, path.as_str())?;
        } else {
            fs::write(rt, path.as_str(), "1")?;
        }
    }
    Ok(())
}

// A file where a folder would be is not taken for a folder without files.
fn expect_no_folder(rt: &impl Abort, alloc: Global, disk: &mut TestDisk) {
    assert!(rt; disk.list(alloc, FOREIGN[1]).is_err());
}

fn expect_foreign_files(rt: &LibcRuntime, base: &str) -> Result<(), Fail> {
    for path in FOREIGN {
        let path = format!(in rt.alloc(); "{base}/{path}")?;
        if !fs::exists(rt, path.as_str())? {
            return Err("a foreign file is gone".into());
        }
    }
    Ok(())
}

// A second disk of the device finds what the first one left.
fn expect_found_again(
    rt: &impl Abort,
    alloc: Global,
    shelf: &mut HostShelf<LibcRuntime>,
) -> Result<(), Fail> {
    let mut disk = shelf.disk(alloc, 3, 10)?;
    let folders = disk.folders(alloc)?;
    assert_eq!(rt; folders.len(), 1);
    assert_eq!(rt; folders.first().map(|folder| folder.as_str()), Some(FOLDER));
    expect_names(rt, alloc, &mut disk, &["c"])?;
    expect_full(rt, alloc, &mut disk, 9, 8);
    Ok(())
}

// Another shelf gets no disk of the folder.
fn expect_locked(rt: &LibcRuntime, alloc: Global, root: &str) -> Result<(), Fail>
    requires { length root.now ≤ 512 }
{
    let mut other = HostShelf::new(rt.clone()?, root);
    match other.disk(alloc, 3, 10) {
        Err(ShelfFault::Failed) => Ok(()),
        _ => Err("it is not locked".into()),
    }
}
