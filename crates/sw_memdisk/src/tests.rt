//! Calls that fail, a disk that is full, and what a crash leaves.

ghost use Rattle.std.specs.Prelude.{◌≤◌, length};

use crate::MemDisk;
use std::alloc::Global;
use std::process::Abort;
use std::test::Fail;
use sw_disk::{Disk, DiskRefusal};
use sw_types::Bytes;

fn disk(alloc: Global, capacity: u64, failing: &[u64]) -> Result<MemDisk, Fail> {
    Ok(MemDisk::new(alloc, capacity, failing.to_vec(alloc)?))
}

#[test]
fn is_full_beyond_its_capacity(rt: HostRuntime) -> Result<(), Fail> {
    let alloc = rt.alloc();
    let cases: [(u64, usize, Result<(), DiskRefusal>); 4] = [
        (
            102,
            103,
            Err(DiskRefusal::Full {
                need: 103,
                free: 102,
            }),
        ),
        (103, 103, Ok(())),
        (0, 1, Err(DiskRefusal::Full { need: 1, free: 0 })),
        (0, 0, Ok(())),
    ];
    let bytes = [7; 103];
    for (capacity, length, written) in cases {
        let mut disk = disk(alloc, capacity, &[])?;
        let bytes = bytes.get(..length).ok_or("length")?;
        assert_eq!(rt; disk.write_tmp(alloc, bytes), written);
    }
    Ok(())
}

#[test]
fn fails_by_number_and_by_fuse(rt: HostRuntime) -> Result<(), Fail> {
    let alloc = rt.alloc();
    let mut disk = disk(alloc, 9, &[2])?;
    assert!(rt; is_answered(&mut disk, alloc)?);
    assert!(rt; !is_answered(&mut disk, alloc)?);
    assert!(rt; is_answered(&mut disk, alloc)?);
    disk.fuse(1);
    assert!(rt; is_answered(&mut disk, alloc)?);
    assert!(rt; !is_answered(&mut disk, alloc)?);
    assert!(rt; !is_answered(&mut disk, alloc)?);
    assert_eq!(rt; disk.calls(), 6);
    disk.crash(0);
    assert!(rt; is_answered(&mut disk, alloc)?);
    Ok(())
}

// Whether a disk without files lists no folder, rather than failing.
fn is_answered(disk: &mut MemDisk, alloc: Global) -> Result<bool, Fail> {
    match disk.folders(alloc) {
        Ok(names) => Ok(names.is_empty()),
        Err(DiskRefusal::Failed) => Ok(false),
        Err(_) => Err("refused".into()),
    }
}

// A file of a folder `f` that is not there yet; its bytes are on the disk or not.
fn keep(
    disk: &mut MemDisk,
    alloc: Global,
    name: &str,
    bytes: &[u8],
    is_synced: bool,
) -> Result<(), Fail>
    requires { length name.now ≤ 96 }
{
    disk.ready(alloc, "f", 1)?;
    disk.write_tmp(alloc, bytes)?;
    if is_synced {
        disk.sync_tmp()?;
    }
    if disk.file("f", name).is_some() {
        return Err("it is there".into());
    }
    disk.publish("f", name)?;
    Ok(())
}

#[test]
fn crashes_leave_a_first_part_of_the_changes(rt: HostRuntime) -> Result<(), Fail> {
    let alloc = rt.alloc();
    let cases: [(u64, &[&str]); 4] = [
        (0, &["b"]),
        (1, &["a", "b"]),
        (2, &["a", "b", "c"]),
        (9, &["a", "b", "c"]),
    ];
    for (pick, names) in cases {
        let mut disk = disk(alloc, 9, &[])?;
        keep(&mut disk, alloc, "b", b"12", true)?;
        disk.sync_dir("f")?;
        keep(&mut disk, alloc, "a", b"3", true)?;
        keep(&mut disk, alloc, "c", b"45", false)?;
        disk.crash(pick);
        expect_names(&rt, &disk, names);
        assert_eq!(rt; disk.file("f", "b"), Some(b"12".as_slice()));
        let lost = names.get(2).map(|_| b"\x00\x00".as_slice());
        assert_eq!(rt; disk.file("f", "c"), lost);
        disk.lose();
        expect_names(&rt, &disk, &[]);
    }
    Ok(())
}

// The folder `f` has files of these names, and no others.
fn expect_names(rt: &impl Abort, disk: &MemDisk, names: &[&str]) {
    for place in 0..4usize {
        assert_eq!(rt; disk.name_at("f", place), names.get(place).copied());
    }
}

// Of a name the folder `f` lends these bytes.
fn expect_lent(
    rt: &impl Abort,
    alloc: Global,
    disk: &MemDisk,
    name: &str,
    bytes: Option<&[u8]>,
) -> Result<(), Fail> {
    let lent = disk.lend(alloc, "f")?;
    assert_eq!(rt; lent.get(name).copied(), bytes);
    Ok(())
}

#[test]
fn lists_reads_renames_and_removes(rt: HostRuntime) -> Result<(), Fail> {
    let alloc = rt.alloc();
    let mut disk = disk(alloc, 9, &[])?;
    keep(&mut disk, alloc, "b", b"12", true)?;
    keep(&mut disk, alloc, "a", b"3", true)?;
    rename(&mut disk, alloc, "b", "c")?;
    expect_names(&rt, &disk, &["a", "c"]);
    let names = disk.list(alloc, "f")?;
    assert_eq!(rt; names.len(), 2);
    expect_lent(&rt, alloc, &disk, "c", Some(b"12"))?;
    expect_lent(&rt, alloc, &disk, "b", None)?;
    assert_eq!(rt; read(&mut disk, alloc, "c")?.as_slice(), b"12".as_slice());
    remove(&mut disk, alloc, "a")?;
    expect_names(&rt, &disk, &["c"]);
    let folders = disk.folders(alloc)?;
    assert_eq!(rt; folders.first().map(|name| name.as_str()), Some("f"));
    assert_eq!(rt;
        disk.write_tmp(alloc, &[0; 8]),
        Err(DiskRefusal::Full { need: 8, free: 7 })
    );
    Ok(())
}

// A file of the folder `f` gets a name that is not there.
fn rename(disk: &mut MemDisk, alloc: Global, from: &str, to: &str) -> Result<(), Fail>
    requires from { length from.now ≤ 96 }
    requires to { length to.now ≤ 96 }
{
    disk.ready(alloc, "f", 1)?;
    if disk.file("f", to).is_some() {
        return Err("it is there".into());
    }
    if !disk.file("f", from).is_some() {
        return Err("it is not there".into());
    }
    disk.rename("f", from, to)?;
    Ok(())
}

fn remove(disk: &mut MemDisk, alloc: Global, name: &str) -> Result<(), Fail>
    requires { length name.now ≤ 96 }
{
    disk.ready(alloc, "f", 1)?;
    if !disk.file("f", name).is_some() {
        return Err("it is not there".into());
    }
    disk.remove("f", name)?;
    Ok(())
}

fn read(disk: &mut MemDisk, alloc: Global, name: &str) -> Result<Bytes, Fail>
    requires { length name.now ≤ 96 }
{
    if !disk.file("f", name).is_some() {
        return Err("it is not there".into());
    }
    Ok(disk.read(alloc, "f", name)?)
}
