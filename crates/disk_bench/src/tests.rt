//! Calls of a disk that fail, a disk that is full, a commit that purges, and what is looked at and fetched.

use crate::changes::{bury_new, commit_and_purge, store_new};
use crate::folder::{FOLDER, LONGEST, START, has_file, has_names, keep, stamp, start};
use crate::trial::{CHANGES, after_crash};
use std::alloc::Global;
use std::test::Fail;
use sw_disk::{Disk, DiskRefusal};
use sw_diskfile::{fetch, look, tidy};
use sw_hashdir::{Entry, Floor, FloorKind};
use sw_hashpath::FileName;
use sw_memdisk::MemDisk;
use sw_types::Bytes;

#[test]
fn fails_at_each_call(rt: HostRuntime) -> Result<(), Fail> {
    let alloc = rt.alloc();
    let before = start(alloc, &[])?.calls();
    for change in CHANGES {
        for call in 1..=change.calls() {
            let mut disk = start(alloc, &[before.saturating_add(call)])?;
            let made = change.make(alloc, &mut disk)?;
            assert_eq!(rt; made, Err(DiskRefusal::Failed));
            let count = after_crash(alloc, change, call.saturating_sub(1), 9)?;
            let names = change.names().get(count).ok_or("count")?;
            assert!(rt; has_names(&disk, names));
            assert!(rt; tidy(alloc, &mut disk, FOLDER, false).is_ok());
            disk.crash(0);
            assert!(rt; disk.file(FOLDER, LONGEST).is_some());
            assert!(rt; disk.file(FOLDER, START[3]).is_none());
        }
    }
    Ok(())
}

#[test]
fn is_as_before_where_the_disk_is_full(rt: HostRuntime) -> Result<(), Fail> {
    let alloc = rt.alloc();
    let cases: [(u64, usize, Result<bool, DiskRefusal>); 4] = [
        (0, 0, Ok(true)),
        (0, 1, Err(DiskRefusal::Full { need: 1, free: 0 })),
        (103, 103, Ok(true)),
        (
            102,
            103,
            Err(DiskRefusal::Full {
                need: 103,
                free: 102,
            }),
        ),
    ];
    for (capacity, length, stored) in cases {
        let mut disk = MemDisk::new(alloc, capacity, Vec::new(alloc));
        let bytes = [7; 103];
        let bytes = bytes.get(..length).ok_or("length")?;
        assert_eq!(rt; store_new(alloc, &mut disk, stamp(0)?, 31, bytes), stored);
        let names = ["1000000000.00000#31.data"];
        assert_eq!(rt; has_names(&disk, &names), stored == Ok(true));
        assert_eq!(rt; bury_new(alloc, &mut disk, stamp(0)?), Ok(true));
    }
    Ok(())
}

// A folder with the durable archive of a stamp and the plain one of the next, both of index 0.
fn two_archives(alloc: Global) -> Result<MemDisk, Fail> {
    let mut disk = MemDisk::new(alloc, 1 << 20, Vec::new(alloc));
    keep(alloc, &mut disk, "1000000000.00000#0#d.data", b"ab")?;
    keep(alloc, &mut disk, "1000000000.00001#0.data", b"de")?;
    disk.sync_dir(FOLDER)?;
    Ok(disk)
}

// How many of the six device calls of a commit that purges are done, how many changes of names that are not stable the crash
// keeps, and whether the newer archive is durable then.
#[test]
fn commits_and_purges_or_leaves_both(rt: HostRuntime) -> Result<(), Fail> {
    let alloc = rt.alloc();
    let cases = [
        (0, 0, false),
        (0, 1, false),
        (1, 0, false),
        (1, 1, false),
        (2, 0, false),
        (2, 1, true),
        (3, 0, true),
        (3, 1, true),
        (4, 0, true),
        (4, 1, true),
        (5, 0, true),
        (5, 1, true),
    ];
    for (calls, pick, is_newer) in cases {
        let mut disk = two_archives(alloc)?;
        disk.fuse(calls);
        let made = commit_and_purge(alloc, &mut disk, stamp(1)?, 0);
        assert_eq!(rt; made.is_ok(), calls == 5);
        disk.crash(pick);
        let found = tidy(alloc, &mut disk, FOLDER, true)?.floor();
        let names: &[&str] = if is_newer {
            &["1000000000.00001#0#d.data"]
        } else {
            &["1000000000.00000#0#d.data", "1000000000.00001#0.data"]
        };
        assert!(rt; has_names(&disk, names));
        let stamp = stamp(if is_newer { 1 } else { 0 })?;
        let kind = FloorKind::Durable;
        assert_eq!(rt; found, Some(Floor { stamp, kind }));
        assert_eq!(rt; look(alloc, &mut disk, FOLDER)?.floor(), found);
    }
    Ok(())
}

#[test]
fn fetches_what_is_listed(rt: HostRuntime) -> Result<(), Fail> {
    let alloc = rt.alloc();
    let mut disk = two_archives(alloc)?;
    let listing = look(alloc, &mut disk, FOLDER)?.listing(alloc)?;
    let mut fetched = Vec::new(alloc);
    for entry in listing.entries() {
        fetched.push(fetch_found(alloc, &mut disk, *entry)?)?;
    }
    let texts: [&[u8]; 2] = [b"ab", b"de"];
    assert_eq!(rt; fetched.len(), texts.len());
    for (bytes, text) in fetched.iter().zip(texts) {
        assert_eq!(rt; bytes.as_slice(), text);
    }
    assert!(rt;
        look(alloc, &mut disk, "other")?
            .listing(alloc)?
            .entries()
            .is_empty()
    );
    Ok(())
}

// The bytes of an entry that is there.
fn fetch_found(alloc: Global, disk: &mut MemDisk, entry: Entry) -> Result<Bytes, Fail> {
    if entry.index >= 32 {
        return Err("index".into());
    }
    let name = FileName::Data {
        stamp: entry.stamp,
        index: entry.index,
        durable: entry.durable,
    };
    if !has_file(alloc, disk, FOLDER, &name)? {
        return Err("it is lost".into());
    }
    Ok(fetch(alloc, disk, FOLDER, entry)?)
}
