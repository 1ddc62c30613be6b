//! Directories of folders: floors, listings, names that are obsolete, and what comes after a change.

use crate::{Entry, Floor, FloorKind, HashDir, Listing};
use std::alloc::Global;
use std::process::Abort;
use std::test::Fail;
use sw_hashpath::FileName;
use sw_types::Stamp;

// The stamp so many units after 1000000000.00000.
fn stamp(later: u64) -> Result<Stamp, Fail> {
    Ok(Stamp::make(100_000_000_000_000u64.saturating_add(later)).ok_or("stamp")?)
}

// The directory of a folder with files of these names.
fn directory(alloc: Global, texts: &[&str]) -> Result<HashDir, Fail> {
    let mut names = Vec::new(alloc);
    for text in texts {
        names.push(String::from_str(alloc, text)?)?;
    }
    Ok(HashDir::of(alloc, &names)?)
}

#[test]
fn knows_the_floor(rt: HostRuntime) -> Result<(), Fail> {
    let durable = |later| stamp(later).map(|stamp| Floor {
        stamp,
        kind: FloorKind::Durable,
    });
    let tombstone = |later| stamp(later).map(|stamp| Floor {
        stamp,
        kind: FloorKind::Tombstone,
    });
    let cases: [(&[&str], Option<Floor>); 5] = [
        (&["1000000000.00000#0.data", "other"], None),
        (
            &["1000000000.00000#0#d.data", "1000000000.00001#0.data"],
            Some(durable(0)?),
        ),
        (
            &["1000000000.00000.ts", "1000000000.00001#1#d.data"],
            Some(durable(1)?),
        ),
        (
            &["1000000000.00001#1#d.data", "1000000000.00001.ts"],
            Some(tombstone(1)?),
        ),
        (
            &["1000000000.00002.ts", "1000000000.00001.ts"],
            Some(tombstone(2)?),
        ),
    ];
    for (texts, floor) in cases {
        let found = directory(rt.alloc(), texts)?.floor();
        assert_eq!(rt; found, floor);
    }
    Ok(())
}

#[test]
fn lists_entries_and_tombstones(rt: HostRuntime) -> Result<(), Fail> {
    let alloc = rt.alloc();
    let texts = [
        "1000000000.00001#2.data",
        "1000000000.00000#1.data",
        "1000000000.00000#1#d.data",
        "1000000000.00000#0.data",
        "1000000000.00003.ts",
        "1000000000.00000#32.data",
    ];
    let listing = directory(alloc, &texts)?.listing(alloc)?;
    let entry = |later, index, durable| {
        stamp(later).map(|stamp| Entry {
            stamp,
            index,
            durable,
        })
    };
    let entries = [entry(0, 0, false)?, entry(0, 1, true)?, entry(1, 2, false)?];
    let tombstones = [stamp(3)?];
    let made = Listing::new(
        Vec::from_slice(alloc, &entries)?,
        Vec::from_slice(alloc, &tombstones)?,
    );
    for listing in [listing, made] {
        assert_eq!(rt; listing.entries(), entries.as_slice());
        assert_eq!(rt; listing.tombstones(), tombstones.as_slice());
    }
    Ok(())
}

#[test]
fn names_what_is_obsolete(rt: HostRuntime) -> Result<(), Fail> {
    let alloc = rt.alloc();
    let texts = [
        "1000000000.00001.ts",
        "1000000000.00001#2.data",
        "1000000000.00001#2#d.data",
        "1000000000.00001#10.data",
        "1000000000.00000#0#d.data",
        "1000000000.00002#0.data",
        "other",
    ];
    let directory = directory(alloc, &texts)?;
    let at_a_primary = [
        "1000000000.00000#0#d.data",
        "1000000000.00001#10.data",
        "1000000000.00001#2#d.data",
        "1000000000.00001#2.data",
    ];
    let names = directory.obsolete(alloc, true)?;
    expect_names(&rt, &names, &at_a_primary);
    let names = directory.obsolete(alloc, false)?;
    expect_names(&rt, &names, &["1000000000.00001#2.data"]);
    Ok(())
}

fn expect_names(rt: &impl Abort, names: &[FileName], texts: &[&str]) {
    assert_eq!(rt; names.len(), texts.len());
    for (name, text) in names.iter().zip(texts) {
        assert_eq!(rt; Some(*name), FileName::read(text));
    }
}

#[test]
fn takes_the_place_of_the_plain_name(rt: HostRuntime) -> Result<(), Fail> {
    let alloc = rt.alloc();
    let directory = directory(alloc, &["1000000000.00000#1.data"])?;
    let made = FileName::read("1000000000.00000#1#d.data").ok_or("name")?;
    let directory = directory.after(alloc, made)?;
    assert!(rt; directory.obsolete(alloc, false)?.is_empty());
    let entry = Entry {
        stamp: stamp(0)?,
        index: 1,
        durable: true,
    };
    assert_eq!(rt; directory.listing(alloc)?.entries(), [entry].as_slice());
    Ok(())
}

#[test]
fn answers_once_a_name_is_gone(rt: HostRuntime) -> Result<(), Fail> {
    let alloc = rt.alloc();
    let texts = [
        "1000000000.00000#1.data",
        "1000000000.00000#1#d.data",
        "1000000000.00000#2.data",
        "1000000000.00001.ts",
    ];
    let directory = directory(alloc, &texts)?;
    // The name that is gone; a stamp and an index, whether their entry is durable, and whether the stamp has a tombstone.
    let cases = [
        ("1000000000.00000#3.data", 0, 1, Some(true), false),
        ("1000000000.00000#3.data", 0, 2, Some(false), false),
        ("1000000000.00000#3.data", 0, 3, None, false),
        ("1000000000.00000#3.data", 1, 1, None, true),
        ("1000000000.00000#1#d.data", 0, 1, Some(false), false),
        ("1000000000.00000#1.data", 0, 1, Some(true), false),
        ("1000000000.00000#2.data", 0, 2, None, false),
        ("1000000000.00001.ts", 1, 1, None, false),
    ];
    for (gone, later, index, durable, has_tombstone) in cases {
        let directory = directory.without(alloc, FileName::read(gone).ok_or("name")?)?;
        let stamp = stamp(later)?;
        let entry = durable.map(|durable| Entry {
            stamp,
            index,
            durable,
        });
        assert_eq!(rt; directory.entry(stamp, index), entry);
        assert_eq!(rt; directory.has_tombstone(stamp), has_tombstone);
    }
    Ok(())
}
