//! Hashes of suffix folders, tables of floors, and suffixes at which two lists differ.

ghost use Rattle.std.specs.Prelude.{◌≡◌, IfOk};
ghost use Rattle.sw_hashpath.specs.Place.{IsPlace};

use crate::{SuffixTable, differing, suffix_hash};
use hex::FromHex;
use std::alloc::Global;
use std::process::Abort;
use std::test::Fail;
use sw_hashdir::{Floor, FloorKind};
use sw_hashpath::{Place, place_of};
use sw_types::Stamp;

// The power of the partitions of these places: the first digit of a hash is its partition.
const POWER: u32 = 4;

// The place of a hash, whose digits these are.
fn place(digits: &str) -> Result<Place, Fail>
    ensures { IfOk result (λ place. IsPlace 4 place) }
{
    Ok(place_of(<[u8; 16] as FromHex>::from_hex(digits)?, POWER))
}

// The floor so many units after 1000000000.00000.
fn floor(later: u64, kind: FloorKind) -> Result<Floor, Fail> {
    let stamp = Stamp::make(100_000_000_000_000u64.saturating_add(later)).ok_or("stamp")?;
    Ok(Floor { stamp, kind })
}

#[test]
fn hashes_the_lines_of_floors(rt: HostRuntime) -> Result<(), Fail> {
    let durable = (
        place("900150983cd24fb0d6963f7d28e17f72")?,
        floor(0, FloorKind::Durable)?,
    );
    let tombstone = (
        place("d41d8cd98f00b204e9800998ecf8427e")?,
        floor(1, FloorKind::Tombstone)?,
    );
    let floors = [durable, tombstone];
    // What Python's hashlib gives for the texts.
    let hashes = [
        "d41d8cd98f00b204e9800998ecf8427e",
        "80635d76f9bfedffd5a5770655d27f07",
        "fa3cff2ec98944a0ebbd0d7cfce3df9b",
    ];
    for (count, digits) in hashes.iter().enumerate() {
        let hash = <[u8; 16] as FromHex>::from_hex(*digits)?;
        assert_eq!(rt; suffix_hash(&floors[..count]), hash);
    }
    Ok(())
}

// Expects these suffixes with the hashes of these floors.
fn expect_hashes(
    rt: &impl Abort,
    alloc: Global,
    table: &mut SuffixTable,
    part: u32,
    suffixes: &[(u16, &[(Place, Floor)])],
) -> Result<(), Fail>
    ensures { table.new ≡ table.old }
{
    let hashes = table.hashes(alloc, part)?;
    assert_eq!(rt; hashes.len(), suffixes.len());
    for (found, (suffix, floors)) in hashes.iter().zip(suffixes) {
        assert_eq!(rt; *found, (*suffix, suffix_hash(floors)));
    }
    Ok(())
}

// Gives a place the floor so many units after 1000000000.00000.
fn give(table: &mut SuffixTable, place: Place, later: u64, kind: FloorKind) -> Result<(), Fail>
    requires { IsPlace table.old.power place }
    ensures { table.new.power ≡ table.old.power }
{
    let floor = floor(later, kind)?;
    table.set(place, Some(floor))?;
    Ok(())
}

#[test]
fn keeps_the_hashes_of_suffixes(rt: HostRuntime) -> Result<(), Fail> {
    let alloc = rt.alloc();
    let early = place("10000000000000000000000000000f72")?;
    let late = place("1f000000000000000000000000000f72")?;
    let alone = place("10000000000000000000000000000001")?;
    let apart = place("20000000000000000000000000000f72")?;
    let mut table = SuffixTable::new(alloc, POWER);
    assert_eq!(rt; table.power(), POWER);
    give(&mut table, late, 0, FloorKind::Durable)?;
    give(&mut table, apart, 1, FloorKind::Durable)?;
    give(&mut table, alone, 2, FloorKind::Durable)?;
    give(&mut table, early, 3, FloorKind::Durable)?;
    let one = [(alone, floor(2, FloorKind::Durable)?)];
    let two = [
        (early, floor(3, FloorKind::Durable)?),
        (late, floor(0, FloorKind::Durable)?),
    ];
    let other = [(apart, floor(1, FloorKind::Durable)?)];
    expect_hashes(&rt, alloc, &mut table, 0, &[])?;
    expect_hashes(&rt, alloc, &mut table, 1, &[(1, &one), (3954, &two)])?;
    expect_hashes(&rt, alloc, &mut table, 1, &[(1, &one), (3954, &two)])?;
    expect_hashes(&rt, alloc, &mut table, 2, &[(3954, &other)])?;
    give(&mut table, late, 4, FloorKind::Tombstone)?;
    let two = [
        (early, floor(3, FloorKind::Durable)?),
        (late, floor(4, FloorKind::Tombstone)?),
    ];
    expect_hashes(&rt, alloc, &mut table, 1, &[(1, &one), (3954, &two)])?;
    table.set(early, None)?;
    table.set(alone, None)?;
    let one = [(late, floor(4, FloorKind::Tombstone)?)];
    expect_hashes(&rt, alloc, &mut table, 1, &[(3954, &one)])?;
    expect_hashes(&rt, alloc, &mut table, 2, &[(3954, &other)])?;
    Ok(())
}

#[test]
fn finds_where_lists_differ(rt: HostRuntime) -> Result<(), Fail> {
    let hash = |byte| [byte; 16];
    let left = [
        (7, hash(1)),
        (1, hash(2)),
        (4095, hash(3)),
        (2, hash(4)),
        (1, hash(5)),
    ];
    let right = [(2, hash(4)), (7, hash(6)), (1, hash(2)), (0, hash(7))];
    let found = differing(rt.alloc(), &left, &right)?;
    assert_eq!(rt; found.as_slice(), [0, 7, 4095].as_slice());
    let found = differing(rt.alloc(), &left, &left)?;
    assert!(rt; found.is_empty());
    let found = differing(rt.alloc(), &[], &right)?;
    assert_eq!(rt; found.as_slice(), [0, 1, 2, 7].as_slice());
    Ok(())
}
