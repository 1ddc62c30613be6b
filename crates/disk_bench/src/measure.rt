//! What storing and committing an archive cost.

ghost use Rattle.std.specs.Prelude.{◌≡◌, true, false};
ghost use Rattle.sw_hashpath.specs.declared.file_name.FileName.TheVariants.{Data};

use crate::folder::{FOLDER, has_file, stamp};
use anyhow::{Result, bail, ensure};
use measuring::pattern;
use std::alloc::Global;
use std::time::{CpuClock, Duration};
use sw_disk::Disk;
use sw_diskfile::{commit, drop_entry, store};
use sw_hashdir::Entry;
use sw_hashpath::FileName;
use sw_memdisk::MemDisk;
use sw_types::Stamp;

/// What is measured: an archive of so many bytes, in a folder with so many other files, on a disk with so many other folders,
/// where so many rounds went before. A disk keeps the bytes of removed files for its record, so each has so many rounds and is
/// then made anew.
#[derive(Clone, Copy, Debug)]
struct Case {
    bytes: usize,
    files: u64,
    folders: u64,
    before: u64,
    rounds: u64,
}

/// How long storing and committing took, in all, in so many rounds.
#[derive(Clone, Copy, Debug)]
struct Cost {
    store: Duration,
    commit: Duration,
    rounds: u32,
}

/// Measures each case for about so many seconds, and prints a line for it: what it is, and the nanoseconds that a store and
/// a commit took.
pub fn measure(rt: &(impl Print + CpuClock + AllocGlobal), seconds: u64) -> Result<()> {
    for (bytes, rounds) in [(1 << 10, 1_000), (1 << 20, 50)] {
        for files in [1, 100] {
            for folders in [10, 10_000] {
                let case = Case {
                    bytes,
                    files,
                    folders,
                    before: 0,
                    rounds,
                };
                print_case(rt, case, seconds)?;
            }
        }
    }
    for before in [100, 10_000] {
        let case = Case {
            bytes: 1 << 10,
            files: 1,
            folders: 10,
            before,
            rounds: 1_000,
        };
        print_case(rt, case, seconds)?;
    }
    Ok(())
}

// Measures a case.
fn print_case(rt: &(impl Print + CpuClock + AllocGlobal), case: Case, seconds: u64) -> Result<()> {
    let cost = cost_of(rt, case, seconds)?;
    println!(rt;
        "{} {} {} {} store {} commit {} ns",
        case.bytes,
        case.files,
        case.folders,
        case.before,
        mean(cost.store, cost.rounds),
        mean(cost.commit, cost.rounds)
    )?;
    Ok(())
}

// The nanoseconds of one of so many rounds.
fn mean(time: Duration, rounds: u32) -> u128 {
    time.as_nanos() / u128::from(rounds.max(1))
}

// The cost of a case, on disks that are made anew until the rounds took so many seconds.
fn cost_of(clock: &(impl CpuClock + AllocGlobal), case: Case, seconds: u64) -> Result<Cost> {
    let mut cost = Cost {
        store: Duration::ZERO,
        commit: Duration::ZERO,
        rounds: 0,
    };
    let bytes = pattern(clock.alloc(), case.bytes)?;
    let limit = Duration::from_secs(seconds);
    for _ in 0..10_000u32 {
        let mut disk = prepared(clock.alloc(), case)?;
        for round in 0..case.rounds {
            let stamp = stamp(1_000_000u64.saturating_add(round))?;
            one_round(clock, &mut disk, stamp, &bytes, &mut cost)?;
        }
        if cost.store.saturating_add(cost.commit) >= limit {
            break;
        }
    }
    Ok(cost)
}

// A disk for a case.
fn prepared(alloc: Global, case: Case) -> Result<MemDisk> {
    let mut disk = MemDisk::new(alloc, 1 << 40, Vec::new(alloc));
    for folder in 0..case.folders {
        let folder = format!(in alloc; "other/{}", folder)?;
        fill(alloc, &mut disk, folder.as_str(), 1)?;
    }
    fill(alloc, &mut disk, FOLDER, case.files)?;
    for round in 0..case.before {
        keep_and_drop(alloc, &mut disk, stamp(500_000u64.saturating_add(round))?)?;
    }
    Ok(disk)
}

// Stores so many empty archives in a folder.
fn fill(alloc: Global, disk: &mut MemDisk, folder: &str, files: u64) -> Result<()> {
    ensure!(folder.len() <= 64, "a folder's name is too long");
    for file in 0..files {
        let stamp = stamp(file)?;
        let name = FileName::Data {
            stamp,
            index: 0,
            durable: false,
        };
        if has_file(alloc, disk, folder, &name)? {
            bail!("it is there");
        }
        store(alloc, disk, folder, stamp, 0, b"")?;
    }
    Ok(())
}

// Stores an empty archive in the folder, commits it and removes it: three changes of names more in the disk's record.
fn keep_and_drop(alloc: Global, disk: &mut MemDisk, stamp: Stamp) -> Result<()> {
    let (plain, durable) = names_of(stamp);
    if has_file(alloc, disk, FOLDER, &plain)? {
        bail!("it is there");
    }
    store(alloc, disk, FOLDER, stamp, 0, b"")?;
    if !has_file(alloc, disk, FOLDER, &plain)? {
        bail!("it is lost");
    }
    if has_file(alloc, disk, FOLDER, &durable)? {
        bail!("it is durable");
    }
    commit(alloc, disk, FOLDER, stamp, 0)?;
    remove(alloc, disk, stamp)
}

// The names of the archive of index 0 at a stamp, plain and durable.
fn names_of(stamp: Stamp) -> (FileName, FileName)
    ensures plain { result.0 ≡ Data stamp 0 false }
    ensures durable { result.1 ≡ Data stamp 0 true }
{
    let name = |durable| FileName::Data {
        stamp,
        index: 0,
        durable,
    };
    (name(false), name(true))
}

// Removes the durable archive of index 0 at a stamp.
fn remove(alloc: Global, disk: &mut MemDisk, stamp: Stamp) -> Result<()> {
    let (_, durable) = names_of(stamp);
    if !has_file(alloc, disk, FOLDER, &durable)? {
        bail!("it is lost");
    }
    let entry = Entry {
        stamp,
        index: 0,
        durable: true,
    };
    Ok(drop_entry(alloc, disk, FOLDER, entry)?)
}

// Stores an archive in the folder, commits it and removes it, and adds what the first two took.
fn one_round(
    clock: &(impl CpuClock + AllocGlobal),
    disk: &mut MemDisk,
    stamp: Stamp,
    bytes: &[u8],
    cost: &mut Cost,
) -> Result<()> {
    let alloc = clock.alloc();
    let (plain, durable) = names_of(stamp);
    if has_file(alloc, disk, FOLDER, &plain)? {
        bail!("it is there");
    }
    let begun = clock.thread_cpu_time()?;
    store(alloc, disk, FOLDER, stamp, 0, bytes)?;
    let stored = clock.thread_cpu_time()?;
    if !has_file(alloc, disk, FOLDER, &plain)? {
        bail!("it is lost");
    }
    if has_file(alloc, disk, FOLDER, &durable)? {
        bail!("it is durable");
    }
    let ready = clock.thread_cpu_time()?;
    commit(alloc, disk, FOLDER, stamp, 0)?;
    let committed = clock.thread_cpu_time()?;
    cost.store = cost.store.saturating_add(stored.saturating_sub(begun));
    cost.commit = cost.commit.saturating_add(committed.saturating_sub(ready));
    cost.rounds = cost.rounds.saturating_add(1);
    remove(alloc, disk, stamp)
}
