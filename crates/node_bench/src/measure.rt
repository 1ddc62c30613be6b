//! What messages cost.

use crate::object::{OVERHEAD, Request, archive, name, place, put_frag, stamp};
use crate::server::Server;
use anyhow::{Result, bail, ensure};
use measuring::pattern;
use std::alloc::Global;
use std::time::{CpuClock, Duration};
use sw_hashpath::place_of;
use sw_memdisk::MemDisk;
use sw_message::{Msg, Reply};

/// What is measured: an archive of so many bytes, on a disk with so many other folders. A disk keeps the bytes of removed
/// files for its record, so each has so many rounds and is then made anew.
#[derive(Clone, Copy)]
struct Case {
    bytes: usize,
    folders: u32,
    rounds: u32,
}

/// How long storing and committing took, in all, in so many rounds.
#[derive(Clone, Copy)]
struct Cost {
    store: Duration,
    commit: Duration,
    rounds: u32,
}

/// Measures each case for about so many seconds, and prints a line for it: what it is, and the nanoseconds that a message
/// took.
pub fn measure(rt: &(impl Print + CpuClock + AllocGlobal), seconds: u64) -> Result<()> {
    for (bytes, rounds) in [(1 << 10, 1_000), (1 << 20, 50)] {
        for folders in [10, 10_000] {
            let case = Case {
                bytes,
                folders,
                rounds,
            };
            print_case(rt, case, seconds)?;
        }
    }
    for entries in [1, 10, 100] {
        let cost = cost_to_ask(rt, entries, seconds)?;
        println!(rt; "{} entries ask {} ns", entries, cost.as_nanos())?;
    }
    Ok(())
}

// Measures a case.
fn print_case(rt: &(impl Print + CpuClock + AllocGlobal), case: Case, seconds: u64) -> Result<()> {
    let cost = cost_of(rt, case, seconds)?;
    let rounds = u128::from(cost.rounds.max(1));
    println!(rt;
        "{} bytes {} folders put {} commit {} ns",
        case.bytes,
        case.folders,
        cost.store.as_nanos() / rounds,
        cost.commit.as_nanos() / rounds
    )?;
    Ok(())
}

// The cost of a case, on disks that are made anew until the rounds took so many seconds.
fn cost_of(clock: &(impl CpuClock + AllocGlobal), case: Case, seconds: u64) -> Result<Cost> {
    let alloc = clock.alloc();
    let mut cost = Cost {
        store: Duration::ZERO,
        commit: Duration::ZERO,
        rounds: 0,
    };
    // The two data fragments of a body are half of it each.
    let body = pattern(alloc, case.bytes.saturating_sub(OVERHEAD).saturating_mul(2))?;
    let limit = Duration::from_secs(seconds);
    for _ in 0..10_000u32 {
        let mut server = with_folders(alloc, case.folders)?;
        for round in 0..case.rounds {
            one_round(clock, &mut server, round, &body, &mut cost)?;
        }
        if cost.store.saturating_add(cost.commit) >= limit {
            break;
        }
    }
    Ok(cost)
}

// A primary whose disk has so many folders, each with a tombstone, at the places of hashes that end with a number.
fn with_folders(alloc: Global, folders: u32) -> Result<Server> {
    let mut server = Server::start(alloc, 0, MemDisk::new(alloc, 1 << 40, Vec::new(alloc)))?;
    for number in 0..folders {
        let [a, b, c, d] = number.to_be_bytes();
        let hash = [0, 0, 0, 0, 0, 0, 0, 0, 0, 0, 0, 0, a, b, c, d];
        let place = place_of(hash, server.cluster().part_power());
        let stamp = stamp(0);
        handle(alloc, &mut server, &Msg::Delete { place, stamp })?;
    }
    Ok(server)
}

// Has a message handled, which does what it asks for.
fn handle(alloc: Global, server: &mut Server, message: &Msg) -> Result<()> {
    let reply = server.answer(alloc, message)?;
    ensure!(
        matches!(
            reply,
            Reply::Synced | Reply::Committed | Reply::Deleted { .. } | Reply::Held(_)
        ),
        "a message is not done"
    );
    Ok(())
}

// How long it takes to handle a message so often.
fn time_of(
    clock: &(impl CpuClock + AllocGlobal),
    server: &mut Server,
    message: &Msg,
    times: u32,
) -> Result<Duration> {
    let begun = clock.thread_cpu_time()?;
    for _ in 0..times {
        handle(clock.alloc(), server, message)?;
    }
    Ok(clock.thread_cpu_time()?.saturating_sub(begun))
}

// Stores an archive and commits it, which removes the one of the round before, and adds what that took.
fn one_round(
    clock: &(impl CpuClock + AllocGlobal),
    server: &mut Server,
    round: u32,
    body: &[u8],
    cost: &mut Cost,
) -> Result<()> {
    let put = put_of(clock.alloc(), server, round, body)?;
    let commit = Request::Commit(round, 0).message(clock.alloc(), server.cluster())?;
    let store_time = time_of(clock, server, &put, 1)?;
    let commit_time = time_of(clock, server, &commit, 1)?;
    cost.store = cost.store.saturating_add(store_time);
    cost.commit = cost.commit.saturating_add(commit_time);
    cost.rounds = cost.rounds.saturating_add(1);
    Ok(())
}

// The message that stores the archive of a round.
fn put_of(alloc: Global, server: &Server, round: u32, body: &[u8]) -> Result<Msg> {
    let name = name(alloc)?;
    let place = place(alloc, server.cluster())?;
    let bytes = archive(alloc, server.cluster().policy(), &name, round, 0, body)?;
    Ok(put_frag(place, round, 0, bytes))
}

// How long an Ask takes in a folder of so many entries that are not durable.
fn cost_to_ask(
    clock: &(impl CpuClock + AllocGlobal),
    entries: u32,
    seconds: u64,
) -> Result<Duration> {
    let mut server = with_entries(clock.alloc(), entries)?;
    let ask = Request::Ask.message(clock.alloc(), server.cluster())?;
    let mut taken = Duration::ZERO;
    for hundreds in 1..10_000_000u32 {
        taken = taken.saturating_add(time_of(clock, &mut server, &ask, 100)?);
        if taken.as_secs() >= seconds {
            return Ok(taken / hundreds / 100);
        }
    }
    bail!("the clock stands still")
}

// A primary whose folder of the object has so many entries.
fn with_entries(alloc: Global, entries: u32) -> Result<Server> {
    let mut server = with_folders(alloc, 0)?;
    for later in 0..entries {
        let _ = Request::PutFrag(later, 0).tell(alloc, &mut server)?;
    }
    Ok(server)
}
