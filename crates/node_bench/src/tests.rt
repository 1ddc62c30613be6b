//! Messages to a primary and to a handoff, a disk that fails or stops within them, a folder of many names, a full disk, what is mounted, and bytes that are not the
//! archive.

use crate::object::{Request, archive, put_frag, stamp};
use crate::server::Server;
use crate::telling::tell;
use anyhow::{Result, bail, ensure};
use std::alloc::Global;
use std::process::Abort;
use std::test::Fail;
use sw_disk::Disk;
use sw_hashdir::Entry;
use sw_hashpath::Place;
use sw_memdisk::MemDisk;
use sw_message::{Msg, Reply};
use sw_types::{Bytes, Name, Policy, Stamp};

// The hash of the object's place.
const HASH: [u8; 16] = [
    0x8a, 0xc2, 0xbf, 0x59, 0x55, 0x6b, 0x61, 0xbb, 0x5c, 0xc5, 0x21, 0xcc, 0xb5, 0x1c, 0x20, 0x0a,
];

// The server of a device over a new disk of so many bytes.
fn fresh(alloc: Global, device: u16, capacity: u64) -> Result<Server> {
    let disk = MemDisk::new(alloc, capacity, Vec::new(alloc));
    Server::start(alloc, device, disk)
}

// Sends these, and expects these answers.
fn expect_all(
    rt: &(impl Abort + AllocGlobal),
    server: &mut Server,
    answers: &[(Request, &str)],
) -> Result<()> {
    for (request, text) in answers {
        let told = request.tell(rt.alloc(), server)?;
        assert_eq!(rt; told.as_str(), *text);
    }
    Ok(())
}

// Sends a message, and expects this answer.
fn expect(
    rt: &(impl Abort + AllocGlobal),
    server: &mut Server,
    message: &Msg,
    text: &str,
) -> Result<()> {
    let told = tell(rt.alloc(), server, message)?;
    assert_eq!(rt; told.as_str(), text);
    Ok(())
}

// The hash of the suffix is what Python's hashlib gives for its text.
const PRIMARY: [(Request, &str); 29] = [
    (Request::Ask, "held"),
    (Request::Commit(0, 0), "missing"),
    (Request::Fetch(0, 0), "gone"),
    (Request::Remove(0, 0), "kept"),
    (Request::PutFrag(0, 0), "synced"),
    (Request::PutFrag(0, 0), "synced"),
    (Request::Ask, "held (1000000000.00000 0 plain)"),
    (Request::Commit(0, 0), "committed"),
    (Request::Commit(0, 0), "committed"),
    (Request::PutFrag(0, 0), "synced"),
    (Request::Remove(0, 0), "kept"),
    (Request::Fetch(0, 0), "fragment of 103 bytes"),
    (Request::Delete(0), "superseded (1000000000.00000 durable)"),
    (Request::Parts, "parts 0"),
    (
        Request::Suffixes(0),
        "suffixes (00a 61ae7c41d77054c050f5254e6707eb6a)",
    ),
    (
        Request::Places(0),
        "places 8ac2bf59556b61bb5cc521ccb51c200a",
    ),
    (Request::Suffixes(1), "suffixes"),
    (Request::Places(1), "places"),
    (Request::Delete(1), "deleted yes"),
    (
        Request::PutFrag(0, 0),
        "superseded (1000000000.00001 tombstone)",
    ),
    (
        Request::Commit(0, 0),
        "superseded (1000000000.00001 tombstone)",
    ),
    (
        Request::PutFrag(1, 0),
        "superseded (1000000000.00001 tombstone)",
    ),
    (Request::Fetch(0, 0), "gone (1000000000.00001 tombstone)"),
    (Request::Delete(1), "deleted no"),
    (Request::Delete(2), "deleted no"),
    (
        Request::Delete(1),
        "superseded (1000000000.00002 tombstone)",
    ),
    (Request::Ask, "held (1000000000.00002 tombstone)"),
    (Request::PutFrag(3, 0), "synced"),
    (Request::Delete(2), "deleted no"),
];

#[test]
fn answers_as_a_primary(rt: HostRuntime) -> Result<(), Fail> {
    assert!(rt; fresh(rt.alloc(), 4, 1 << 20).is_err());
    let mut server = fresh(rt.alloc(), 0, 1 << 20)?;
    expect_all(&rt, &mut server, &PRIMARY)?;
    Ok(())
}

const HANDOFF: [(Request, &str); 16] = [
    (Request::Remove(0, 0), "missing"),
    (Request::PutFrag(0, 0), "synced"),
    (Request::Remove(0, 0), "removed"),
    (Request::Remove(0, 0), "missing"),
    (Request::Ask, "held"),
    (Request::PutFrag(0, 2), "synced"),
    (Request::Commit(0, 2), "committed"),
    (Request::PutFrag(1, 0), "synced"),
    (Request::Commit(1, 0), "committed"),
    (
        Request::Ask,
        "held (1000000000.00000 2 durable) (1000000000.00001 0 durable)",
    ),
    (
        Request::PutFrag(0, 1),
        "superseded (1000000000.00001 durable)",
    ),
    (Request::PutFrag(1, 1), "synced"),
    (Request::Delete(2), "deleted yes"),
    (Request::Remove(0, 2), "removed"),
    (
        Request::Commit(0, 2),
        "superseded (1000000000.00002 tombstone)",
    ),
    (
        Request::Ask,
        "held (1000000000.00001 0 durable) (1000000000.00001 1 plain) (1000000000.00002 tombstone)",
    ),
];

#[test]
fn answers_as_a_handoff(rt: HostRuntime) -> Result<(), Fail> {
    let mut server = fresh(rt.alloc(), 3, 1 << 20)?;
    expect_all(&rt, &mut server, &HANDOFF)?;
    Ok(())
}

// Messages to a handoff, its answers, what it answers where one that was done comes again, and what it has behind each.
const SCRIPT: [(Request, &str, &str, &str); 7] = [
    (
        Request::PutFrag(0, 2),
        "synced",
        "synced",
        "held (1000000000.00000 2 plain)",
    ),
    (
        Request::Commit(0, 2),
        "committed",
        "committed",
        "held (1000000000.00000 2 durable)",
    ),
    (
        Request::PutFrag(1, 0),
        "synced",
        "synced",
        "held (1000000000.00000 2 durable) (1000000000.00001 0 plain)",
    ),
    (
        Request::Commit(1, 0),
        "committed",
        "committed",
        "held (1000000000.00000 2 durable) (1000000000.00001 0 durable)",
    ),
    (
        Request::Fetch(1, 0),
        "fragment of 103 bytes",
        "fragment of 103 bytes",
        "held (1000000000.00000 2 durable) (1000000000.00001 0 durable)",
    ),
    (
        Request::Delete(2),
        "deleted yes",
        "deleted no",
        "held (1000000000.00000 2 durable) (1000000000.00001 0 durable) (1000000000.00002 tombstone)",
    ),
    (Request::Remove(0, 2), "removed", "missing", LAST),
];

const LAST: &str = "held (1000000000.00001 0 durable) (1000000000.00002 tombstone)";

const FAULT: &str = "disk-fault";

// So many device calls they make, with that of the mount.
const CALLS: u64 = 27;

// Sends them, each one again that a failure answered, over a disk one of whose calls fails, and answers how many failures there were.
fn run_failing(rt: &(impl Abort + AllocGlobal), call: u64) -> Result<u32> {
    let alloc = rt.alloc();
    let disk = MemDisk::new(alloc, 1 << 20, vec![in alloc; call]?);
    let mut server = Server::start(alloc, 3, disk)?;
    let mut faults = 0u32;
    for (request, text, done, _) in SCRIPT {
        let told = request.tell(alloc, &mut server)?;
        if told.as_str() == FAULT {
            faults = faults.saturating_add(1);
            // What a message had already taken away, it does not find when it comes again.
            let again = request.tell(alloc, &mut server)?;
            assert!(rt;
                [text, done].contains(&again.as_str()),
                "call {call}: {again}"
            );
        } else {
            assert_eq!(rt; told.as_str(), text, "call {call}");
        }
    }
    if faults > 0 {
        expect_all(rt, &mut server, &[(Request::Ask, LAST)])?;
    }
    Ok(faults)
}

// Each device call behind the mount fails once: one message is answered so, and once it came again all is as if none had failed.
#[test]
fn each_device_call_fails(rt: HostRuntime) -> Result<(), Fail> {
    for call in 2..=CALLS {
        assert_eq!(rt; run_failing(&rt, call)?, 1, "call {call}");
    }
    assert_eq!(rt; run_failing(&rt, CALLS + 1)?, 0);
    Ok(())
}

// Sends them over a disk that stops behind so many calls, crashes then, and keeps so many changes of names: what is mounted is what was
// there before the message within which it stopped, or behind that. Answers whether it stopped.
fn run_stopped(rt: &(impl Abort + AllocGlobal), calls: u64, pick: u64) -> Result<bool> {
    let alloc = rt.alloc();
    let mut disk = MemDisk::new(alloc, 1 << 20, Vec::new(alloc));
    disk.fuse(calls);
    let mut server = Server::start(alloc, 3, disk)?;
    let mut before = "held";
    for (request, _, _, after) in SCRIPT {
        let told = request.tell(alloc, &mut server)?;
        if told.as_str() == FAULT {
            let mut disk = server.stop();
            disk.crash(pick);
            let mut server = Server::start(alloc, 3, disk)?;
            let has = Request::Ask.tell(alloc, &mut server)?;
            assert!(rt;
                [before, after].contains(&has.as_str()),
                "behind {calls}, {pick}"
            );
            return Ok(true);
        }
        before = after;
    }
    Ok(false)
}

#[test]
fn stops_behind_each_device_call(rt: HostRuntime) -> Result<(), Fail> {
    for calls in 1..=CALLS {
        for pick in 0..2 {
            assert_eq!(rt; run_stopped(&rt, calls, pick)?, calls < CALLS);
        }
    }
    Ok(())
}

// A folder has so many archives and as many tombstones. A handoff keeps them all.
const PAIRS: u32 = 1_500;

// The archive of index 0 of a pair, which is not durable, and the stamp of its tombstone.
fn pair(number: u32) -> (Entry, Stamp) {
    let later = number.saturating_mul(2);
    let archive = Entry {
        stamp: stamp(later),
        index: 0,
        durable: false,
    };
    (archive, stamp(later.saturating_add(1)))
}

// Stores them.
fn store_pair(alloc: Global, server: &mut Server, number: u32) -> Result<()> {
    let later = number.saturating_mul(2);
    let stored = Request::PutFrag(later, 0).tell(alloc, server)?;
    ensure!(stored.as_str() == "synced", "no archive is stored");
    let buried = Request::Delete(later.saturating_add(1)).tell(alloc, server)?;
    ensure!(buried.as_str() == "deleted no", "no tombstone is stored");
    Ok(())
}

// An Ask lists each pair, and nothing else.
fn expect_pairs(rt: &(impl Abort + AllocGlobal), server: &mut Server) -> Result<()> {
    let ask = Request::Ask.message(rt.alloc(), server.cluster())?;
    let Reply::Held(listing) = server.answer(rt.alloc(), &ask)? else {
        bail!("nothing is listed");
    };
    assert_eq!(rt; listing.entries().len(), PAIRS as usize);
    assert_eq!(rt; listing.tombstones().len(), PAIRS as usize);
    let listed = listing.entries().iter().zip(listing.tombstones());
    for (number, (archive, tombstone)) in (0..PAIRS).zip(listed) {
        assert_eq!(rt; (*archive, *tombstone), pair(number));
    }
    Ok(())
}

// As a folder grows, no answer comes to be want of memory, and neither does a mount. A primary keeps the last name alone.
#[test]
fn lists_each_of_three_thousand_names(rt: HostRuntime) -> Result<(), Fail> {
    let alloc = rt.alloc();
    let mut server = fresh(alloc, 3, 1 << 20)?;
    for number in 0..PAIRS {
        store_pair(alloc, &mut server, number)?;
    }
    expect_pairs(&rt, &mut server)?;
    let mut server = Server::start(alloc, 3, server.stop())?;
    expect_pairs(&rt, &mut server)?;
    let mut server = Server::start(alloc, 0, server.stop())?;
    let last = [(Request::Ask, "held (1000000000.02999 tombstone)")];
    expect_all(&rt, &mut server, &last)?;
    Ok(())
}

// Over 102 bytes, which are too few, and over 205, which are too few for two archives.
const FULL: [(Request, &str); 5] = [
    (Request::PutFrag(0, 0), "no-space 103 102"),
    (Request::Ask, "held"),
    (Request::Commit(0, 0), "missing"),
    (Request::Delete(0), "deleted no"),
    (
        Request::PutFrag(0, 0),
        "superseded (1000000000.00000 tombstone)",
    ),
];

const FULL_WITH_ONE: [(Request, &str); 6] = [
    (Request::PutFrag(0, 0), "synced"),
    (Request::PutFrag(1, 0), "no-space 103 102"),
    (Request::PutFrag(0, 0), "synced"),
    (Request::Commit(0, 0), "committed"),
    (Request::Delete(1), "deleted yes"),
    (Request::PutFrag(2, 0), "synced"),
];

#[test]
fn tells_that_the_disk_is_full(rt: HostRuntime) -> Result<(), Fail> {
    let mut server = fresh(rt.alloc(), 0, 102)?;
    expect_all(&rt, &mut server, &FULL)?;
    let mut server = fresh(rt.alloc(), 0, 205)?;
    expect_all(&rt, &mut server, &FULL_WITH_ONE)?;
    Ok(())
}

// Keeps a file that is not there yet, stable.
fn keep(alloc: Global, disk: &mut MemDisk, folder: &str, name: &str, bytes: &[u8]) -> Result<()> {
    ensure!(
        folder.len() <= 64 && name.len() <= 96,
        "the name is too long"
    );
    disk.ready(alloc, folder, 1)?;
    disk.write_tmp(alloc, bytes)?;
    disk.sync_tmp()?;
    if disk.file(folder, name).is_some() {
        bail!("it is there");
    }
    disk.publish(folder, name)?;
    disk.sync_dir(folder)?;
    Ok(())
}

// A folder whose text is none of a place's; one of the object's, in a partition that is not that of its hash; and that of
// the object.
const FOLDERS: [&str; 3] = [
    "objects/0/00b/8ac2bf59556b61bb5cc521ccb51c200a",
    "objects/1/00a/8ac2bf59556b61bb5cc521ccb51c200a",
    "objects/0/00a/8ac2bf59556b61bb5cc521ccb51c200a",
];

// What a folder has before it is mounted, ascending: a tombstone and an archive below the floor, the floor with both its
// names, a newer archive that is not durable, and a name that is none of these.
const TOMBSTONE: &str = "0999999999.00000.ts";

const OLDER: &str = "1000000000.00000#0#d.data";

const FLOOR: &str = "1000000000.00001#0#d.data";

const FLOOR_PLAIN: &str = "1000000000.00001#0.data";

const NEWER: &str = "1000000000.00002#0.data";

const NOTES: &str = "notes";

const LEFT: [&str; 6] = [TOMBSTONE, OLDER, FLOOR, FLOOR_PLAIN, NEWER, NOTES];

// How many device calls it takes to leave these in each of the folders.
const LEAVING: u64 = 72;

// The device that mounts them, how many device calls that takes, and what each folder then has. The folders and the folder of
// the object are listed, that one is synced, and where names are removed it is synced again.
#[derive(Clone, Copy)]
struct Mount {
    device: u16,
    calls: u64,
    names: [&'static [&'static str]; 3],
}

const MOUNTS: [Mount; 2] = [
    Mount {
        device: 0,
        calls: 7,
        names: [&LEFT, &LEFT, &[FLOOR, NEWER, NOTES]],
    },
    Mount {
        device: 3,
        calls: 5,
        names: [&LEFT, &LEFT, &[TOMBSTONE, OLDER, FLOOR, NEWER, NOTES]],
    },
];

const MOUNTED: [(Request, &str); 3] = [
    (
        Request::PutFrag(0, 1),
        "superseded (1000000000.00001 durable)",
    ),
    (Request::Fetch(1, 0), "spoiled, no archive"),
    (
        Request::Places(0),
        "places 8ac2bf59556b61bb5cc521ccb51c200a",
    ),
];

// The server of a device over a disk with these in each of the folders. A later device call fails, by its number, if any.
fn over_left(alloc: Global, device: u16, failing: Option<u64>) -> Result<Server> {
    let mut calls = Vec::new(alloc);
    if let Some(call) = failing {
        calls.push(LEAVING.saturating_add(call))?;
    }
    let mut disk = MemDisk::new(alloc, 1 << 20, calls);
    for folder in FOLDERS {
        leave(alloc, &mut disk, folder)?;
    }
    Server::start(alloc, device, disk)
}

// Leaves them in a folder.
fn leave(alloc: Global, disk: &mut MemDisk, folder: &str) -> Result<()> {
    for name in LEFT {
        keep(alloc, disk, folder, name, b"")?;
    }
    Ok(())
}

// The folder has files of these names, ascending, and no others.
fn expect_names(rt: &impl Abort, disk: &MemDisk, folder: &str, names: &[&str]) {
    for place in 0..=names.len() {
        assert_eq!(rt; disk.name_at(folder, place), names.get(place).copied());
    }
}

#[test]
fn mounts_what_is_left(rt: HostRuntime) -> Result<(), Fail> {
    for mount in MOUNTS {
        for call in 1..=mount.calls {
            assert!(rt; over_left(rt.alloc(), mount.device, Some(call)).is_err());
        }
        expect_mount(&rt, mount)?;
    }
    Ok(())
}

fn expect_mount(rt: &(impl Abort + AllocGlobal), mount: Mount) -> Result<()> {
    let disk = over_left(rt.alloc(), mount.device, None)?.stop();
    assert_eq!(rt; disk.calls(), LEAVING.saturating_add(mount.calls));
    for (folder, names) in FOLDERS.into_iter().zip(mount.names) {
        expect_names(rt, &disk, folder, names);
    }
    let mut server = Server::start(rt.alloc(), mount.device, disk)?;
    expect_all(rt, &mut server, &MOUNTED)
}

// An archive of `abc`: the object's name, how many units its stamp is later, its index, how many parity fragments there are,
// of how many bytes a segment is at most, and how many of its bytes there are, with one of them damaged or not; the place and
// the index that it is stored for, and what is told of it.
#[derive(Clone, Copy)]
struct Put {
    object: &'static [u8],
    later: u32,
    index: u32,
    parity: u32,
    segment: u32,
    length: usize,
    is_damaged: bool,
    hash: [u8; 16],
    asked: u32,
    text: &'static str,
}

// That of the object under the built-in ring's policy, of index 1.
const RIGHT: Put = Put {
    object: b"o",
    later: 0,
    index: 1,
    parity: 1,
    segment: 1 << 20,
    length: 103,
    is_damaged: false,
    hash: HASH,
    asked: 1,
    text: "fragment of 103 bytes",
};

const PUTS: [Put; 11] = [
    RIGHT,
    Put {
        hash: [7; 16],
        text: "spoiled by its name",
        ..RIGHT
    },
    Put {
        object: b"p",
        text: "spoiled by its name",
        ..RIGHT
    },
    Put {
        later: 1,
        text: "spoiled by its stamp",
        ..RIGHT
    },
    Put {
        asked: 0,
        text: "spoiled by its index",
        ..RIGHT
    },
    Put {
        asked: 3,
        text: "spoiled by its index",
        ..RIGHT
    },
    Put {
        asked: 3,
        index: 3,
        parity: 2,
        text: "spoiled by its code",
        ..RIGHT
    },
    Put {
        parity: 2,
        text: "spoiled by its code",
        ..RIGHT
    },
    Put {
        segment: 4096,
        text: "spoiled by its code",
        ..RIGHT
    },
    Put {
        is_damaged: true,
        text: "spoiled by damage",
        ..RIGHT
    },
    Put {
        length: 102,
        text: "spoiled, no archive",
        ..RIGHT
    },
];

impl Put {
    fn bytes(self, alloc: Global) -> Result<Vec<u8>> {
        let policy = Policy::make(2, self.parity, 2, 1, self.segment)?;
        let name = Name::make(alloc, b"a", b"c", self.object)?;
        let whole = archive(alloc, &policy, &name, self.later, self.index, b"abc")?;
        let mut bytes = whole.into_vec();
        bytes.truncate(self.length);
        if self.is_damaged
            && let Some(byte) = bytes.get_mut(86)
        {
            *byte ^= 1;
        }
        Ok(bytes)
    }

    fn place(self) -> Place {
        Place::new(0, self.hash)
    }

    // What is told where the bytes are stored, and which partitions then have a file.
    fn stored(self) -> (&'static str, &'static str) {
        if self.text == RIGHT.text {
            ("synced", "parts 0")
        } else {
            (self.text, "parts")
        }
    }
}

// Where it is not the archive, the same is told of bytes that are to be stored and of a file.
#[test]
fn refuses_what_is_not_the_archive(rt: HostRuntime) -> Result<(), Fail> {
    for put in PUTS {
        let bytes = put.bytes(rt.alloc())?;
        expect_stored(&rt, put, &bytes)?;
        expect_fetched(&rt, put, &bytes)?;
    }
    Ok(())
}

fn expect_stored(rt: &(impl Abort + AllocGlobal), put: Put, bytes: &[u8]) -> Result<()> {
    let mut server = fresh(rt.alloc(), 0, 1 << 20)?;
    let bytes = Bytes::from_slice(rt.alloc(), bytes)?;
    let (stored, parts) = put.stored();
    expect(
        rt,
        &mut server,
        &put_frag(put.place(), 0, put.asked, bytes),
        stored,
    )?;
    expect(rt, &mut server, &Msg::Parts, parts)
}

fn expect_fetched(rt: &(impl Abort + AllocGlobal), put: Put, bytes: &[u8]) -> Result<()> {
    let mut server = holding(rt.alloc(), put, bytes)?;
    let fetch = Msg::Fetch {
        place: put.place(),
        stamp: stamp(0),
        index: put.asked,
    };
    expect(rt, &mut server, &fetch, put.text)
}

// A server whose disk has these bytes as the archive that is asked for.
fn holding(alloc: Global, put: Put, bytes: &[u8]) -> Result<Server> {
    let mut disk = MemDisk::new(alloc, 1 << 20, Vec::new(alloc));
    let folder = put.place().folder(alloc)?;
    let file = format!(in alloc; "{}#{}.data", stamp(0), put.asked)?;
    keep(alloc, &mut disk, folder.as_str(), file.as_str(), bytes)?;
    Server::start(alloc, 0, disk)
}
