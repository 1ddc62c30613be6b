//! Syncs driven by hand to each of their ends.

ghost use Rattle.std.specs.Prelude.{◌≡◌};
ghost use Rattle.sw_ring.specs.Ring.{is_among};

use crate::tests::Answer::{
    Archive, Committed, Deleted, Fault, Gone, Held, Newer, Other, Silence, Synced,
};
use crate::{Failure, SyncEnd, SyncJob};
use std::alloc::Global;
use std::test::Fail;
use sw_archive::{ArchiveBytes, make_archive};
use sw_hashdir::{Floor, FloorKind, HashDir, Listing};
use sw_message::{Foreign, Miss, Msg, Operation, Reply, Sent, Spoil, primaries};
use sw_ring::Cluster;
use sw_types::{Bytes, Head, Name, Object, Policy, Stamp};

// The handoff 3 and the primaries 0 to 2.
const RING: &[u8] =
    br#"{"part_power":0,"k":2,"m":1,"c":2,"segment":4096,"devices":[{"id":0},{"id":1},{"id":2},{"id":3}],"rows":[[0],[1],[2]]}"#;

// The own device.
const OWN: u16 = 0;

// What folders have.
const NOTHING: Answer = Held(&[]);

const FIRST: Answer = Held(&["0000000000.00007#0#d.data"]);

const SECOND: Answer = Held(&["0000000000.00007#1#d.data"]);

const THIRD: Answer = Held(&["0000000000.00007#2#d.data"]);

const PLAIN: Answer = Held(&["0000000000.00007#1.data"]);

const LATER: Answer = Held(&["0000000000.00008#1#d.data"]);

const BURIED: Answer = Held(&["0000000000.00007.ts"]);

fn a_c_o(alloc: Global) -> Result<Name, Fail> {
    Ok(Name::make(alloc, b"a", b"c", b"o")?)
}

// A sync of a/c/o by its own device.
fn begun<'a>(alloc: Global, cluster: &'a Cluster) -> Result<SyncJob<'a>, Fail> {
    let place = cluster.place(alloc, &a_c_o(alloc)?)?;
    let devices = primaries(alloc, cluster, place.part())?;
    if !is_among(&devices, OWN) {
        return Err("no primary".into());
    }
    Ok(SyncJob::begin(alloc, cluster, OWN, place)?)
}

// Whether a device is one of these.
fn is_among(devices: &[u16], device: u16) -> bool
    ensures { result ≡ is_among devices.now device }
{
    devices.iter().any(|one| *one == device)
}

// The archive of an index at a stamp of a body.
fn archive(alloc: Global, units: u64, index: u32, body: &[u8]) -> Result<ArchiveBytes, Fail> {
    let policy = Policy::make(2, 1, 3, 2, 4096)?;
    let stamp = Stamp::make(units).ok_or("stamp")?;
    let head = Head::make(alloc, b"text/plain", &[])?;
    let body = Bytes::from_slice(alloc, body)?;
    let object = Object::make(head, body).ok().ok_or("too long")?;
    if index >= 3 {
        return Err("index".into());
    }
    Ok(make_archive(alloc, &policy, stamp, &a_c_o(alloc)?, &object, index)?)
}

// What a folder with these files has.
fn listing(alloc: Global, files: &[&str]) -> Result<Listing, Fail> {
    let mut names = Vec::new(alloc);
    for file in files {
        names.push(format!(in alloc; "{file}")?)?;
    }
    Ok(HashDir::of(alloc, &names)?.listing(alloc)?)
}

// The floor of a tombstone of a stamp.
fn tombstone(units: u64) -> Result<Floor, Fail> {
    let stamp = Stamp::make(units).ok_or("stamp")?;
    let kind = FloorKind::Tombstone;
    Ok(Floor { stamp, kind })
}

// What a device answers.
#[derive(Clone, Copy, Debug)]
enum Answer {
    Held(&'static [&'static str]),
    // The archive of a stamp and an index, and that of another body.
    Archive(u64, u32),
    Other(u64, u32),
    Gone,
    Synced,
    Committed,
    Deleted,
    // A tombstone of a stamp forbids it.
    Newer(u64),
    Fault,
    Silence,
}

impl Answer {
    fn reply(self, alloc: Global) -> Result<Option<Reply>, Fail> {
        Ok(match self {
            Held(files) => Some(Reply::Held(listing(alloc, files)?)),
            Archive(units, index) => Some(Reply::Fragment(archive(alloc, units, index, b"abc")?)),
            Other(units, index) => Some(Reply::Fragment(archive(alloc, units, index, b"abd")?)),
            Gone => Some(Reply::Gone(listing(alloc, &[])?)),
            Synced => Some(Reply::Synced),
            Committed => Some(Reply::Committed),
            Deleted => Some(Reply::Deleted { existed: false }),
            Newer(units) => Some(Reply::Superseded(tombstone(units)?)),
            Fault => Some(Reply::DiskFault),
            Silence => None,
        })
    }
}

// A message, by the device that it goes to and its kind.
fn is_sent(device: u16, msg: &Msg, want: (u16, &str)) -> bool {
    let kind = match msg {
        Msg::Ask { .. } => "ask",
        Msg::Delete { .. } => "delete",
        Msg::Fetch { .. } => "fetch",
        Msg::PutFrag { .. } => "store",
        Msg::Commit { .. } => "commit",
        _ => "other",
    };
    device == want.0 && kind == want.1
}

// An archive that is to be stored is the one that was put at that index.
fn is_whole(alloc: Global, msg: &Msg) -> Result<bool, Fail> {
    match msg {
        Msg::PutFrag { index, bytes, .. } => {
            let put = archive(alloc, 7, *index, b"abc")?;
            Ok(bytes.as_slice() == put.as_slice())
        }
        _ => Ok(true),
    }
}

// The calls of a sync. Nothing is promised of these functions, which keeps the proofs of the tests short.
fn next(job: &mut SyncJob) -> Result<Option<Sent>, Fail> {
    Ok(job.next()?)
}

fn sent(job: &mut SyncJob) -> Result<Sent, Fail> {
    Ok(next(job)?.ok_or("no message")?)
}

fn waits(job: &mut SyncJob) -> Result<bool, Fail> {
    Ok(next(job)?.is_none())
}

fn hear(job: &mut SyncJob, ticket: u64, reply: Reply) {
    job.take(ticket, reply);
}

fn give(job: &mut SyncJob, ticket: u64, reply: Option<Reply>) {
    match reply {
        Some(reply) => hear(job, ticket, reply),
        None => job.give_up(ticket),
    }
}

fn respond(alloc: Global, job: &mut SyncJob, ticket: u64, answer: Answer) -> Result<(), Fail> {
    give(job, ticket, answer.reply(alloc)?);
    Ok(())
}

fn is_open(job: &SyncJob) -> bool {
    !job.ended() && job.end().is_none()
}

fn end_of(job: SyncJob) -> Result<SyncEnd, Fail> {
    Ok(job.into_end().ok_or("not over")?)
}

// A message that is to come next, and what is answered.
type Turn = (u16, &'static str, Answer);

// The next message is this one, and is answered so.
fn answered(alloc: Global, job: &mut SyncJob, turn: &Turn) -> Result<(), Fail> {
    let (device, kind, answer) = *turn;
    let sent = sent(job)?;
    if !is_sent(sent.device, &sent.msg, (device, kind)) || !is_whole(alloc, &sent.msg)? {
        return Err("another message".into());
    }
    give(job, sent.ticket, answer.reply(alloc)?);
    Ok(())
}

// Answers each message before the next one is handed out.
fn driven(alloc: Global, job: &mut SyncJob, turns: &[Turn]) -> Result<(), Fail> {
    for turn in turns {
        answered(alloc, job, turn)?;
    }
    Ok(())
}

// The handoff, and then the primaries, answer so when they are asked.
fn asked(alloc: Global, job: &mut SyncJob, answers: [Answer; 4]) -> Result<(), Fail> {
    let turns = [
        (3, "ask", answers[0]),
        (0, "ask", answers[1]),
        (1, "ask", answers[2]),
        (2, "ask", answers[3]),
    ];
    driven(alloc, job, &turns)
}

// How a sync ends where the devices are asked, and then by these turns.
fn ended(alloc: Global, answers: [Answer; 4], turns: &[Turn]) -> Result<SyncEnd, Fail> {
    let cluster = Cluster::read(alloc, RING)?;
    let mut job = begun(alloc, &cluster)?;
    asked(alloc, &mut job, answers)?;
    driven(alloc, &mut job, turns)?;
    if !waits(&mut job)? {
        return Err("more messages than answers".into());
    }
    end_of(job)
}

// Whether it is done, with so many commits, archives rebuilt and tombstones, and these failures.
fn is_done(end: &SyncEnd, counts: (u32, u32, u32), want: &[Failure]) -> bool {
    match end {
        SyncEnd::Done {
            commits,
            rebuilt,
            tombstones,
            failed,
        } => {
            (*commits, *rebuilt, *tombstones) == counts
                && failed.as_slice().len() == want.len()
                && failed
                    .as_slice()
                    .iter()
                    .zip(want)
                    .all(|(one, other)| one == other)
        }
        _ => false,
    }
}

// Whether so few archives of the stamp were to be had, with these misses.
fn is_too_few(end: &SyncEnd, count: u32, want: &[(u16, Miss)]) -> bool {
    match end {
        SyncEnd::TooFew {
            stamp,
            have,
            misses,
        } => {
            stamp.units() == 7
                && *have == count
                && misses.as_slice().len() == want.len()
                && misses
                    .as_slice()
                    .iter()
                    .zip(want)
                    .all(|(one, other)| one.0 == other.0 && one.1 == other.1)
        }
        _ => false,
    }
}

fn is_newer(end: &SyncEnd, units: u64, kind: FloorKind) -> bool {
    match end {
        SyncEnd::Newer { floor } => floor.stamp.units() == units && floor.kind == kind,
        _ => false,
    }
}

#[test]
fn ends_by_what_is_listed(rt: HostRuntime) -> Result<(), Fail> {
    let alloc = rt.alloc();
    for own in [Silence, Fault] {
        let end = ended(alloc, [NOTHING, own, SECOND, NOTHING], &[])?;
        assert!(rt; matches!(end, SyncEnd::Unanswered { device: 0 }));
    }
    for own in [NOTHING, Held(&["0000000000.00007#0.data"])] {
        let end = ended(alloc, [NOTHING, own, SECOND, Silence], &[])?;
        assert!(rt; is_done(&end, (0, 0, 0), &[]));
    }
    let end = ended(alloc, [NOTHING, FIRST, SECOND, LATER], &[])?;
    assert!(rt; is_newer(&end, 8, FloorKind::Durable));
    let end = ended(alloc, [LATER, BURIED, SECOND, THIRD], &[])?;
    assert!(rt; is_newer(&end, 8, FloorKind::Durable));
    let end = ended(alloc, [BURIED, FIRST, SECOND, THIRD], &[])?;
    assert!(rt; is_newer(&end, 7, FloorKind::Tombstone));
    let end = ended(alloc, [NOTHING, FIRST, SECOND, THIRD], &[])?;
    assert!(rt; is_done(&end, (0, 0, 0), &[]));
    Ok(())
}

#[test]
fn sends_its_tombstone(rt: HostRuntime) -> Result<(), Fail> {
    let alloc = rt.alloc();
    let refused = Failure::Superseded {
        device: 1,
        floor: tombstone(8)?,
    };
    let silent = Failure::Missed {
        device: 2,
        miss: Miss::NoReply,
    };
    let faulty = Failure::Missed {
        device: 1,
        miss: Miss::DiskFault,
    };
    let cases: [(Answer, Answer, &[Turn], u32, &[Failure]); 5] = [
        (SECOND, BURIED, &[(1, "delete", Deleted)], 1, &[]),
        (
            NOTHING,
            THIRD,
            &[(1, "delete", Deleted), (2, "delete", Deleted)],
            2,
            &[],
        ),
        (SECOND, BURIED, &[(1, "delete", Newer(8))], 0, &[refused]),
        (
            SECOND,
            Silence,
            &[(1, "delete", Fault)],
            0,
            &[silent, faulty],
        ),
        (BURIED, BURIED, &[], 0, &[]),
    ];
    for (second, third, turns, count, failed) in cases {
        let end = ended(alloc, [NOTHING, BURIED, second, third], turns)?;
        assert!(rt; is_done(&end, (0, 0, count), failed));
    }
    Ok(())
}

#[test]
fn repairs_entries(rt: HostRuntime) -> Result<(), Fail> {
    let alloc = rt.alloc();
    let refused = Failure::Superseded {
        device: 2,
        floor: tombstone(8)?,
    };
    let missing = Failure::Missed {
        device: 1,
        miss: Miss::Odd,
    };
    let cases: [([Answer; 4], &[Turn], (u32, u32, u32), &[Failure]); 6] = [
        (
            [NOTHING, FIRST, PLAIN, THIRD],
            &[(1, "commit", Committed)],
            (1, 0, 0),
            &[],
        ),
        (
            [NOTHING, FIRST, PLAIN, THIRD],
            &[(1, "commit", Synced)],
            (0, 0, 0),
            &[missing],
        ),
        (
            [NOTHING, FIRST, PLAIN, NOTHING],
            &[
                (1, "commit", Committed),
                (0, "fetch", Archive(7, 0)),
                (1, "fetch", Archive(7, 1)),
                (2, "store", Synced),
                (2, "commit", Committed),
            ],
            (1, 1, 0),
            &[],
        ),
        (
            [FIRST, FIRST, SECOND, NOTHING],
            &[
                (0, "fetch", Gone),
                (1, "fetch", Archive(7, 1)),
                (3, "fetch", Archive(7, 0)),
                (2, "store", Synced),
                (2, "commit", Committed),
            ],
            (0, 1, 0),
            &[],
        ),
        (
            [THIRD, FIRST, NOTHING, NOTHING],
            &[
                (0, "fetch", Archive(7, 0)),
                (3, "fetch", Archive(7, 2)),
                (1, "store", Synced),
                (2, "store", Synced),
                (1, "commit", Committed),
                (2, "commit", Committed),
            ],
            (0, 2, 0),
            &[],
        ),
        (
            [NOTHING, FIRST, SECOND, NOTHING],
            &[
                (0, "fetch", Archive(7, 0)),
                (1, "fetch", Archive(7, 1)),
                (2, "store", Newer(8)),
            ],
            (0, 0, 0),
            &[refused],
        ),
    ];
    for (answers, turns, counts, failed) in cases {
        let end = ended(alloc, answers, turns)?;
        assert!(rt; is_done(&end, counts, failed));
    }
    Ok(())
}

#[test]
fn finds_too_few(rt: HostRuntime) -> Result<(), Fail> {
    let alloc = rt.alloc();
    let stray = Miss::Spoiled(Spoil::Foreign(Foreign::Object));
    let cases: [([Answer; 4], &[Turn], u32, &[(u16, Miss)]); 4] = [
        (
            [NOTHING, FIRST, NOTHING, Silence],
            &[],
            1,
            &[(2, Miss::NoReply)],
        ),
        (
            [NOTHING, FIRST, SECOND, NOTHING],
            &[(0, "fetch", Archive(7, 0)), (1, "fetch", Fault)],
            1,
            &[(1, Miss::DiskFault)],
        ),
        (
            [NOTHING, FIRST, SECOND, NOTHING],
            &[(0, "fetch", Archive(7, 0)), (1, "fetch", Other(7, 1))],
            1,
            &[(1, stray)],
        ),
        (
            [FIRST, FIRST, SECOND, NOTHING],
            &[
                (0, "fetch", Gone),
                (1, "fetch", Silence),
                (3, "fetch", Fault),
            ],
            0,
            &[(0, Miss::Gone), (1, Miss::NoReply), (3, Miss::DiskFault)],
        ),
    ];
    for (answers, turns, have, misses) in cases {
        let end = ended(alloc, answers, turns)?;
        assert!(rt; is_too_few(&end, have, misses));
    }
    Ok(())
}

#[test]
fn waits_for_answers(rt: HostRuntime) -> Result<(), Fail> {
    let alloc = rt.alloc();
    let cluster = Cluster::read(alloc, RING)?;
    let mut job = begun(alloc, &cluster)?;
    respond(alloc, &mut job, 0, NOTHING)?;
    let first = sent(&mut job)?;
    assert_eq!(rt; (first.ticket, first.device), (0, 3));
    assert!(rt; waits(&mut job)?);
    respond(alloc, &mut job, 7, NOTHING)?;
    assert!(rt; waits(&mut job)?);
    respond(alloc, &mut job, 0, NOTHING)?;
    respond(alloc, &mut job, 0, BURIED)?;
    for device in 0..3u16 {
        let sent = sent(&mut job)?;
        assert!(rt; sent.ticket == device as u64 + 1 && sent.device == device);
        assert!(rt; is_sent(sent.device, &sent.msg, (device, "ask")));
    }
    assert!(rt; waits(&mut job)?);
    respond(alloc, &mut job, 2, SECOND)?;
    respond(alloc, &mut job, 1, FIRST)?;
    assert!(rt; waits(&mut job)?);
    respond(alloc, &mut job, 3, Silence)?;
    assert!(rt; is_open(&job));
    assert!(rt; waits(&mut job)?);
    let silent = Failure::Missed {
        device: 2,
        miss: Miss::NoReply,
    };
    let end = end_of(job)?;
    assert!(rt; is_done(&end, (0, 0, 0), &[silent]));
    Ok(())
}
