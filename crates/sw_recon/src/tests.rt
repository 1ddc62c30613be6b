//! Reverts driven by hand to each of their ends.

use crate::tests::Answer::{
    Archive, Committed, Fault, Gone, Held, Missing, Newer, Removed, Silence, Synced,
};
use crate::{KeptCause, KeptEntry, RevertEnd, RevertJob};
use std::alloc::Global;
use std::test::Fail;
use sw_archive::make_archive;
use sw_hashdir::{Floor, FloorKind, HashDir, Listing};
use sw_message::{Foreign, Miss, Msg, Operation, Reply, Sent, Spoil};
use sw_ring::Cluster;
use sw_types::{Bytes, Head, Name, Object, Policy, Stamp};

// The handoff 3 and the primaries 0 to 2.
const RING: &[u8] =
    br#"{"part_power":0,"k":2,"m":1,"c":2,"segment":4096,"devices":[{"id":0},{"id":1},{"id":2},{"id":3}],"rows":[[0],[1],[2]]}"#;

// What folders have.
const NOTHING: Answer = Held(&[]);

const SEVEN: Answer = Held(&["0000000000.00007#1#d.data"]);

const PLAIN: Answer = Held(&["0000000000.00007#1.data"]);

const NINTH: Answer = Held(&["0000000000.00007#3#d.data"]);

const BOTH: Answer = Held(&["0000000000.00007#1#d.data", "0000000000.00008#2#d.data"]);

const TWICE: Answer = Held(&["0000000000.00007#1#d.data", "0000000000.00008#1#d.data"]);

fn a_c_o(alloc: Global) -> Result<Name, Fail> {
    Ok(Name::make(alloc, b"a", b"c", b"o")?)
}

// A revert of a/c/o by its first handoff.
fn begun<'a>(alloc: Global, cluster: &'a Cluster) -> Result<RevertJob<'a>, Fail> {
    let place = cluster.place(alloc, &a_c_o(alloc)?)?;
    let handoffs = cluster.handoffs(alloc, place.part())?;
    match handoffs.first() {
        Some(device) => Ok(RevertJob::begin(alloc, cluster, *device, place)),
        None => Err("no handoff".into()),
    }
}

// The archive of an index at a stamp.
fn archive(alloc: Global, units: u64, index: u32) -> Result<Reply, Fail> {
    let policy = Policy::make(2, 1, 3, 2, 4096)?;
    let stamp = Stamp::make(units).ok_or("stamp")?;
    let head = Head::make(alloc, b"text/plain", &[])?;
    let body = Bytes::from_slice(alloc, b"abc")?;
    let object = Object::make(head, body).ok().ok_or("too long")?;
    if index >= 3 {
        return Err("index".into());
    }
    Ok(Reply::Fragment(make_archive(alloc, &policy, stamp, &a_c_o(alloc)?, &object, index)?))
}

// What a folder with these files has.
fn listing(alloc: Global, files: &[&str]) -> Result<Listing, Fail> {
    let mut names = Vec::new(alloc);
    for file in files {
        names.push(format!(in alloc; "{file}")?)?;
    }
    Ok(HashDir::of(alloc, &names)?.listing(alloc)?)
}

// What a device answers.
#[derive(Clone, Copy, Debug)]
enum Answer {
    Held(&'static [&'static str]),
    Archive(u64, u32),
    Gone,
    Synced,
    Committed,
    Removed,
    Missing,
    // A tombstone of a stamp forbids it.
    Newer(u64),
    Fault,
    Silence,
}

impl Answer {
    fn reply(self, alloc: Global) -> Result<Option<Reply>, Fail> {
        Ok(match self {
            Held(files) => Some(Reply::Held(listing(alloc, files)?)),
            Archive(units, index) => Some(archive(alloc, units, index)?),
            Gone => Some(Reply::Gone(listing(alloc, &[])?)),
            Synced => Some(Reply::Synced),
            Committed => Some(Reply::Committed),
            Removed => Some(Reply::Removed),
            Missing => Some(Reply::Missing),
            Newer(units) => {
                let stamp = Stamp::make(units).ok_or("stamp")?;
                let kind = FloorKind::Tombstone;
                Some(Reply::Superseded(Floor { stamp, kind }))
            }
            Fault => Some(Reply::DiskFault),
            Silence => None,
        })
    }
}

// A message, by the device that it goes to and its kind.
fn is_sent(device: u16, msg: &Msg, want: (u16, &str)) -> bool {
    let kind = match msg {
        Msg::Ask { .. } => "ask",
        Msg::Fetch { .. } => "fetch",
        Msg::PutFrag { .. } => "store",
        Msg::Commit { .. } => "commit",
        Msg::Remove { .. } => "remove",
        _ => "other",
    };
    device == want.0 && kind == want.1
}

// The calls of a revert. Nothing is promised of these functions, which keeps the proofs of the tests short.
fn next(job: &mut RevertJob) -> Result<Option<Sent>, Fail> {
    Ok(job.next()?)
}

fn sent(job: &mut RevertJob) -> Result<Sent, Fail> {
    Ok(next(job)?.ok_or("no message")?)
}

fn waits(job: &mut RevertJob) -> Result<bool, Fail> {
    Ok(next(job)?.is_none())
}

fn hear(job: &mut RevertJob, ticket: u64, reply: Reply) {
    job.take(ticket, reply);
}

fn give(job: &mut RevertJob, ticket: u64, reply: Option<Reply>) {
    match reply {
        Some(reply) => hear(job, ticket, reply),
        None => job.give_up(ticket),
    }
}

fn respond(alloc: Global, job: &mut RevertJob, ticket: u64, answer: Answer) -> Result<(), Fail> {
    give(job, ticket, answer.reply(alloc)?);
    Ok(())
}

fn is_open(job: &RevertJob) -> bool {
    !job.ended() && job.end().is_none()
}

// A message that is to come next, and what is answered.
type Turn = (u16, &'static str, Answer);

// Answers each message before the next one is handed out.
fn driven(alloc: Global, job: &mut RevertJob, turns: &[Turn]) -> Result<(), Fail> {
    for (device, kind, answer) in turns {
        let sent = sent(job)?;
        if !is_sent(sent.device, &sent.msg, (*device, *kind)) {
            return Err("another message".into());
        }
        give(job, sent.ticket, answer.reply(alloc)?);
    }
    match next(job)? {
        Some(_) => Err("more messages than answers".into()),
        None => Ok(()),
    }
}

// Whether these are kept, by stamp, index and cause.
fn are_kept(kept: &[KeptEntry], want: &[(u64, u32, KeptCause)]) -> bool {
    kept.len() == want.len()
        && kept.iter().zip(want).all(|(entry, (units, index, cause))| entry.stamp.units() == *units
            && entry.index == *index
            && entry.cause == *cause)
}

// Whether it is done, so many are removed, and these are kept.
fn is_done(end: Option<&RevertEnd>, count: u32, want: &[(u64, u32, KeptCause)]) -> bool {
    match end {
        Some(RevertEnd::Done { removed, kept }) => {
            *removed == count && are_kept(kept.as_slice(), want)
        }
        _ => false,
    }
}

// How a revert ends by these turns.
fn ended(alloc: Global, turns: &[Turn]) -> Result<RevertEnd, Fail> {
    let cluster = Cluster::read(alloc, RING)?;
    let mut job = begun(alloc, &cluster)?;
    driven(alloc, &mut job, turns)?;
    Ok(job.into_end().ok_or("not over")?)
}

#[test]
fn removes_what_is_covered(rt: HostRuntime) -> Result<(), Fail> {
    let cases: [&[Turn]; 8] = [
        &[(3, "ask", SEVEN), (1, "ask", SEVEN), (3, "remove", Removed)],
        &[(3, "ask", PLAIN), (1, "ask", SEVEN), (3, "remove", Removed)],
        &[
            (3, "ask", SEVEN),
            (1, "ask", Held(&["0000000000.00007.ts"])),
            (3, "remove", Removed),
        ],
        &[
            (3, "ask", PLAIN),
            (1, "ask", Held(&["0000000000.00008#0#d.data"])),
            (3, "remove", Removed),
        ],
        &[
            (3, "ask", SEVEN),
            (1, "ask", Held(&["0000000000.00008.ts"])),
            (3, "remove", Removed),
        ],
        &[
            (3, "ask", SEVEN),
            (1, "ask", Held(&["0000000000.00007#1.data"])),
            (3, "fetch", Archive(7, 1)),
            (1, "store", Synced),
            (1, "commit", Committed),
            (3, "remove", Removed),
        ],
        &[
            (3, "ask", SEVEN),
            (1, "ask", Held(&["0000000000.00006.ts"])),
            (3, "fetch", Archive(7, 1)),
            (1, "store", Newer(7)),
            (3, "remove", Removed),
        ],
        &[
            (3, "ask", SEVEN),
            (1, "ask", NOTHING),
            (3, "fetch", Archive(7, 1)),
            (1, "store", Synced),
            (1, "commit", Newer(8)),
            (3, "remove", Removed),
        ],
    ];
    for turns in cases {
        assert!(rt; is_done(Some(&ended(rt.alloc(), turns)?), 1, &[]));
    }
    Ok(())
}

#[test]
fn keeps_what_is_not(rt: HostRuntime) -> Result<(), Fail> {
    let foreign = Miss::Spoiled(Spoil::Foreign(Foreign::Stamp));
    let cases: [(&[Turn], KeptCause); 8] = [
        (
            &[(3, "ask", PLAIN), (1, "ask", NOTHING)],
            KeptCause::NotDurable,
        ),
        (
            &[(3, "ask", SEVEN), (1, "ask", Fault)],
            KeptCause::Missed(Miss::DiskFault),
        ),
        (
            &[(3, "ask", SEVEN), (1, "ask", NOTHING), (3, "fetch", Gone)],
            KeptCause::Missed(Miss::Gone),
        ),
        (
            &[
                (3, "ask", SEVEN),
                (1, "ask", NOTHING),
                (3, "fetch", Archive(8, 1)),
            ],
            KeptCause::Missed(foreign),
        ),
        (
            &[
                (3, "ask", SEVEN),
                (1, "ask", NOTHING),
                (3, "fetch", Archive(7, 1)),
                (1, "store", Newer(6)),
            ],
            KeptCause::Missed(Miss::Odd),
        ),
        (
            &[
                (3, "ask", SEVEN),
                (1, "ask", NOTHING),
                (3, "fetch", Archive(7, 1)),
                (1, "store", Synced),
                (1, "commit", Missing),
            ],
            KeptCause::NoMark,
        ),
        (
            &[(3, "ask", SEVEN), (1, "ask", SEVEN), (3, "remove", Missing)],
            KeptCause::Missed(Miss::Missing),
        ),
        (
            &[(3, "ask", SEVEN), (1, "ask", SEVEN), (3, "remove", Synced)],
            KeptCause::Missed(Miss::Odd),
        ),
    ];
    for (turns, cause) in cases {
        assert!(rt; is_done(Some(&ended(rt.alloc(), turns)?), 0, &[(7, 1, cause)]));
    }
    Ok(())
}

#[test]
fn keeps_what_is_given_up(rt: HostRuntime) -> Result<(), Fail> {
    let turns: [Turn; 6] = [
        (3, "ask", SEVEN),
        (1, "ask", NOTHING),
        (3, "fetch", Archive(7, 1)),
        (1, "store", Synced),
        (1, "commit", Committed),
        (3, "remove", Removed),
    ];
    let gone = KeptCause::Missed(Miss::NoReply);
    for count in 1..6usize {
        let mut given_up = Vec::from_slice(rt.alloc(), &turns[..count])?;
        given_up.push((turns[count].0, turns[count].1, Silence))?;
        assert!(rt; is_done(Some(&ended(rt.alloc(), &given_up)?), 0, &[(7, 1, gone)]));
    }
    Ok(())
}

#[test]
fn treats_one_after_the_other(rt: HostRuntime) -> Result<(), Fail> {
    let alloc = rt.alloc();
    let odd = KeptCause::Missed(Miss::Odd);
    assert!(rt; is_done(Some(&ended(alloc, &[(3, "ask", NOTHING)])?), 0, &[]));
    assert!(rt;
        is_done(
            Some(&ended(alloc, &[(3, "ask", NINTH)])?),
            0,
            &[(7, 3, odd)]
        )
    );
    let both = [
        (3, "ask", BOTH),
        (1, "ask", Fault),
        (2, "ask", BOTH),
        (3, "remove", Removed),
    ];
    let fault = KeptCause::Missed(Miss::DiskFault);
    assert!(rt; is_done(Some(&ended(alloc, &both)?), 1, &[(7, 1, fault)]));
    let twice = [
        (3, "ask", TWICE),
        (1, "ask", Fault),
        (1, "ask", TWICE),
        (3, "remove", Removed),
    ];
    assert!(rt; is_done(Some(&ended(alloc, &twice)?), 1, &[(7, 1, fault)]));
    for answer in [Silence, Fault] {
        let end = ended(alloc, &[(3, "ask", answer)])?;
        assert!(rt; matches!(end, RevertEnd::Unanswered { device: 3 }));
    }
    Ok(())
}

// Whether this message is handed out next.
fn is_next(job: &mut RevertJob, ticket: u64, turn: (u16, &str)) -> Result<bool, Fail> {
    let sent = sent(job)?;
    Ok(sent.ticket == ticket && is_sent(sent.device, &sent.msg, turn))
}

// Whether a revert that was begun asks its own device, waits for that answer, and passes over what is none.
fn waits_for_its_own_device(alloc: Global, job: &mut RevertJob) -> Result<bool, Fail> {
    respond(alloc, job, 0, NOTHING)?;
    let is_first = is_next(job, 0, (3, "ask"))? && waits(job)?;
    respond(alloc, job, 7, NOTHING)?;
    let waits_still = waits(job)?;
    respond(alloc, job, 0, SEVEN)?;
    respond(alloc, job, 0, NOTHING)?;
    Ok(is_first && waits_still && is_open(job))
}

#[test]
fn waits_for_its_answer(rt: HostRuntime) -> Result<(), Fail> {
    let alloc = rt.alloc();
    let cluster = Cluster::read(alloc, RING)?;
    let mut job = begun(alloc, &cluster)?;
    assert!(rt; waits_for_its_own_device(alloc, &mut job)?);
    assert!(rt; is_next(&mut job, 1, (1, "ask"))?);
    respond(alloc, &mut job, 1, PLAIN)?;
    assert!(rt; is_next(&mut job, 2, (3, "fetch"))?);
    respond(alloc, &mut job, 2, Silence)?;
    assert!(rt; waits(&mut job)?);
    let gone = KeptCause::Missed(Miss::NoReply);
    assert!(rt; is_done(job.end(), 0, &[(7, 1, gone)]));
    Ok(())
}
