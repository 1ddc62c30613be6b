//! Gets driven by hand to each of their ends.

use crate::tests::Answer::{Archive, Damaged, Durable, Empty, Gone, Other, Silence, Tombstone};
use crate::{GetEnd, GetOp, KeptEvent};
use std::alloc::Global;
use std::test::Fail;
use sw_archive::{ArchiveBytes, make_archive};
use sw_hashdir::{Floor, FloorKind, HashDir};
use sw_message::{Miss, Operation, Reply, Sent, Target};
use sw_ring::{Cluster, built_in};
use sw_types::{Bytes, Head, Name, Object, Policy, Stamp};

// The handoff 3 and the primaries 0 to 2.
const RING: &[u8] =
    br#"{"part_power":0,"k":2,"m":1,"c":2,"segment":4096,"devices":[{"id":0},{"id":1},{"id":2},{"id":3}],"rows":[[0],[1],[2]]}"#;

fn a_c_o(alloc: Global) -> Result<Name, Fail> {
    Ok(Name::make(alloc, b"a", b"c", b"o")?)
}

fn begun(alloc: Global) -> Result<GetOp, Fail> {
    begun_on(alloc, RING)
}

fn begun_on(alloc: Global, ring: &[u8]) -> Result<GetOp, Fail> {
    let cluster = Cluster::read(alloc, ring)?;
    Ok(GetOp::begin(alloc, &cluster, &a_c_o(alloc)?)?)
}

fn stamp(units: u64) -> Result<Stamp, Fail> {
    Ok(Stamp::make(units).ok_or("stamp")?)
}

// The archive of an index at a stamp of a body.
fn archive(alloc: Global, units: u64, index: u32, body: &[u8]) -> Result<Reply, Fail> {
    let policy = Policy::make(2, 1, 3, 2, 4096)?;
    let stamp = stamp(units)?;
    let head = Head::make(alloc, b"text/plain", &[])?;
    let body = Bytes::from_slice(alloc, body)?;
    let object = Object::make(head, body).ok().ok_or("too long")?;
    if index >= 3 {
        return Err("index".into());
    }
    Ok(Reply::Fragment(make_archive(alloc, &policy, stamp, &a_c_o(alloc)?, &object, index)?))
}

// What a folder with these files has.
fn held(alloc: Global, names: &[String]) -> Result<Reply, Fail> {
    Ok(Reply::Held(HashDir::of(alloc, names)?.listing(alloc)?))
}

// What a device answers.
#[derive(Clone, Copy, Debug)]
enum Answer {
    // It lists nothing.
    Empty,
    // It lists a durable archive of a stamp and an index.
    Durable(u64, u32),
    // It lists a tombstone of a stamp.
    Tombstone(u64),
    // The archive of a stamp and an index, and that of another body.
    Archive(u64, u32),
    Other(u64, u32),
    // Bytes that are no archive.
    Damaged,
    // The archive is not there.
    Gone,
    // There is no answer.
    Silence,
}

// The archives of one stamp, and a place that has them all.
const FIRST: Answer = Durable(7, 0);

const SECOND: Answer = Durable(7, 1);

const WHOLE: [Answer; 4] = [Empty, FIRST, SECOND, Durable(7, 2)];

impl Answer {
    fn reply(self, alloc: Global) -> Result<Option<Reply>, Fail> {
        let mut names = Vec::new(alloc);
        match self {
            Answer::Empty => {}
            Answer::Durable(units, index) => {
                let stamp = stamp(units)?;
                names.push(format!(in alloc; "{stamp}#{index}#d.data")?)?;
            }
            Answer::Tombstone(units) => {
                let stamp = stamp(units)?;
                names.push(format!(in alloc; "{stamp}.ts")?)?;
            }
            Answer::Archive(units, index) => {
                return Ok(Some(archive(alloc, units, index, b"abc")?));
            }
            Answer::Other(units, index) => return Ok(Some(archive(alloc, units, index, b"abd")?)),
            Answer::Damaged => {
                let bytes = ArchiveBytes::new(Bytes::from_slice(alloc, b"abc")?);
                return Ok(Some(Reply::Fragment(bytes)));
            }
            Answer::Gone => return Ok(Some(Reply::Gone(HashDir::of(alloc, &names)?.listing(
                alloc,
            )?))),
            Answer::Silence => return Ok(None),
        }
        Ok(Some(held(alloc, &names)?))
    }
}

// The calls of a get. Nothing is promised of these functions, which keeps the proofs of the tests short.
fn next(op: &mut GetOp) -> Result<Option<Sent>, Fail> {
    Ok(op.next()?)
}

fn sent(op: &mut GetOp) -> Result<Sent, Fail> {
    Ok(next(op)?.ok_or("no message")?)
}

fn waits(op: &mut GetOp) -> Result<bool, Fail> {
    Ok(next(op)?.is_none())
}

fn hear(op: &mut GetOp, ticket: u64, reply: Reply) {
    op.take(ticket, reply);
}

fn give(op: &mut GetOp, ticket: u64, reply: Option<Reply>) {
    match reply {
        Some(reply) => hear(op, ticket, reply),
        None => op.give_up(ticket),
    }
}

fn respond(alloc: Global, op: &mut GetOp, ticket: u64, answer: Answer) -> Result<(), Fail> {
    give(op, ticket, answer.reply(alloc)?);
    Ok(())
}

fn ends_so(op: &GetOp, end: Ends) -> bool {
    op.ended() && end.is(op.end())
}

fn is_open(op: &GetOp) -> bool {
    !op.ended() && op.end().is_none()
}

// Answers each message before the next one is handed out, and gives how many there were.
fn driven(alloc: Global, op: &mut GetOp, rounds: u32, answers: &[Answer]) -> Result<usize, Fail> {
    for _ in 0..rounds {
        for (count, one) in answers.iter().enumerate() {
            let Some(sent) = next(op)? else {
                return Ok(count);
            };
            respond(alloc, op, sent.ticket, *one)?;
        }
    }
    if waits(op)? {
        Ok(answers.len())
    } else {
        Err("more messages than answers".into())
    }
}

// How it is to end.
#[derive(Clone, Copy, Debug)]
enum Ends {
    // From these indices and devices.
    Found(&'static [(u32, u16)]),
    Absent,
    Buried(u64),
    Unanswered(&'static [(u16, Miss)]),
    TooFew(u64, u32),
}

fn came_from(sources: &[Target], from: &[(u32, u16)]) -> bool {
    sources.len() == from.len()
        && sources.iter().zip(from).all(|(source, (index, device))| source.index == *index
            && source.device == *device)
}

impl Ends {
    fn is(self, end: Option<&GetEnd>) -> bool {
        match (self, end) {
            (
                Ends::Found(from),
                Some(
                    GetEnd::Found {
                        stamp,
                        object,
                        sources,
                    },
                ),
            ) => {
                stamp.units() == 7
                    && came_from(sources.as_slice(), from)
                    && object.body().as_slice() == b"abc".as_slice()
            }
            (Ends::Absent, Some(GetEnd::Absent)) => true,
            (Ends::Buried(units), Some(GetEnd::Buried { stamp })) => stamp.units() == units,
            (Ends::Unanswered(missed), Some(GetEnd::Unanswered { misses })) => {
                misses.as_slice() == missed
            }
            (Ends::TooFew(units, count), Some(GetEnd::TooFew { stamp, have })) => {
                stamp.units() == units && *have == count
            }
            _ => false,
        }
    }
}

#[test]
fn ends_by_the_lists(rt: HostRuntime) -> Result<(), Fail> {
    let alloc = rt.alloc();
    let cases: [(u32, [Answer; 4], Ends); 6] = [
        (1, [Empty, Empty, Empty, Empty], Ends::Absent),
        (1, [Empty, Empty, Silence, Empty], Ends::Absent),
        (
            1,
            [Silence, Silence, Empty, Empty],
            Ends::Unanswered(&[(3, Miss::NoReply), (0, Miss::NoReply)]),
        ),
        (1, [Tombstone(8), FIRST, SECOND, Silence], Ends::Buried(8)),
        (2, [Empty, FIRST, Empty, Empty], Ends::TooFew(7, 1)),
        (
            2,
            [Empty, FIRST, Silence, Empty],
            Ends::Unanswered(&[(1, Miss::NoReply)]),
        ),
    ];
    for (rounds, answers, end) in cases {
        let mut op = begun(alloc)?;
        assert_eq!(rt; driven(alloc, &mut op, rounds, &answers)?, 4);
        assert!(rt; ends_so(&op, end));
    }
    Ok(())
}

#[test]
fn ends_by_the_archives(rt: HostRuntime) -> Result<(), Fail> {
    let alloc = rt.alloc();
    let cases: [(u32, [Answer; 4], &[Answer], Ends); 7] = [
        (
            1,
            WHOLE,
            &[Archive(7, 0), Archive(7, 1)],
            Ends::Found(&[(0, 0), (1, 1)]),
        ),
        (
            1,
            WHOLE,
            &[Silence, Archive(7, 1), Archive(7, 2)],
            Ends::Found(&[(1, 1), (2, 2)]),
        ),
        (
            1,
            WHOLE,
            &[Gone, Archive(7, 1), Archive(7, 2)],
            Ends::Found(&[(1, 1), (2, 2)]),
        ),
        (
            1,
            WHOLE,
            &[Archive(7, 0), Other(7, 1), Archive(7, 2)],
            Ends::Found(&[(0, 0), (2, 2)]),
        ),
        (
            1,
            WHOLE,
            &[Archive(7, 0), Archive(8, 1), Archive(7, 2)],
            Ends::Found(&[(0, 0), (2, 2)]),
        ),
        (
            1,
            WHOLE,
            &[Archive(7, 0), Damaged, Archive(7, 2)],
            Ends::Found(&[(0, 0), (2, 2)]),
        ),
        (
            2,
            [Empty, FIRST, SECOND, Empty],
            &[Silence, Archive(7, 1)],
            Ends::Unanswered(&[(0, Miss::NoReply)]),
        ),
    ];
    for (rounds, lists, archives, end) in cases {
        let mut answers = Vec::from_slice(alloc, &lists)?;
        answers.extend_from_slice(archives)?;
        let mut op = begun(alloc)?;
        assert_eq!(rt; driven(alloc, &mut op, rounds, &answers)?, answers.len());
        assert!(rt; ends_so(&op, end));
    }
    Ok(())
}

#[test]
fn goes_round_again(rt: HostRuntime) -> Result<(), Fail> {
    let alloc = rt.alloc();
    let mut op = begun(alloc)?;
    let first = [SECOND, FIRST, Empty, Silence, Gone, Archive(7, 1)];
    let again = [SECOND, FIRST, Empty, Silence, Archive(7, 0), Archive(7, 1)];
    for one in first.iter().chain(&again) {
        let sent = sent(&mut op)?;
        respond(alloc, &mut op, sent.ticket, *one)?;
    }
    assert!(rt; waits(&mut op)?);
    assert!(rt; ends_so(&op, Ends::Found(&[(0, 0), (1, 3)])));
    Ok(())
}

// The first stamp of a script's clock.
const FIRST_CLOCK: u64 = 100_000_000_000_000;

// Answers the next message, which is to this device.
fn respond_from(alloc: Global, op: &mut GetOp, device: u16, one: Answer) -> Result<(), Fail> {
    let sent = sent(op)?;
    if sent.device != device {
        return Err("another device".into());
    }
    respond(alloc, op, sent.ticket, one)
}

// A round in which device 0 alone lists an archive, at the stamp that is so far behind the first one.
fn round(alloc: Global, op: &mut GetOp, behind: u64) -> Result<(), Fail> {
    respond_from(alloc, op, 3, Empty)?;
    respond_from(alloc, op, 0, Durable(FIRST_CLOCK.saturating_add(behind), 0))?;
    respond_from(alloc, op, 1, Empty)?;
    respond_from(alloc, op, 2, Empty)
}

// A get that has ended behind eight such rounds.
fn ended_behind(alloc: Global, stamps: [u64; 8]) -> Result<GetOp, Fail> {
    let mut op = begun_on(alloc, built_in())?;
    for behind in stamps {
        round(alloc, &mut op, behind)?;
    }
    if waits(&mut op)? {
        Ok(op)
    } else {
        Err("a ninth round".into())
    }
}

// In each of eight rounds the target rose by one, in the first from nothing.
fn eight_rises(alloc: Global) -> Result<Vec<KeptEvent>, Fail> {
    let mut events = Vec::new(alloc);
    let mut from = None;
    for behind in 1..=8 {
        let to = Floor {
            stamp: stamp(FIRST_CLOCK + behind)?,
            kind: FloorKind::Durable,
        };
        events.push(KeptEvent::Rose { from, to })?;
        from = Some(to);
    }
    Ok(events)
}

fn is_overtaken_by(op: &GetOp, want: &[KeptEvent]) -> bool {
    matches!(op.end(), Some(GetEnd::Overtaken { events }) if events.as_slice() == want)
}

#[test]
fn is_overtaken_in_eight_rounds(rt: HostRuntime) -> Result<(), Fail> {
    let want = eight_rises(rt.alloc())?;
    let op = ended_behind(rt.alloc(), [1, 2, 3, 4, 5, 6, 7, 8])?;
    assert!(rt; is_overtaken_by(&op, &want));
    Ok(())
}

// The eighth round shows what the seventh showed.
#[test]
fn is_settled_in_the_eighth_round(rt: HostRuntime) -> Result<(), Fail> {
    let op = ended_behind(rt.alloc(), [1, 2, 3, 4, 5, 6, 7, 7])?;
    assert!(rt; ends_so(&op, Ends::TooFew(FIRST_CLOCK + 7, 1)));
    Ok(())
}

#[test]
fn waits_for_its_answers(rt: HostRuntime) -> Result<(), Fail> {
    let alloc = rt.alloc();
    let mut op = begun(alloc)?;
    let first = sent(&mut op)?;
    assert_eq!(rt; (first.ticket, first.device), (0, 3));
    assert!(rt; waits(&mut op)?);
    respond(alloc, &mut op, 9, Durable(7, 0))?;
    respond(alloc, &mut op, 0, Empty)?;
    respond(alloc, &mut op, 0, Durable(7, 0))?;
    for device in 0..3u16 {
        let sent = sent(&mut op)?;
        assert_eq!(rt; (sent.ticket, sent.device), (u64::from(device) + 1, device));
    }
    assert!(rt; waits(&mut op)?);
    respond(alloc, &mut op, 3, Silence)?;
    respond(alloc, &mut op, 1, Empty)?;
    assert!(rt; waits(&mut op)?);
    assert!(rt; is_open(&op));
    respond(alloc, &mut op, 2, Silence)?;
    assert!(rt; waits(&mut op)?);
    assert!(rt;
        ends_so(
            &op,
            Ends::Unanswered(&[(2, Miss::NoReply), (1, Miss::NoReply)])
        )
    );
    Ok(())
}
