//! Puts driven by hand to each of their ends.

use crate::{PutEnd, PutOp};
use std::alloc::Global;
use std::test::Fail;
use sw_hashdir::{Floor, FloorKind};
use sw_message::{Miss, Msg, Operation, Reply, Sent};
use sw_ring::{Cluster, built_in};
use sw_types::{Bytes, Head, Name, Object, Stamp};

// A message: an archive's index, and the device that it goes to.
#[derive(Clone, Copy, Debug)]
enum Goes {
    Store(u32, u16),
    Commit(u32, u16),
}

impl Goes {
    fn is(self, sent: &Sent) -> bool {
        match (self, &sent.msg) {
            (Goes::Store(of, to), Msg::PutFrag { index, bytes, .. }) => {
                of == *index && to == sent.device && bytes.len() == 103
            }
            (Goes::Commit(of, to), Msg::Commit { index, .. }) => {
                of == *index && to == sent.device
            }
            _ => false,
        }
    }
}

// What a device answers: its reply, or nothing.
#[derive(Clone, Copy, Debug)]
enum Says {
    Synced,
    Committed,
    Newer(u64),
    Missing,
    Full,
    Nothing,
}

impl Says {
    fn reply(self) -> Result<Option<Reply>, Fail> {
        Ok(match self {
            Says::Synced => Some(Reply::Synced),
            Says::Committed => Some(Reply::Committed),
            Says::Newer(units) => {
                let stamp = Stamp::make(units).ok_or("stamp")?;
                let kind = FloorKind::Durable;
                Some(Reply::Superseded(Floor { stamp, kind }))
            }
            Says::Missing => Some(Reply::Missing),
            Says::Full => Some(Reply::NoSpace { need: 103, free: 9 }),
            Says::Nothing => None,
        })
    }
}

// A put of `abc` at the stamp 7 under a/c/o, over the built-in ring: q = 3, c = 2, the primaries 0 to 2 and the handoff 3.
fn begun(alloc: Global) -> Result<PutOp, Fail> {
    let cluster = Cluster::read(alloc, built_in())?;
    let name = Name::make(alloc, b"a", b"c", b"o")?;
    let stamp = Stamp::make(7).ok_or("stamp")?;
    let head = Head::make(alloc, b"application/octet-stream", &[])?;
    let body = Bytes::from_slice(alloc, b"abc")?;
    let object = Object::make(head, body).ok().ok_or("too long")?;
    Ok(PutOp::begin(alloc, &cluster, stamp, &name, &object)?)
}

// The calls of a put. Nothing is promised of these functions, which keeps the proofs of the tests short.
fn next(op: &mut PutOp) -> Result<Option<Sent>, Fail> {
    Ok(op.next()?)
}

fn hear(op: &mut PutOp, ticket: u64, reply: Reply) {
    op.take(ticket, reply);
}

fn answer(op: &mut PutOp, ticket: u64, says: Says) -> Result<(), Fail> {
    match says.reply()? {
        Some(reply) => hear(op, ticket, reply),
        None => op.give_up(ticket),
    }
    Ok(())
}

fn is_open(op: &PutOp) -> bool {
    !op.ended() && op.end().is_none()
}

fn has_ended(op: &PutOp, end: Ends) -> bool {
    op.ended() && end.is(op.end())
}

// Answers each message before the next one is handed out, and gives how many there were.
fn answered(op: &mut PutOp, steps: &[(Goes, Says)]) -> Result<usize, Fail> {
    for (count, (goes, says)) in steps.iter().enumerate() {
        let Some(sent) = next(op)? else {
            return Ok(count);
        };
        if !goes.is(&sent) {
            return Err("another message".into());
        }
        answer(op, sent.ticket, *says)?;
    }
    match next(op)? {
        Some(_) => Err("more messages than answers".into()),
        None => Ok(steps.len()),
    }
}

// How it is to end.
#[derive(Clone, Copy, Debug)]
enum Ends {
    Created(u32),
    Superseded(u64),
    TooFewSynced(u32, &'static [(u16, Miss)]),
    TooFewCommits(u32, &'static [(u16, Miss)]),
}

impl Ends {
    fn is(self, end: Option<&PutEnd>) -> bool {
        match (self, end) {
            (Ends::Created(count), Some(PutEnd::Created { stamp, commits })) => {
                stamp.units() == 7 && *commits == count
            }
            (Ends::Superseded(units), Some(PutEnd::Superseded { floor })) => {
                floor.stamp.units() == units
            }
            (Ends::TooFewSynced(count, missed), Some(PutEnd::TooFewSynced { have, misses })) => {
                *have == count && misses.as_slice() == missed
            }
            (Ends::TooFewCommits(count, missed), Some(PutEnd::TooFewCommits { have, misses })) => {
                *have == count && misses.as_slice() == missed
            }
            _ => false,
        }
    }
}

fn ends_so(alloc: Global, steps: &[(Goes, Says)], end: Ends) -> Result<bool, Fail> {
    let mut op = begun(alloc)?;
    let count = answered(&mut op, steps)?;
    Ok(count == steps.len() && has_ended(&op, end))
}

#[test]
fn ends_where_fragments_are_missed(rt: HostRuntime) -> Result<(), Fail> {
    use Goes::Store;
    use Says::{Committed, Full, Missing, Newer, Nothing, Synced};
    let cases: [(&[(Goes, Says)], Ends); 4] = [
        (
            &[
                (Store(0, 0), Newer(8)),
                (Store(1, 1), Newer(9)),
                (Store(2, 2), Synced),
            ],
            Ends::Superseded(9),
        ),
        (
            &[
                (Store(0, 0), Nothing),
                (Store(1, 1), Newer(8)),
                (Store(2, 2), Full),
                (Store(0, 3), Nothing),
            ],
            Ends::Superseded(8),
        ),
        (
            &[
                (Store(0, 0), Nothing),
                (Store(1, 1), Synced),
                (Store(2, 2), Full),
                (Store(0, 3), Missing),
            ],
            Ends::TooFewSynced(
                1,
                &[
                    (0, Miss::NoReply),
                    (2, Miss::NoSpace { need: 103, free: 9 }),
                    (3, Miss::Odd),
                ],
            ),
        ),
        (
            &[
                (Store(0, 0), Committed),
                (Store(1, 1), Newer(7)),
                (Store(2, 2), Synced),
                (Store(0, 3), Synced),
            ],
            Ends::TooFewSynced(2, &[(0, Miss::Odd), (1, Miss::Odd)]),
        ),
    ];
    for (steps, end) in cases {
        assert!(rt; ends_so(rt.alloc(), steps, end)?);
    }
    Ok(())
}

#[test]
fn ends_by_the_commits(rt: HostRuntime) -> Result<(), Fail> {
    use Goes::{Commit, Store};
    use Says::{Committed, Missing, Newer, Nothing, Synced};
    let cases: [([Says; 3], Ends); 6] = [
        ([Committed, Committed, Committed], Ends::Created(3)),
        ([Committed, Nothing, Committed], Ends::Created(2)),
        ([Committed, Committed, Newer(9)], Ends::Created(2)),
        ([Newer(9), Committed, Newer(8)], Ends::Superseded(9)),
        (
            [Nothing, Missing, Committed],
            Ends::TooFewCommits(1, &[(0, Miss::NoReply), (1, Miss::Missing)]),
        ),
        (
            [Synced, Committed, Newer(7)],
            Ends::TooFewCommits(1, &[(0, Miss::Odd), (2, Miss::Odd)]),
        ),
    ];
    for ([first, second, third], end) in cases {
        let steps = [
            (Store(0, 0), Synced),
            (Store(1, 1), Synced),
            (Store(2, 2), Synced),
            (Commit(0, 0), first),
            (Commit(1, 1), second),
            (Commit(2, 2), third),
        ];
        assert!(rt; ends_so(rt.alloc(), &steps, end)?);
    }
    Ok(())
}

// What happens to a put: it hands out a message, it waits, or an answer comes for a ticket.
#[derive(Clone, Copy, Debug)]
enum Event {
    Hands(Goes),
    Waits,
    Answers(u64, Says),
}

impl Event {
    // Whether it happens.
    fn happens(self, op: &mut PutOp) -> Result<bool, Fail> {
        match self {
            Event::Hands(goes) => Ok(match next(op)? {
                Some(sent) => goes.is(&sent),
                None => false,
            }),
            Event::Waits => Ok(next(op)?.is_none() && is_open(op)),
            Event::Answers(ticket, says) => {
                answer(op, ticket, says)?;
                Ok(true)
            }
        }
    }
}

#[test]
fn waits_for_its_answers(rt: HostRuntime) -> Result<(), Fail> {
    use Event::{Answers, Hands, Waits};
    use Goes::{Commit, Store};
    use Says::{Committed, Missing, Nothing, Synced};
    let events = [
        Hands(Store(0, 0)),
        Hands(Store(1, 1)),
        Hands(Store(2, 2)),
        Waits,
        Answers(7, Synced),
        Answers(1, Nothing),
        Answers(1, Synced),
        Answers(0, Synced),
        Hands(Store(1, 3)),
        Answers(3, Synced),
        Waits,
        Answers(2, Synced),
        Hands(Commit(0, 0)),
        Hands(Commit(1, 3)),
        Hands(Commit(2, 2)),
        Answers(6, Committed),
        Answers(6, Committed),
        Waits,
        Answers(5, Missing),
        Answers(4, Committed),
    ];
    let mut op = begun(rt.alloc())?;
    for event in events {
        assert!(rt; event.happens(&mut op)?);
    }
    assert!(rt; next(&mut op)?.is_none());
    assert!(rt; has_ended(&op, Ends::Created(2)));
    Ok(())
}
