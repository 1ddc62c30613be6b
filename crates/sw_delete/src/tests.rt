//! Deletes driven by hand to each of their ends.

use crate::{DeleteEnd, DeleteOp};
use std::alloc::Global;
use std::test::Fail;
use sw_hashdir::{Floor, FloorKind};
use sw_message::{Miss, Msg, Operation, Reply, Sent};
use sw_ring::{Cluster, built_in};
use sw_types::{Name, Stamp};

// What a device answers: its reply, or nothing.
#[derive(Clone, Copy, Debug)]
enum Says {
    Deleted(bool),
    Newer(u64),
    Missing,
    Nothing,
}

impl Says {
    fn reply(self) -> Result<Option<Reply>, Fail> {
        Ok(match self {
            Says::Deleted(existed) => Some(Reply::Deleted { existed }),
            Says::Newer(units) => {
                let stamp = Stamp::make(units).ok_or("stamp")?;
                let kind = FloorKind::Tombstone;
                Some(Reply::Superseded(Floor { stamp, kind }))
            }
            Says::Missing => Some(Reply::Missing),
            Says::Nothing => None,
        })
    }
}

// A delete at the stamp 7 of a/c/o, over the built-in ring: c = 2, the primaries 0 to 2 and the handoff 3.
fn begun(alloc: Global) -> Result<DeleteOp, Fail> {
    let cluster = Cluster::read(alloc, built_in())?;
    let name = Name::make(alloc, b"a", b"c", b"o")?;
    let stamp = Stamp::make(7).ok_or("stamp")?;
    Ok(DeleteOp::begin(alloc, &cluster, stamp, &name)?)
}

// The calls of a delete. Nothing is promised of these functions, which keeps the proofs of the tests short.
fn next(op: &mut DeleteOp) -> Result<Option<Sent>, Fail> {
    Ok(op.next()?)
}

fn waits(op: &mut DeleteOp) -> Result<bool, Fail> {
    Ok(next(op)?.is_none())
}

fn hear(op: &mut DeleteOp, ticket: u64, reply: Reply) {
    op.take(ticket, reply);
}

fn answer(op: &mut DeleteOp, ticket: u64, says: Says) -> Result<(), Fail> {
    match says.reply()? {
        Some(reply) => hear(op, ticket, reply),
        None => op.give_up(ticket),
    }
    Ok(())
}

fn is_open(op: &DeleteOp) -> bool {
    !op.ended() && op.end().is_none()
}

fn has_ended(op: &DeleteOp, end: Ends) -> bool {
    op.ended() && end.is(op.end())
}

// Answers each message before the next one is handed out, and gives how many there were.
fn answered(op: &mut DeleteOp, says: &[Says]) -> Result<usize, Fail> {
    for (count, says) in says.iter().enumerate() {
        let Some(sent) = next(op)? else {
            return Ok(count);
        };
        if usize::from(sent.device) != count || !matches!(sent.msg, Msg::Delete { .. }) {
            return Err("another message".into());
        }
        answer(op, sent.ticket, *says)?;
    }
    match next(op)? {
        Some(_) => Err("more messages than answers".into()),
        None => Ok(says.len()),
    }
}

// How it is to end.
#[derive(Clone, Copy, Debug)]
enum Ends {
    Deleted(u32, bool),
    Superseded(u64),
    TooFewMarks(u32, &'static [(u16, Miss)]),
}

impl Ends {
    fn is(self, end: Option<&DeleteEnd>) -> bool {
        match (self, end) {
            (
                Ends::Deleted(count, had),
                Some(
                    DeleteEnd::Deleted {
                        stamp,
                        marks,
                        existed,
                    },
                ),
            ) => stamp.units() == 7 && *marks == count && *existed == had,
            (Ends::Superseded(units), Some(DeleteEnd::Superseded { floor })) => {
                floor.stamp.units() == units
            }
            (Ends::TooFewMarks(count, missed), Some(DeleteEnd::TooFewMarks { have, misses })) => {
                *have == count && misses.as_slice() == missed
            }
            _ => false,
        }
    }
}

#[test]
fn ends_by_the_answers(rt: HostRuntime) -> Result<(), Fail> {
    use Says::{Deleted, Missing, Newer, Nothing};
    let cases: [(&[Says], Ends); 9] = [
        (
            &[Deleted(true), Deleted(false), Deleted(false)],
            Ends::Deleted(3, true),
        ),
        (
            &[Deleted(false), Deleted(false), Deleted(false)],
            Ends::Deleted(3, false),
        ),
        (
            &[Nothing, Deleted(false), Deleted(false), Deleted(true)],
            Ends::Deleted(3, true),
        ),
        (
            &[Nothing, Deleted(false), Missing, Deleted(false)],
            Ends::Deleted(2, false),
        ),
        (
            &[Newer(8), Deleted(false), Deleted(false)],
            Ends::Deleted(2, false),
        ),
        (&[Newer(8), Deleted(false), Newer(9)], Ends::Superseded(9)),
        (
            &[Newer(6), Newer(7), Newer(8), Nothing],
            Ends::Superseded(8),
        ),
        (
            &[Nothing, Deleted(true), Nothing, Missing],
            Ends::TooFewMarks(1, &[(0, Miss::NoReply), (2, Miss::NoReply), (3, Miss::Odd)]),
        ),
        (
            &[Newer(6), Newer(7), Deleted(false), Nothing],
            Ends::TooFewMarks(1, &[(0, Miss::Odd), (1, Miss::Odd), (3, Miss::NoReply)]),
        ),
    ];
    for (says, end) in cases {
        let mut op = begun(rt.alloc())?;
        assert_eq!(rt; answered(&mut op, says)?, says.len());
        assert!(rt; has_ended(&op, end));
    }
    Ok(())
}

#[test]
fn waits_for_its_answers(rt: HostRuntime) -> Result<(), Fail> {
    let mut op = begun(rt.alloc())?;
    for device in 0..3u16 {
        let sent = next(&mut op)?.ok_or("no message")?;
        assert_eq!(rt; (sent.ticket, sent.device), (u64::from(device), device));
    }
    assert!(rt; waits(&mut op)?);
    answer(&mut op, 7, Says::Deleted(true))?;
    answer(&mut op, 1, Says::Deleted(false))?;
    answer(&mut op, 1, Says::Deleted(true))?;
    answer(&mut op, 1, Says::Nothing)?;
    answer(&mut op, 0, Says::Deleted(false))?;
    assert!(rt; waits(&mut op)?);
    assert!(rt; is_open(&op));
    answer(&mut op, 2, Says::Nothing)?;
    let sent = next(&mut op)?.ok_or("no message")?;
    assert_eq!(rt; (sent.ticket, sent.device), (3, 3));
    answer(&mut op, 3, Says::Missing)?;
    assert!(rt; waits(&mut op)?);
    assert!(rt; has_ended(&op, Ends::Deleted(2, false)));
    Ok(())
}
