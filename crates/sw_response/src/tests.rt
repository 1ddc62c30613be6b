//! Answers, as they are written.

use super::*;
use std::alloc::Global;
use std::process::Abort;
use std::test::Fail;
use sw_delete::DeleteEnd;
use sw_get::GetEnd;
use sw_hashdir::{Floor, FloorKind};
use sw_httpwrite::{Answer, write_response};
use sw_io::MemConn;
use sw_message::Miss;
use sw_put::PutEnd;
use sw_types::{Bytes, Head, Items, Object, Stamp};

fn expect_written(rt: &impl Abort, alloc: Global, answer: &Answer, want: &str) -> Result<(), Fail> {
    let mut conn = MemConn::new(alloc, Vec::new(alloc));
    if write_response(alloc, &mut conn, answer).is_err() {
        return Err("not written".into());
    }
    assert_eq!(rt; conn.written(), want.as_bytes());
    Ok(())
}

fn stamp() -> Result<Stamp, Fail> {
    Ok(Stamp::make(100_000_000_000_000).ok_or("stamp")?)
}

fn floor() -> Result<Floor, Fail> {
    Ok(Floor {
        stamp: stamp()?,
        kind: FloorKind::Durable,
    })
}

// `abc`, with a pair.
fn abc(alloc: Global) -> Result<Object, Fail> {
    let pair = (
        Bytes::from_slice(alloc, b"colour")?,
        Bytes::from_slice(alloc, b"Red")?,
    );
    let head = Head::make(alloc, b"image/jpeg", &[pair])?;
    let body = Bytes::from_slice(alloc, b"abc")?;
    Ok(Object::make(head, body).ok().ok_or("too long")?)
}

fn misses(alloc: Global, last: Miss) -> Result<Items<(u16, Miss)>, Fail> {
    let mut misses = Vec::new(alloc);
    misses.push((3, Miss::NoReply))?;
    misses.push((4, last))?;
    Ok(Items::from(misses))
}

#[test]
fn puts(rt: HostRuntime) -> Result<(), Fail> {
    let alloc = rt.alloc();
    let digest = abc(alloc)?.body_md5();
    let cases = [
        (
            PutEnd::Created {
                stamp: stamp()?,
                commits: 3,
            },
            false,
            "HTTP/1.1 201 Created\r\nContent-Length: 0\r\nETag: 900150983cd24fb0d6963f7d28e17f72\r\nX-Timestamp: 1000000000.00000\r\nX-Commits: 3\r\n\r\n",
        ),
        (
            PutEnd::Superseded { floor: floor()? },
            true,
            "HTTP/1.1 202 Accepted\r\nContent-Length: 28\r\nContent-Type: text/plain\r\nConnection: close\r\n\r\nSuperseded 1000000000.00000\n",
        ),
        (
            PutEnd::TooFewSynced {
                have: 1,
                misses: misses(alloc, Miss::DiskFault)?,
            },
            false,
            "HTTP/1.1 503 Service Unavailable\r\nContent-Length: 13\r\nContent-Type: text/plain\r\n\r\nTooFewSynced\n",
        ),
        (
            PutEnd::TooFewCommits {
                have: 1,
                misses: misses(alloc, Miss::NoMemory)?,
            },
            false,
            "HTTP/1.1 503 Service Unavailable\r\nContent-Length: 9\r\nContent-Type: text/plain\r\n\r\nNoMemory\n",
        ),
    ];
    for (end, close, want) in &cases {
        let answer = put_answer(alloc, *close, digest, end)?;
        expect_written(&rt, alloc, &answer, want)?;
    }
    Ok(())
}

#[test]
fn gets(rt: HostRuntime) -> Result<(), Fail> {
    let alloc = rt.alloc();
    let found =
        "HTTP/1.1 200 OK\r\nContent-Length: 3\r\nContent-Type: image/jpeg\r\nETag: 900150983cd24fb0d6963f7d28e17f72\r\nX-Timestamp: 1000000000.00000\r\nX-Object-Meta-colour: Red\r\n\r\n";
    for (to_head, body) in [(false, "abc"), (true, "")] {
        let end = GetEnd::Found {
            stamp: stamp()?,
            object: abc(alloc)?,
            sources: Items::from(Vec::new(alloc)),
        };
        let answer = get_answer(alloc, to_head, false, end)?;
        let want = format!(in alloc; "{found}{body}")?;
        expect_written(&rt, alloc, &answer, &want)?;
    }
    let answer = get_answer(alloc, false, false, GetEnd::Buried { stamp: stamp()? })?;
    expect_written(
        &rt,
        alloc,
        &answer,
        "HTTP/1.1 404 Not Found\r\nContent-Length: 24\r\nContent-Type: text/plain\r\n\r\nBuried 1000000000.00000\n",
    )?;
    let misses = misses(alloc, Miss::NoReply)?;
    let answer = get_answer(alloc, true, false, GetEnd::Unanswered { misses })?;
    expect_written(
        &rt,
        alloc,
        &answer,
        "HTTP/1.1 503 Service Unavailable\r\nContent-Length: 11\r\nContent-Type: text/plain\r\n\r\n",
    )
}

#[test]
fn deletes(rt: HostRuntime) -> Result<(), Fail> {
    let alloc = rt.alloc();
    let cases = [
        (
            DeleteEnd::Deleted {
                stamp: stamp()?,
                marks: 3,
                existed: true,
            },
            "HTTP/1.1 204 No Content\r\n\r\n",
        ),
        (
            DeleteEnd::Deleted {
                stamp: stamp()?,
                marks: 3,
                existed: false,
            },
            "HTTP/1.1 404 Not Found\r\nContent-Length: 8\r\nContent-Type: text/plain\r\n\r\nMissing\n",
        ),
        (
            DeleteEnd::TooFewMarks {
                have: 1,
                misses: misses(alloc, Miss::NoReply)?,
            },
            "HTTP/1.1 503 Service Unavailable\r\nContent-Length: 12\r\nContent-Type: text/plain\r\n\r\nTooFewMarks\n",
        ),
        (
            DeleteEnd::Superseded { floor: floor()? },
            "HTTP/1.1 409 Conflict\r\nContent-Length: 28\r\nContent-Type: text/plain\r\n\r\nSuperseded 1000000000.00000\n",
        ),
    ];
    for (end, want) in &cases {
        let answer = delete_answer(alloc, false, end)?;
        expect_written(&rt, alloc, &answer, want)?;
    }
    Ok(())
}

// Where rounds were used up, too few are there, no stamp was left, or memory was wanted.
#[test]
fn others(rt: HostRuntime) -> Result<(), Fail> {
    let alloc = rt.alloc();
    let few = GetEnd::TooFew {
        stamp: stamp()?,
        have: 1,
    };
    let answer = get_answer(alloc, false, false, few)?;
    expect_written(
        &rt,
        alloc,
        &answer,
        "HTTP/1.1 503 Service Unavailable\r\nContent-Length: 7\r\nContent-Type: text/plain\r\n\r\nTooFew\n",
    )?;
    let events = Items::from(Vec::new(alloc));
    let answer = get_answer(alloc, false, false, GetEnd::Overtaken { events })?;
    expect_written(
        &rt,
        alloc,
        &answer,
        "HTTP/1.1 503 Service Unavailable\r\nContent-Length: 10\r\nContent-Type: text/plain\r\n\r\nOvertaken\n",
    )?;
    expect_written(
        &rt,
        alloc,
        &spent_answer(alloc, false)?,
        "HTTP/1.1 503 Service Unavailable\r\nContent-Length: 12\r\nContent-Type: text/plain\r\n\r\nStampsSpent\n",
    )?;
    expect_written(
        &rt,
        alloc,
        &wanting_answer(alloc, true)?,
        "HTTP/1.1 500 Internal Server Error\r\nContent-Length: 9\r\nContent-Type: text/plain\r\nConnection: close\r\n\r\n",
    )
}
