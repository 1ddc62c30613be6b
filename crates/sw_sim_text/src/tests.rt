//! A line of each kind.

use crate::print_told;
use std::alloc::Global;
use std::test::Fail;
use sw_delete::DeleteEnd;
use sw_get::GetEnd;
use sw_hashdir::{Entry, Floor, FloorKind};
use sw_message::{Miss, Target};
use sw_operation::OpEnd;
use sw_put::PutEnd;
use sw_recon::{KeptCause, KeptEntry, RevertEnd};
use sw_sim_exchange::{AnswerKind, EndLine, RequestKind, SentLine};
use sw_sim_world::{ShowLine, Told};
use sw_sync::{Failure, SyncEnd};
use sw_types::{Bytes, Head, Items, Object, Stamp};

// What is to be printed, behind the text that stands before it.
const TEXT: &str = "before\n\
    o 5\n\
    m 1 5 3 put 0\n\
    m 2 5 3 commit 11\n\
    m 3 5 3 delete\n\
    m 4 5 3 ask\n\
    m 5 5 3 fetch 2\n\
    m 6 5 3 remove 4294967295\n\
    r 7 18446744073709551615 65535 synced\n\
    r 8 18446744073709551615 65535 committed\n\
    r 9 18446744073709551615 65535 deleted yes\n\
    r 10 18446744073709551615 65535 deleted no\n\
    r 11 18446744073709551615 65535 superseded 1000000000.00001\n\
    r 12 18446744073709551615 65535 missing\n\
    r 13 18446744073709551615 65535 held\n\
    r 14 18446744073709551615 65535 fragment\n\
    r 15 18446744073709551615 65535 gone\n\
    r 16 18446744073709551615 65535 removed\n\
    r 17 18446744073709551615 65535 kept\n\
    r 18 18446744073709551615 65535 no-space 18446744073709551615 0\n\
    r 19 18446744073709551615 65535 spoiled\n\
    e 1 created 1000000000.00000 3\n\
    e 2 superseded 1000000000.00001\n\
    e 3 too-few-synced 2\n\
    e 4 too-few-commits 1\n\
    e 5 found 1000000000.00000 616263 0,1\n\
    e 6 found 1000000000.00000 - 12\n\
    e 7 absent\n\
    e 8 buried 1000000000.00001\n\
    e 9 unanswered 0,1\n\
    e 10 too-few 1000000000.00000 1\n\
    e 11 overtaken\n\
    e 12 head 1000000000.00000 0 d41d8cd98f00b204e9800998ecf8427e\n\
    e 13 head 1000000000.00000 3 900150983cd24fb0d6963f7d28e17f72\n\
    e 14 absent\n\
    e 15 deleted 1000000000.00001 3 yes\n\
    e 16 deleted 1000000000.00001 2 no\n\
    e 17 superseded 1000000000.00001\n\
    e 18 too-few-marks 0\n\
    e 19 sync 2 1 0 3\n\
    e 20 unanswered 1\n\
    e 21 newer 1000000000.00001\n\
    e 22 too-few 1000000000.00000 1\n\
    e 23 revert 4 1\n\
    e 24 unanswered 63\n\
    e 18446744073709551615 absent\n\
    s 3 0 1000000000.00000 durable 6162\n\
    s 3 11 1000000000.00000 plain -\n\
    s 2 - 1000000000.00001 tombstone\n\
    s 63 empty\n";

fn created() -> Result<Stamp, Fail> {
    Ok(Stamp::make(100_000_000_000_000).ok_or("stamp")?)
}

fn deleted() -> Result<Stamp, Fail> {
    Ok(Stamp::make(100_000_000_000_001).ok_or("stamp")?)
}

fn floor() -> Result<Floor, Fail> {
    Ok(Floor {
        stamp: deleted()?,
        kind: FloorKind::Tombstone,
    })
}

fn misses(alloc: Global) -> Result<Items<(u16, Miss)>, Fail> {
    let misses = vec![in alloc; (1, Miss::NoReply), (0, Miss::DiskFault), (1, Miss::Odd)]?;
    Ok(Items::from(misses))
}

fn requests() -> [RequestKind; 6] {
    [
        RequestKind::Put { index: 0 },
        RequestKind::Commit { index: 11 },
        RequestKind::Delete,
        RequestKind::Ask,
        RequestKind::Fetch { index: 2 },
        RequestKind::Remove { index: u32::MAX },
    ]
}

fn answers() -> Result<[AnswerKind; 13], Fail> {
    Ok([
        AnswerKind::Synced,
        AnswerKind::Committed,
        AnswerKind::Deleted { existed: true },
        AnswerKind::Deleted { existed: false },
        AnswerKind::Superseded { stamp: deleted()? },
        AnswerKind::Missing,
        AnswerKind::Held,
        AnswerKind::Fragment,
        AnswerKind::Gone,
        AnswerKind::Removed,
        AnswerKind::Kept,
        AnswerKind::NoSpace {
            need: u64::MAX,
            free: 0,
        },
        AnswerKind::Spoiled,
    ])
}

// A start, and each request and each reply with its number.
fn sent(alloc: Global) -> Result<Vec<SentLine>, Fail> {
    let mut lines = vec![in alloc; SentLine::Started { operation: 5 }]?;
    for kind in &requests() {
        lines.push(SentLine::Request {
            message: lines.len() as u64,
            operation: 5,
            device: 3,
            kind: *kind,
        })?;
    }
    for kind in &answers()? {
        lines.push(SentLine::Answered {
            message: lines.len() as u64,
            operation: u64::MAX,
            device: u16::MAX,
            kind: *kind,
        })?;
    }
    Ok(lines)
}

// Adds an end with its number, from 1.
fn add(lines: &mut Vec<EndLine>, end: OpEnd) -> Result<(), Fail> {
    let operation = (lines.len() as u64).saturating_add(1);
    lines.push(EndLine { operation, end })?;
    Ok(())
}

fn add_puts(lines: &mut Vec<EndLine>, alloc: Global) -> Result<(), Fail> {
    add(
        lines,
        OpEnd::Put(PutEnd::Created {
            stamp: created()?,
            commits: 3,
        }),
    )?;
    add(lines, OpEnd::Put(PutEnd::Superseded { floor: floor()? }))?;
    add(
        lines,
        OpEnd::Put(PutEnd::TooFewSynced {
            have: 2,
            misses: misses(alloc)?,
        }),
    )?;
    add(
        lines,
        OpEnd::Put(PutEnd::TooFewCommits {
            have: 1,
            misses: misses(alloc)?,
        }),
    )
}

// An object of this body, found in archives of these indices.
fn found(alloc: Global, body: &[u8], indices: &[u32]) -> Result<GetEnd, Fail> {
    let head = Head::make(alloc, b"text/plain", &[])?;
    let object = Object::make(head, Bytes::from_slice(alloc, body)?)
        .ok()
        .ok_or("too long")?;
    let mut sources = Vec::new(alloc);
    for index in indices {
        sources.push(Target {
            index: *index,
            device: 7,
        })?;
    }
    Ok(GetEnd::Found {
        stamp: created()?,
        object,
        sources: Items::from(sources),
    })
}

fn add_gets(lines: &mut Vec<EndLine>, alloc: Global) -> Result<(), Fail> {
    add(lines, OpEnd::Get(found(alloc, b"abc", &[0, 1])?))?;
    add(lines, OpEnd::Get(found(alloc, b"", &[12])?))?;
    add(lines, OpEnd::Get(GetEnd::Absent))?;
    add(lines, OpEnd::Get(GetEnd::Buried { stamp: deleted()? }))?;
    add(
        lines,
        OpEnd::Get(GetEnd::Unanswered {
            misses: misses(alloc)?,
        }),
    )?;
    add(
        lines,
        OpEnd::Get(GetEnd::TooFew {
            stamp: created()?,
            have: 1,
        }),
    )?;
    add(
        lines,
        OpEnd::Get(GetEnd::Overtaken {
            events: Items::from(Vec::new(alloc)),
        }),
    )
}

fn add_heads(lines: &mut Vec<EndLine>, alloc: Global) -> Result<(), Fail> {
    add(lines, OpEnd::Head(found(alloc, b"", &[0, 1])?))?;
    add(lines, OpEnd::Head(found(alloc, b"abc", &[0, 1])?))?;
    add(lines, OpEnd::Head(GetEnd::Absent))
}

fn add_deletes(lines: &mut Vec<EndLine>, alloc: Global) -> Result<(), Fail> {
    let stamp = deleted()?;
    add(
        lines,
        OpEnd::Delete(DeleteEnd::Deleted {
            stamp,
            marks: 3,
            existed: true,
        }),
    )?;
    add(
        lines,
        OpEnd::Delete(DeleteEnd::Deleted {
            stamp,
            marks: 2,
            existed: false,
        }),
    )?;
    add(
        lines,
        OpEnd::Delete(DeleteEnd::Superseded { floor: floor()? }),
    )?;
    add(
        lines,
        OpEnd::Delete(DeleteEnd::TooFewMarks {
            have: 0,
            misses: misses(alloc)?,
        }),
    )
}

fn add_syncs(lines: &mut Vec<EndLine>, alloc: Global) -> Result<(), Fail> {
    let failure = Failure::Missed {
        device: 1,
        miss: Miss::NoReply,
    };
    let failed = vec![in alloc; failure, failure, failure]?;
    add(
        lines,
        OpEnd::Sync(SyncEnd::Done {
            commits: 2,
            rebuilt: 1,
            tombstones: 0,
            failed: Items::from(failed),
        }),
    )?;
    add(lines, OpEnd::Sync(SyncEnd::Unanswered { device: 1 }))?;
    add(lines, OpEnd::Sync(SyncEnd::Newer { floor: floor()? }))?;
    add(
        lines,
        OpEnd::Sync(SyncEnd::TooFew {
            stamp: created()?,
            have: 1,
            misses: misses(alloc)?,
        }),
    )
}

fn add_reverts(lines: &mut Vec<EndLine>, alloc: Global) -> Result<(), Fail> {
    let kept = vec![in alloc;
        KeptEntry {
            stamp: created()?,
            index: 2,
            cause: KeptCause::NotDurable,
        },
    ]?;
    add(
        lines,
        OpEnd::Revert(RevertEnd::Done {
            removed: 4,
            kept: Items::from(kept),
        }),
    )?;
    add(lines, OpEnd::Revert(RevertEnd::Unanswered { device: 63 }))
}

// Each end, and one with the greatest number.
fn ends(alloc: Global) -> Result<Vec<EndLine>, Fail> {
    let mut lines = Vec::new(alloc);
    add_puts(&mut lines, alloc)?;
    add_gets(&mut lines, alloc)?;
    add_heads(&mut lines, alloc)?;
    add_deletes(&mut lines, alloc)?;
    add_syncs(&mut lines, alloc)?;
    add_reverts(&mut lines, alloc)?;
    lines.push(EndLine {
        operation: u64::MAX,
        end: OpEnd::Get(GetEnd::Absent),
    })?;
    Ok(lines)
}

fn shown(alloc: Global) -> Result<Vec<ShowLine>, Fail> {
    let stamp = created()?;
    let lines = vec![in alloc;
        ShowLine::Stored {
            device: 3,
            entry: Entry {
                stamp,
                index: 0,
                durable: true
            },
            payload: Bytes::from_slice(alloc, b"ab")?,
        },
        ShowLine::Stored {
            device: 3,
            entry: Entry {
                stamp,
                index: 11,
                durable: false
            },
            payload: Bytes::new(alloc),
        },
        ShowLine::Buried {
            device: 2,
            stamp: deleted()?
        },
        ShowLine::Empty { device: 63 },
    ]?;
    Ok(lines)
}

#[test]
fn prints_a_line_of_each_kind(rt: HostRuntime) -> Result<(), Fail> {
    let alloc = rt.alloc();
    let told = Told {
        sent: Items::from(sent(alloc)?),
        ends: Items::from(ends(alloc)?),
        shown: Items::from(shown(alloc)?),
    };
    let mut text = Bytes::from_slice(alloc, b"before\n")?;
    print_told(alloc, &told, &mut text)?;
    assert_eq!(rt; str::from_utf8(text.as_slice()).ok(), Some(TEXT));
    Ok(())
}
