//! Each change, stopped after each of its device calls by a crash.

ghost use Rattle.std.specs.Prelude.{◌≤◌};

use crate::changes::{bury_new, commit_plain, drop_found, purge_at_primary, store_new};
use crate::folder::{FOLDER, LONGEST, START, has_names, stamp, start};
use anyhow::{Result, bail};
use std::alloc::Global;
use std::fmt;
use sw_disk::DiskRefusal;
use sw_diskfile::tidy;
use sw_hashdir::Entry;
use sw_memdisk::MemDisk;

/// A change of the folder.
#[derive(Clone, Copy, Debug)]
pub enum Change {
    Store,
    Bury,
    Commit,
    Drop,
    Purge,
    Tidy,
}

/// All of them.
pub const CHANGES: [Change; 6] = [
    Change::Store,
    Change::Bury,
    Change::Commit,
    Change::Drop,
    Change::Purge,
    Change::Tidy,
];

impl fmt::Display for Change {
    fn fmt<W: fmt::Write>(&self, f: &mut fmt::Formatter<W>) -> fmt::Result {
        f.write_str(match self {
            Change::Store => "store",
            Change::Bury => "bury",
            Change::Commit => "commit",
            Change::Drop => "drop",
            Change::Purge => "purge",
            Change::Tidy => "tidy",
        })
    }
}

impl Change {
    /// Makes the change, and says whether its condition held.
    pub fn make(self, alloc: Global, disk: &mut MemDisk) -> Result<Result<bool, DiskRefusal>> {
        Ok(match self {
            Change::Store => store_new(alloc, disk, stamp(2)?, 2, b"new"),
            Change::Bury => bury_new(alloc, disk, stamp(3)?),
            Change::Commit => commit_plain(alloc, disk, stamp(1)?, 0),
            Change::Drop => {
                let entry = Entry {
                    stamp: stamp(0)?,
                    index: 0,
                    durable: true,
                };
                drop_found(alloc, disk, entry)
            }
            Change::Purge => purge_at_primary(alloc, disk).map(|_| true),
            Change::Tidy => tidy(alloc, disk, FOLDER, true).map(|_| true),
        })
    }

    /// How many device calls it makes.
    pub fn calls(self) -> u64
        ensures { result ≤ 5 }
    {
        match self {
            Change::Store | Change::Bury | Change::Purge => 4,
            Change::Commit | Change::Drop => 2,
            Change::Tidy => 5,
        }
    }

    /// The names of the folder's files before it, and after each change of names that it makes, in order.
    pub fn names(self) -> &'static [&'static [&'static str]] {
        match self {
            Change::Store => &[
                &START,
                &[
                    START[0],
                    START[1],
                    START[2],
                    START[3],
                    START[4],
                    "1000000000.00002#2.data",
                    LONGEST,
                ],
            ],
            Change::Bury => &[
                &START,
                &[
                    START[0],
                    START[1],
                    START[2],
                    START[3],
                    START[4],
                    "1000000000.00003.ts",
                    LONGEST,
                ],
            ],
            Change::Commit => &[
                &START,
                &[
                    START[0],
                    START[1],
                    START[2],
                    START[3],
                    "1000000000.00001#0#d.data",
                    LONGEST,
                ],
            ],
            Change::Drop => &[&START, &[START[0], START[2], START[3], START[4], LONGEST]],
            Change::Purge | Change::Tidy => &[
                &START,
                &[START[1], START[2], START[3], START[4], LONGEST],
                &[START[1], START[2], START[4], LONGEST],
            ],
        }
    }
}

/// Stops each change after each number of its device calls, crashes the disk so that it keeps none, one, or all of the
/// changes of names that are not stable, and prints after how many of the change's own the folder then is.
pub fn try_changes(rt: &(impl Print + AllocGlobal)) -> Result<()> {
    for change in CHANGES {
        for calls in 0..=change.calls() {
            let none = after_crash(rt.alloc(), change, calls, 0)?;
            let one = after_crash(rt.alloc(), change, calls, 1)?;
            let all = after_crash(rt.alloc(), change, calls, 9)?;
            println!(rt; "{} {}: {} {} {}", change, calls, none, one, all)?;
        }
    }
    Ok(())
}

/// After how many of its changes of names the folder is, where a change is stopped after so many device calls and so many
/// changes of names that are not stable are kept.
pub fn after_crash(alloc: Global, change: Change, calls: u64, pick: u64) -> Result<usize> {
    let mut disk = start(alloc, &[])?;
    disk.fuse(calls);
    let made = change.make(alloc, &mut disk)?;
    let is_whole = calls == change.calls();
    if made
        != (if is_whole {
            Ok(true)
        } else {
            Err(DiskRefusal::Failed)
        })
    {
        bail!("{} answers otherwise after {} calls", change, calls);
    }
    disk.crash(pick);
    for (count, names) in change.names().iter().enumerate() {
        if has_names(&disk, names) {
            return Ok(count);
        }
    }
    bail!("{} leaves neither before nor after", change)
}
