//! Replies, printed.

use crate::server::Server;
use anyhow::Result;
use std::alloc::Global;
use std::fmt;
use sw_archive::ArchiveFault;
use sw_hashdir::{Floor, FloorKind, Listing};
use sw_hashpath::Place;
use sw_message::{Foreign, Msg, Reply, Spoil};

/// What a server answers, printed.
pub fn tell(alloc: Global, server: &mut Server, message: &Msg) -> Result<String> {
    let reply = server.answer(alloc, message)?;
    Ok(format!(in alloc; "{}", Told(&reply))?)
}

/// A reply, printed in one line.
#[derive(Clone, Copy)]
pub struct Told<'a>(pub &'a Reply);

impl fmt::Display for Told<'_> {
    fn fmt<W: fmt::Write>(&self, f: &mut fmt::Formatter<W>) -> fmt::Result {
        match self.0 {
            Reply::Synced => f.write_str("synced"),
            Reply::Committed => f.write_str("committed"),
            Reply::Deleted { existed: true } => f.write_str("deleted yes"),
            Reply::Deleted { existed: false } => f.write_str("deleted no"),
            Reply::Superseded(floor) => write!(f, "superseded{}", TheFloor(*floor)),
            Reply::Missing => f.write_str("missing"),
            Reply::Held(listing) => write!(f, "held{}", Listed(listing)),
            Reply::Fragment(bytes) => write!(f, "fragment of {} bytes", bytes.len()),
            Reply::Gone(listing) => write!(f, "gone{}", Listed(listing)),
            Reply::Spoiled(spoil) => write!(f, "spoiled{}", Why(*spoil)),
            Reply::Kept => f.write_str("kept"),
            Reply::Removed => f.write_str("removed"),
            Reply::PartList(parts) => write!(f, "parts{}", Parts(parts.as_slice())),
            Reply::SuffixList(pairs) => write!(f, "suffixes{}", Suffixes(pairs.as_slice())),
            Reply::PlaceList(places) => write!(f, "places{}", Places(places.as_slice())),
            Reply::DiskFault => f.write_str("disk-fault"),
            Reply::NoSpace { need, free } => write!(f, "no-space {} {}", need, free),
            Reply::NoMemory => f.write_str("no-memory"),
        }
    }
}

#[derive(Clone, Copy)]
struct TheFloor(Floor);

impl fmt::Display for TheFloor {
    fn fmt<W: fmt::Write>(&self, f: &mut fmt::Formatter<W>) -> fmt::Result {
        let kind = match self.0.kind {
            FloorKind::Durable => "durable",
            FloorKind::Tombstone => "tombstone",
        };
        write!(f, " ({} {})", self.0.stamp, kind)
    }
}

#[derive(Clone, Copy)]
struct Listed<'a>(&'a Listing);

impl fmt::Display for Listed<'_> {
    fn fmt<W: fmt::Write>(&self, f: &mut fmt::Formatter<W>) -> fmt::Result {
        for entry in self.0.entries() {
            let state = if entry.durable { "durable" } else { "plain" };
            write!(f, " ({} {} {})", entry.stamp, entry.index, state)?;
        }
        for stamp in self.0.tombstones() {
            write!(f, " ({} tombstone)", *stamp)?;
        }
        Ok(())
    }
}

#[derive(Clone, Copy)]
struct Why(Spoil);

impl fmt::Display for Why {
    fn fmt<W: fmt::Write>(&self, f: &mut fmt::Formatter<W>) -> fmt::Result {
        f.write_str(match self.0 {
            Spoil::Foreign(Foreign::Name) => " by its name",
            Spoil::Foreign(Foreign::Stamp) => " by its stamp",
            Spoil::Foreign(Foreign::Index) => " by its index",
            Spoil::Foreign(Foreign::Code) => " by its code",
            Spoil::Foreign(Foreign::Object) => " by its object",
            Spoil::Fault(ArchiveFault::Damaged { .. }) => " by damage",
            Spoil::Fault(_) => ", no archive",
        })
    }
}

#[derive(Clone, Copy)]
struct Parts<'a>(&'a [u32]);

impl fmt::Display for Parts<'_> {
    fn fmt<W: fmt::Write>(&self, f: &mut fmt::Formatter<W>) -> fmt::Result {
        for part in self.0 {
            write!(f, " {}", *part)?;
        }
        Ok(())
    }
}

#[derive(Clone, Copy)]
struct Suffixes<'a>(&'a [(u16, [u8; 16])]);

impl fmt::Display for Suffixes<'_> {
    fn fmt<W: fmt::Write>(&self, f: &mut fmt::Formatter<W>) -> fmt::Result {
        for (suffix, hash) in self.0 {
            write!(f, " ({:03x} {})", *suffix, Digits(hash))?;
        }
        Ok(())
    }
}

#[derive(Clone, Copy)]
struct Places<'a>(&'a [Place]);

impl fmt::Display for Places<'_> {
    fn fmt<W: fmt::Write>(&self, f: &mut fmt::Formatter<W>) -> fmt::Result {
        for place in self.0 {
            write!(f, " {}", Digits(&place.hash()))?;
        }
        Ok(())
    }
}

// The hexadecimal digits of a hash.
#[derive(Clone, Copy)]
struct Digits<'a>(&'a [u8; 16]);

impl fmt::Display for Digits<'_> {
    fn fmt<W: fmt::Write>(&self, f: &mut fmt::Formatter<W>) -> fmt::Result {
        for byte in self.0 {
            write!(f, "{:02x}", *byte)?;
        }
        Ok(())
    }
}
