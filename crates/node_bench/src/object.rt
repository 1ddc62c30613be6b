//! The object that the messages are about.

ghost use Rattle.std.specs.Prelude.{◌≤◌};

use crate::server::Server;
use crate::telling::tell;
use anyhow::{Context, Result, ensure};
use std::alloc::Global;
use std::fmt;
use sw_archive::{ArchiveBytes, make_archive};
use sw_hashpath::Place;
use sw_message::Msg;
use sw_ring::Cluster;
use sw_types::{Bytes, Head, Name, Object, Policy, Stamp};

/// An archive of it has so many bytes more than its payload.
pub const OVERHEAD: usize = 101;

/// The stamp so many units after 1000000000.00000.
pub fn stamp(later: u32) -> Stamp {
    match Stamp::make(100_000_000_000_000 + u64::from(later)) {
        Some(stamp) => stamp,
        None => unreachable!(),
    }
}

/// The name of the object.
pub fn name(alloc: Global) -> Result<Name> {
    Ok(Name::make(alloc, b"a", b"c", b"o")?)
}

/// Its place.
pub fn place(alloc: Global, cluster: &Cluster) -> Result<Place> {
    Ok(cluster.place(alloc, &name(alloc)?)?)
}

/// The archive of an index of a body that is put under this name and policy, at the stamp so many units later.
pub fn archive(
    alloc: Global,
    policy: &Policy,
    name: &Name,
    later: u32,
    index: u32,
    body: &[u8],
) -> Result<Bytes> {
    ensure!(
        index < policy.k().saturating_add(policy.m()),
        "no such index"
    );
    let object = object_of(alloc, body)?;
    Ok(make_archive(alloc, policy, stamp(later), name, &object, index)?.into_bytes())
}

// The object of this body.
fn object_of(alloc: Global, body: &[u8]) -> Result<Object> {
    let head = Head::make(alloc, b"application/octet-stream", &[])?;
    let body = Bytes::from_slice(alloc, body)?;
    Object::make(head, body)
        .ok()
        .context("the body is too long")
}

// The archive of an index of the body `abc`.
fn short_archive(alloc: Global, cluster: &Cluster, later: u32, index: u32) -> Result<Bytes> {
    let name = name(alloc)?;
    archive(alloc, cluster.policy(), &name, later, index, b"abc")
}

/// A message about the object, with the number of units by which its stamp is later, and with an index; or one about no
/// place, with a partition.
#[derive(Clone, Copy)]
pub enum Request {
    PutFrag(u32, u32),
    Commit(u32, u32),
    Delete(u32),
    Ask,
    Fetch(u32, u32),
    Remove(u32, u32),
    Parts,
    Suffixes(u32),
    Places(u32),
}

impl fmt::Display for Request {
    fn fmt<W: fmt::Write>(&self, f: &mut fmt::Formatter<W>) -> fmt::Result {
        f.write_str(match self {
            Request::PutFrag(..) => "put",
            Request::Commit(..) => "commit",
            Request::Delete(_) => "delete",
            Request::Ask => "ask",
            Request::Fetch(..) => "fetch",
            Request::Remove(..) => "remove",
            Request::Parts => "parts",
            Request::Suffixes(_) => "suffixes",
            Request::Places(_) => "places",
        })
    }
}

impl Request {
    /// The message. The body of the object is `abc`.
    pub fn message(self, alloc: Global, cluster: &Cluster) -> Result<Msg> {
        let place = place(alloc, cluster)?;
        Ok(match self {
            Request::PutFrag(later, index) => {
                let bytes = short_archive(alloc, cluster, later, index)?;
                put_frag(place, later, index, bytes)
            }
            Request::Commit(later, index) => Msg::Commit {
                place,
                stamp: stamp(later),
                index,
            },
            Request::Delete(later) => Msg::Delete {
                place,
                stamp: stamp(later),
            },
            Request::Ask => Msg::Ask { place },
            Request::Fetch(later, index) => Msg::Fetch {
                place,
                stamp: stamp(later),
                index,
            },
            Request::Remove(later, index) => Msg::Remove {
                place,
                stamp: stamp(later),
                index,
            },
            Request::Parts => Msg::Parts,
            Request::Suffixes(part) => Msg::Suffixes { part },
            Request::Places(part) => Msg::Places { part },
        })
    }

    /// What a server answers, printed.
    pub fn tell(self, alloc: Global, server: &mut Server) -> Result<String> {
        let message = self.message(alloc, server.cluster())?;
        tell(alloc, server, &message)
    }
}

/// The message to store these bytes, at the stamp so many units later.
pub fn put_frag(place: Place, later: u32, index: u32, bytes: Bytes) -> Msg {
    Msg::PutFrag {
        place,
        stamp: stamp(later),
        index,
        bytes: ArchiveBytes::new(bytes),
    }
}
