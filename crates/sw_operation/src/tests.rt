//! Operations of each kind that no device answers.

ghost use Rattle.std.specs.Prelude.{◌≡◌};
ghost use Rattle.sw_ring.specs.Cluster.{ids_of};
ghost use Rattle.sw_ring.specs.Ring.{is_among};

use crate::tests::Kind::{Delete, Get, Head, Put, Recon};
use crate::{AnyOp, OpEnd};
use std::alloc::Global;
use std::test::Fail;
use sw_delete::DeleteEnd;
use sw_get::GetEnd;
use sw_message::Operation;
use sw_put::PutEnd;
use sw_recon::RevertEnd;
use sw_ring::{Cluster, built_in};
use sw_sync::SyncEnd;
use sw_types::{Bytes, Name, Object, Stamp};

#[derive(Clone, Copy, Debug)]
enum Kind {
    Put,
    Get,
    Head,
    Delete,
    // By the reconstructor of a device.
    Recon(u16),
}

fn abc(alloc: Global) -> Result<Object, Fail> {
    let head = sw_types::Head::make(alloc, b"text/plain", &[])?;
    let body = Bytes::from_slice(alloc, b"abc")?;
    Ok(Object::make(head, body).ok().ok_or("too long")?)
}

// Whether a device is one of the cluster.
fn is_member(cluster: &Cluster, device: u16) -> bool
    ensures { result ≡ is_among (ids_of cluster.now) device }
{
    cluster.devices().iter().any(|one| one.id == device)
}

// The job of a device's reconstructor.
fn recon<'a>(
    alloc: Global,
    cluster: &'a Cluster,
    device: u16,
    name: &Name,
) -> Result<AnyOp<'a>, Fail> {
    if !is_member(cluster, device) {
        return Err("no device".into());
    }
    Ok(AnyOp::recon(alloc, cluster, device, name)?)
}

// An operation of a kind on a/c/o.
fn begun<'a>(alloc: Global, cluster: &'a Cluster, kind: Kind) -> Result<AnyOp<'a>, Fail> {
    let name = Name::make(alloc, b"a", b"c", b"o")?;
    let stamp = Stamp::make(7).ok_or("stamp")?;
    match kind {
        Put => Ok(AnyOp::put(alloc, cluster, stamp, &name, &abc(alloc)?)?),
        Get => Ok(AnyOp::get(alloc, cluster, &name)?),
        Head => Ok(AnyOp::head(alloc, cluster, &name)?),
        Delete => Ok(AnyOp::delete(alloc, cluster, stamp, &name)?),
        Recon(device) => recon(alloc, cluster, device, &name),
    }
}

// How an operation ends each of whose messages is given up.
fn unheard(mut op: AnyOp) -> Result<OpEnd, Fail> {
    for _ in 0..8u32 {
        let Some(sent) = op.next()? else {
            break;
        };
        op.give_up(sent.ticket);
    }
    Ok(op.into_end().ok_or("not over")?)
}

// The built-in ring has the primaries 0 to 2 and the handoff 3.
fn is_due(kind: Kind, end: &OpEnd) -> bool {
    match (kind, end) {
        (Put, OpEnd::Put(PutEnd::TooFewSynced { have, misses })) => {
            *have == 0 && misses.as_slice().len() == 4
        }
        (Get, OpEnd::Get(GetEnd::Unanswered { misses })) => misses.as_slice().len() == 4,
        (Head, OpEnd::Head(GetEnd::Unanswered { misses })) => misses.as_slice().len() == 4,
        (Delete, OpEnd::Delete(DeleteEnd::TooFewMarks { have, misses })) => {
            *have == 0 && misses.as_slice().len() == 4
        }
        (Recon(0), OpEnd::Sync(SyncEnd::Unanswered { device })) => *device == 0,
        (Recon(3), OpEnd::Revert(RevertEnd::Unanswered { device })) => *device == 3,
        _ => false,
    }
}

#[test]
fn each_kind_ends_as_it_is_to(rt: HostRuntime) -> Result<(), Fail> {
    let alloc = rt.alloc();
    let cluster = Cluster::read(alloc, built_in())?;
    for kind in [Put, Get, Head, Delete, Recon(0), Recon(3)] {
        let end = unheard(begun(alloc, &cluster, kind)?)?;
        assert!(rt; is_due(kind, &end), "{kind:?} {end:?}");
    }
    Ok(())
}
