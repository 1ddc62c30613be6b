//! A put, a get and a delete over a link that tells, on the built-in ring.

use crate::{Telling, put_and_get};
use std::alloc::Global;
use std::test::Fail;
use sw_delete::DeleteEnd;
use sw_front::{delete, get, put};
use sw_get::GetEnd;
use sw_put::PutEnd;
use sw_ring::{Cluster, built_in};
use sw_types::{Bytes, Head, Name, Object, Stamp};

fn a_c_o(alloc: Global) -> Result<Name, Fail> {
    Ok(Name::make(alloc, b"a", b"c", b"o")?)
}

fn abc(alloc: Global) -> Result<Object, Fail> {
    let head = Head::make(alloc, b"text/plain", &[])?;
    let body = Bytes::from_slice(alloc, b"abc")?;
    Ok(Object::make(head, body).ok().ok_or("too long")?)
}

fn stamp(units: u64) -> Result<Stamp, Fail> {
    Ok(Stamp::make(units).ok_or("too great")?)
}

fn is_abc(found: &GetEnd) -> bool {
    match found {
        GetEnd::Found { stamp, object, .. } => {
            stamp.units() == 7 && object.body().as_slice() == b"abc".as_slice()
        }
        _ => false,
    }
}

#[test]
fn finds_what_was_put(rt: HostRuntime) -> Result<(), Fail> {
    let alloc = rt.alloc();
    let cluster = Cluster::read(alloc, built_in())?;
    let (name, object) = (a_c_o(alloc)?, abc(alloc)?);
    let (created, found) = put_and_get(alloc, &cluster, stamp(7)?, &name, &object)?;
    assert!(rt; matches!(&created, PutEnd::Created { commits: 3, .. }));
    assert!(rt; is_abc(&found));
    Ok(())
}

// A primary is down from the put on.
#[test]
fn tells_as_long_as_memory_is_there(rt: HostRuntime) -> Result<(), Fail> {
    let alloc = rt.alloc();
    let cluster = Cluster::read(alloc, built_in())?;
    let (name, object) = (a_c_o(alloc)?, abc(alloc)?);
    let mut link = Telling::new(alloc, &cluster, stamp(7)?)?;
    put(alloc, &cluster, &mut link, &name, &object)?;
    link.stop(0)?;
    assert!(rt; is_abc(&get(alloc, &cluster, &mut link, &name)?));
    let deleted = delete(alloc, &cluster, &mut link, &name)?;
    assert!(rt; matches!(&deleted, DeleteEnd::Deleted { existed: true, .. }));
    assert!(rt; !link.is_silent());
    Ok(())
}
