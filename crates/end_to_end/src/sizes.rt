//! A body of several segments.

use crate::passes::put;
use std::alloc::Global;
use std::test::Fail;
use sw_get::{GetEnd, GetOp};
use sw_ring::{Cluster, built_in};
use sw_sim_nodes::{Nodes, run_alone};
use sw_types::Name;

// A body of so many bytes, no two neighbouring segments of which are the same.
fn long_body(alloc: Global, length: u32) -> Result<Vec<u8>, Fail> {
    let mut body = Vec::with_capacity(alloc, length as usize)?;
    for i in 0..length {
        body.push((i % 251) as u8)?;
    }
    Ok(body)
}

// Five times 2^20 bytes, in five segments.
#[test]
fn keeps_a_body_of_five_mebibytes(rt: HostRuntime) -> Result<(), Fail> {
    let alloc = rt.alloc();
    let cluster = Cluster::read(alloc, built_in())?;
    let mut nodes = Nodes::new(alloc, &cluster)?;
    let body = long_body(alloc, 5_242_880)?;
    put(alloc, &mut nodes, &body)?;
    let name = Name::make(alloc, b"a", b"c", b"o")?;
    let mut get = GetOp::begin(alloc, nodes.cluster(), &name)?;
    run_alone(&mut get, &mut nodes)?;
    let Some(GetEnd::Found { object, .. }) = get.into_end() else {
        return Err("not found".into());
    };
    assert!(rt; object.body().as_slice() == body.as_slice());
    Ok(())
}
