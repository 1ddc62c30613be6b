//! Passes of reconstructors over the nodes of a cluster.

ghost use Rattle.std.specs.Prelude.{◌≡◌, IfSome, OnOk, false};
ghost use Rattle.sw_message.specs.Message.{IsMember};

use std::alloc::Global;
use std::test::Fail;
use sw_daemon::{PassReport, pass};
use sw_put::PutOp;
use sw_ring::{Cluster, built_in};
use sw_sim_nodes::{Nodes, run_alone};
use sw_types::{Bytes, Head, Name, Object, Stamp};

const NOTHING: PassReport = PassReport {
    synced: 0,
    rebuilt: 0,
    removed: 0,
    kept: 0,
    missed: 0,
};

// Puts an object of this body as `a/c/o`.
pub(crate) fn put(alloc: Global, nodes: &mut Nodes<'_>, body: &[u8]) -> Result<(), Fail>
    ensures goes_on { OnOk result (nodes.new.is_wanting ≡ false) }
    ensures cluster { OnOk result (nodes.new.cluster ≡ nodes.old.cluster) }
{
    let name = Name::make(alloc, b"a", b"c", b"o")?;
    let head = Head::make(alloc, b"text/plain", &[])?;
    let body = Bytes::from_slice(alloc, body)?;
    let object = Object::make(head, body).ok().ok_or("too long")?;
    let stamp = Stamp::make(100_000_000_000_000).ok_or("stamp")?;
    let mut op = PutOp::begin(alloc, nodes.cluster(), stamp, &name, &object)?;
    run_alone(&mut op, nodes)?;
    Ok(())
}

// The device at a slot of a ring.
fn device_at(cluster: &Cluster, slot: usize) -> Option<u16>
    ensures { IfSome result (IsMember cluster.now) }
{
    let devices = cluster.devices();
    if slot >= devices.len() {
        return None;
    }
    Some(devices[slot].id)
}

// A pass of the device at this slot.
fn passed(alloc: Global, nodes: &mut Nodes<'_>, slot: usize) -> Result<PassReport, Fail>
    ensures cluster { OnOk result (nodes.new.cluster ≡ nodes.old.cluster) }
{
    let cluster = nodes.cluster();
    let own = device_at(cluster, slot).ok_or("no device")?;
    Ok(pass(alloc, cluster, own, nodes)?)
}

// A handoff brings home what it took for a primary, once; primaries that agree do nothing; and one rebuilds what another one lost.
#[test]
fn repair_what_devices_missed(rt: HostRuntime) -> Result<(), Fail> {
    let alloc = rt.alloc();
    let cluster = Cluster::read(alloc, built_in())?;
    let mut nodes = Nodes::new(alloc, &cluster)?;
    let one = device_at(&cluster, 1).ok_or("no device")?;
    nodes.stop(one)?;
    put(alloc, &mut nodes, b"abc")?;
    nodes.restart(one)?;
    let home = PassReport {
        removed: 1,
        ..NOTHING
    };
    assert_eq!(rt; passed(alloc, &mut nodes, 3)?, home);
    assert_eq!(rt; passed(alloc, &mut nodes, 3)?, NOTHING);
    assert_eq!(rt; passed(alloc, &mut nodes, 0)?, NOTHING);
    nodes.lose(one)?;
    let rebuilt = PassReport {
        synced: 1,
        rebuilt: 1,
        ..NOTHING
    };
    assert_eq!(rt; passed(alloc, &mut nodes, 0)?, rebuilt);
    assert_eq!(rt; passed(alloc, &mut nodes, 2)?, NOTHING);
    nodes.stop(one)?;
    let missed = PassReport {
        synced: 1,
        missed: 1,
        ..NOTHING
    };
    assert_eq!(rt; passed(alloc, &mut nodes, 0)?, missed);
    Ok(())
}
