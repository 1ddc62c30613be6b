//! Gets over a link.

ghost use Rattle.std.specs.Prelude.{◌≡◌, Some};
ghost use Rattle.sw_ring.specs.Cluster.{ClusterModel};
ghost use Rattle.sw_message.specs.Running.{StillTells};
ghost use Rattle.sw_front.specs.Over.{GetsOver};

use std::alloc::Global;
use sw_get::{GetEnd, GetOp};
use sw_message::{Link, run_whole};
use sw_ring::Cluster;
use sw_types::{Name, NoMemory};

/// Gets what was put under a name: a get runs to its end over a link. Where the link still tells what it has learnt, an object that is
/// found is the whole object of one put that it has learnt.
pub fn get<L: Link>(
    alloc: Global,
    cluster: &Cluster,
    link: &mut L,
    name: &Name,
) -> Result<GetEnd, NoMemory>
    requires { (of : ClusterModel) → L.cluster link.old ≡ Some of → cluster.now ≡ of }
    ensures gets { GetsOver L.calls L.losses L.learnt (record { cluster = cluster.now; name = name.now }) link.old result link.new }
    ensures tells { StillTells (L.may_be_silent link.new) (L.learnt link.old) (L.learnt link.new) }
    ensures silence { L.may_be_silent link.old → L.may_be_silent link.new }
    ensures cluster { L.cluster link.new ≡ L.cluster link.old }
{
    let mut op = GetOp::begin(alloc, cluster, name)?;
    run_whole(&mut op, link)?;
    Ok(op.into_end().unwrap())
}
