//! Deletes over a link.

ghost use Rattle.std.specs.Prelude.{◌≡◌, Some, IsErrOf};
ghost use Rattle.sw_words.specs.Counts.{Rose};
ghost use Rattle.sw_ring.specs.Cluster.{ClusterModel};
ghost use Rattle.sw_message.specs.Running.{StillTells};
ghost use Rattle.sw_front.specs.Over.{DeletesOver};

use crate::fault::FrontFault;
use std::alloc::Global;
use sw_delete::{DeleteEnd, DeleteOp};
use sw_message::{Draw, run_whole};
use sw_ring::Cluster;
use sw_types::Name;

/// Deletes what was put under a name: a stamp is drawn, and a delete of that stamp runs to its end over the link.
pub fn delete<L: Draw>(
    alloc: Global,
    cluster: &Cluster,
    link: &mut L,
    name: &Name,
) -> Result<DeleteEnd, FrontFault>
    requires { (of : ClusterModel) → L.cluster link.old ≡ Some of → cluster.now ≡ of }
    ensures deletes { DeletesOver L.draws L.calls L.losses L.learnt cluster.now name.now link.old result link.new }
    ensures spent { IsErrOf result FrontFault.StampsSpent → Rose (L.refusals link.old) (L.refusals link.new) }
    ensures tells { StillTells (L.may_be_silent link.new) (L.learnt link.old) (L.learnt link.new) }
    ensures silence { L.may_be_silent link.old → L.may_be_silent link.new }
    ensures cluster { L.cluster link.new ≡ L.cluster link.old }
{
    prove!(!name.account().is_empty());
    let stamp = link.draw(name, None)?;
    let mut op = DeleteOp::begin(alloc, cluster, stamp, name)?;
    run_whole(&mut op, link)?;
    Ok(op.into_end().unwrap())
}
