//! Puts over a link.

ghost use Rattle.std.specs.Prelude.{◌≡◌, ◌≤◌, Some, IsErrOf, OnOk};
ghost use Rattle.sw_words.specs.Counts.{Rose};
ghost use Rattle.sw_ring.specs.Cluster.{ClusterModel};
ghost use Rattle.sw_message.specs.Running.{StillTells};
ghost use Rattle.sw_front.specs.Over.{PutsOver};

use crate::fault::FrontFault;
use std::alloc::Global;
use sw_message::{Draw, run_whole};
use sw_put::{PutEnd, PutOp};
use sw_ring::Cluster;
use sw_types::{Name, Object};

/// Puts an object under a name: its stamp is drawn, and a put of that stamp runs to its end over the link.
pub fn put<L: Draw>(
    alloc: Global,
    cluster: &Cluster,
    link: &mut L,
    name: &Name,
    object: &Object,
) -> Result<PutEnd, FrontFault>
    requires { (of : ClusterModel) → L.cluster link.old ≡ Some of → cluster.now ≡ of }
    ensures puts { PutsOver L.draws L.calls L.losses L.learnt cluster.now name.now object.now link.old result link.new }
    ensures spent { IsErrOf result FrontFault.StampsSpent → Rose (L.refusals link.old) (L.refusals link.new) }
    ensures tells { StillTells (L.may_be_silent link.new) (L.learnt link.old) (L.learnt link.new) }
    ensures silence { L.may_be_silent link.old → L.may_be_silent link.new }
    ensures cluster { L.cluster link.new ≡ L.cluster link.old }
{
    prove!(!name.account().is_empty());
    prove!(object.body().len() <= Object::GREATEST_BODY);
    let stamp = link.draw(name, Some(object))?;
    let mut op = PutOp::begin(alloc, cluster, stamp, name, object)?;
    run_whole(&mut op, link)?;
    Ok(op.into_end().unwrap())
}
