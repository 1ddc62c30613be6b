//! A put and a get over a link that tells.

ghost use Rattle.std.specs.Prelude.{◌≡◌, IfErr, IfOk};
ghost use Rattle.sw_front.specs.Over.{IfFound};
ghost use Rattle.sw_telling.specs.Shown.{IsThatPut, PutAndGot};

use crate::telling::Telling;
use std::alloc::Global;
use sw_front::{FrontFault, get, put};
use sw_get::GetEnd;
use sw_put::PutEnd;
use sw_ring::Cluster;
use sw_types::{Name, Object, Stamp};

/// Puts an object under a name and gets what is there, over the nodes of a cluster on empty disks in memory. However the put ended, an
/// object that is found is the one that was put.
pub fn put_and_get(
    alloc: Global,
    cluster: &Cluster,
    clock: Stamp,
    name: &Name,
    object: &Object,
) -> Result<(PutEnd, GetEnd), FrontFault>
    ensures runs { IfOk result (λ ends. PutAndGot cluster.now clock name.now object.now ends.0 ends.1) }
    ensures found { IfOk result (λ ends. IfFound ends.1 (IsThatPut cluster.now.policy clock object.now)) }
    ensures refused { IfErr result (λ fault. fault ≡ FrontFault.NoMemory) }
{
    prove!(clock.units() <= Stamp::GREATEST_UNITS);
    let mut link = Telling::new(alloc, cluster, clock)?;
    let created = put(alloc, cluster, &mut link, name, object)?;
    let found = get(alloc, cluster, &mut link, name)?;
    if link.is_silent() {
        return Err(FrontFault::NoMemory);
    }
    Ok((created, found))
}
