//! How operations begin.

ghost use Rattle.std.specs.Prelude.{◌≡◌, ◌≤◌, [], IfOk, OnOk, false};
ghost use Rattle.sw_types.specs.Stamp.{greatest_stamp};
ghost use Rattle.sw_archive.specs.Put.{IsPut};
ghost use Rattle.sw_ring.specs.Cluster.{place_of_name};
ghost use Rattle.sw_message.specs.Message.{IsMember, is_primary};
ghost use Rattle.sw_operation.specs.Operating.{Delete, Get, Head, IsBegun, Put, recon_of};
ghost use Rattle.sw_operation.specs.Standing.{Stands, has_ended};

use crate::any_op::AnyOp;
use std::alloc::Global;
use sw_delete::DeleteOp;
use sw_get::GetOp;
use sw_message::is_primary;
use sw_put::PutOp;
use sw_recon::RevertJob;
use sw_ring::Cluster;
use sw_sync::SyncJob;
use sw_types::{Name, NoMemory, Object, Stamp};

impl<'a> AnyOp<'a> {
    /// A put of an object under a name at a stamp, which has handed out nothing.
    pub fn put(
        alloc: Global,
        cluster: &Cluster,
        stamp: Stamp,
        name: &Name,
        object: &Object,
    ) -> Result<AnyOp<'a>, NoMemory>
        requires { stamp ≤ greatest_stamp }
        ensures begun { IfOk result (λ op. Stands op (Put (record { cluster = cluster.now; stamp = stamp; name = name.now; object = object.now })) []) }
        ensures valid { OnOk result (IsBegun (Put (record { cluster = cluster.now; stamp = stamp; name = name.now; object = object.now }))) }
        ensures is_put { OnOk result (IsPut cluster.now.policy stamp name.now object.now) }
        ensures running { IfOk result (λ op. has_ended op ≡ false) }
    {
        // The contracts of these say that a name and an object keep their rules.
        let _path = name.path(alloc)?;
        let _body = object.body();
        let op = PutOp::begin(alloc, cluster, stamp, name, object)?;
        Ok(AnyOp::Put(op))
    }

    /// A get of a name, which has handed out nothing.
    pub fn get(alloc: Global, cluster: &Cluster, name: &Name) -> Result<AnyOp<'a>, NoMemory>
        ensures begun { IfOk result (λ op. Stands op (Get (record { cluster = cluster.now; name = name.now })) []) }
        ensures valid { OnOk result (IsBegun (Get (record { cluster = cluster.now; name = name.now }))) }
        ensures running { IfOk result (λ op. has_ended op ≡ false) }
    {
        let op = GetOp::begin(alloc, cluster, name)?;
        Ok(AnyOp::Get(op))
    }

    /// A head of a name, which has handed out nothing.
    pub fn head(alloc: Global, cluster: &Cluster, name: &Name) -> Result<AnyOp<'a>, NoMemory>
        ensures begun { IfOk result (λ op. Stands op (Head (record { cluster = cluster.now; name = name.now })) []) }
        ensures valid { OnOk result (IsBegun (Head (record { cluster = cluster.now; name = name.now }))) }
        ensures running { IfOk result (λ op. has_ended op ≡ false) }
    {
        let op = GetOp::begin(alloc, cluster, name)?;
        Ok(AnyOp::Head(op))
    }

    /// A delete of a name at a stamp, which has handed out nothing.
    pub fn delete(
        alloc: Global,
        cluster: &Cluster,
        stamp: Stamp,
        name: &Name,
    ) -> Result<AnyOp<'a>, NoMemory>
        ensures begun { IfOk result (λ op. Stands op (Delete (record { cluster = cluster.now; stamp = stamp; name = name.now })) []) }
        ensures valid { OnOk result (IsBegun (Delete (record { cluster = cluster.now; stamp = stamp; name = name.now }))) }
        ensures running { IfOk result (λ op. has_ended op ≡ false) }
    {
        let op = DeleteOp::begin(alloc, cluster, stamp, name)?;
        Ok(AnyOp::Delete(op))
    }

    /// The job of a device's reconstructor for a name, which has handed out nothing: a sync where it is a primary of the name's place,
    /// and else a revert.
    pub fn recon(
        alloc: Global,
        cluster: &'a Cluster,
        device: u16,
        name: &Name,
    ) -> Result<AnyOp<'a>, NoMemory>
        requires { IsMember cluster.now device }
        ensures begun { IfOk result (λ op. Stands op (recon_of (is_primary cluster.now device (place_of_name cluster.now name.now)) cluster.now device name.now) []) }
        ensures valid { OnOk result (IsBegun (recon_of (is_primary cluster.now device (place_of_name cluster.now name.now)) cluster.now device name.now)) }
        ensures running { IfOk result (λ op. has_ended op ≡ false) }
    {
        let place = cluster.place(alloc, name)?;
        if is_primary(cluster, device, &place) {
            let job = SyncJob::begin(alloc, cluster, device, place)?;
            Ok(AnyOp::Sync(job))
        } else {
            let job = RevertJob::begin(alloc, cluster, device, place);
            Ok(AnyOp::Revert(job))
        }
    }
}
