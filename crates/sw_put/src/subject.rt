//! What is put.

ghost use Rattle.std.specs.Prelude.{◌≡◌, ◌+◌, ◌<◌, IfOk};
ghost use Rattle.sw_archive.specs.Put.{put_archive, put_seals};

use std::alloc::Global;
use sw_archive::{ArchiveBytes, make_sealed_archive, seals};
use sw_types::{Name, NoMemory, Object, Policy, Stamp};

/// An object, and what it is put with. Each archive is made of it when it goes out, and none is kept but for the MD5 that
/// ends it, since those of all are computed faster together.
#[derive(Debug, Drop)]
pub(crate) struct Subject {
    pub(crate) policy: Policy,
    pub(crate) stamp: Stamp,
    name: Name,
    object: Object,
    seals: Vec<[u8; 16]>,
    ghost sealed: { seals.items ≡ put_seals policy stamp name object },
}

impl Subject {
    /// A copy of an object and of its name, to be put under a policy at a stamp.
    pub(crate) fn of(
        alloc: Global,
        policy: &Policy,
        stamp: Stamp,
        name: &Name,
        object: &Object,
    ) -> Result<Subject, NoMemory>
        ensures policy { IfOk result (λ subject. subject.policy ≡ policy.now) }
        ensures stamp { IfOk result (λ subject. subject.stamp ≡ stamp) }
        ensures name { IfOk result (λ subject. subject.name ≡ name.now) }
        ensures object { IfOk result (λ subject. subject.object ≡ object.now) }
    {
        let seals = seals(alloc, policy, stamp, name, object)?;
        let name = name.clone()?;
        let object = object.clone()?;
        Ok(Subject {
            policy: *policy,
            stamp,
            name,
            object,
            seals,
        })
    }

    /// The archive of an index.
    pub(crate) fn archive(&self, alloc: Global, index: u32) -> Result<ArchiveBytes, NoMemory>
        requires { index < self.now.policy.k + self.now.policy.m }
        ensures { IfOk result (λ bytes. bytes ≡ put_archive self.now.policy self.now.stamp self.now.name self.now.object index) }
    {
        let md5 = self.seals[index as usize];
        make_sealed_archive(
            alloc,
            &self.policy,
            self.stamp,
            &self.name,
            &self.object,
            index,
            md5,
        )
    }
}
