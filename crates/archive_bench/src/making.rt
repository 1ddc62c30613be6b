//! The archives of an object, made as a put makes them.

ghost use Rattle.std.specs.Prelude.{◌≡◌, ◌+◌, ◌<◌, IfOk, map};
ghost use Rattle.md5.specs.Md5.{md5};
ghost use Rattle.sw_archive.specs.Put.{put_seal};
ghost use Rattle.archive_bench.specs.Archives.{archive_at, archives_of, lengths_of};

use crate::put::Put;
use std::alloc::Global;
use sw_archive::{make_sealed_archive, seals};
use sw_md5::digests_of;
use sw_types::{Bytes, NoMemory};

impl Put {
    /// Makes all its archives as a put does, and gives the length of each. The MD5s that end them are computed side by
    /// side first. Then each archive is made of a copy of the object, and dropped before the next one is.
    pub fn make_each(&self, alloc: Global) -> Result<Vec<usize>, NoMemory>
        ensures { IfOk result (λ lengths. lengths.items ≡ lengths_of self.now (self.now.policy.k + self.now.policy.m)) }
    {
        let md5s = seals(alloc, &self.policy, self.stamp, &self.name, &self.object)?;
        let copy = self.copied()?;
        let mut lengths = Vec::new(alloc);
        for index in 0..self.policy.k() + self.policy.m() {
            let md5 = md5s[index as usize];
            let archive = copy.sealed_archive(alloc, index, md5)?;
            lengths.push(archive.len())?;
        }
        Ok(lengths)
    }

    /// The MD5s of all its archives, computed side by side.
    pub fn digests(&self, alloc: Global, archives: &[Bytes]) -> Result<Vec<[u8; 16]>, NoMemory>
        requires { archives.now ≡ archives_of self.now (self.now.policy.k + self.now.policy.m) }
        ensures { IfOk result (λ digests. digests.items ≡ map md5 archives.now) }
    {
        digests_of(alloc, archives)
    }

    // A copy of the object and its name, with what they are put with.
    fn copied(&self) -> Result<Put, NoMemory>
        ensures policy { IfOk result (λ copy. copy.policy ≡ self.now.policy) }
        ensures stamp { IfOk result (λ copy. copy.stamp ≡ self.now.stamp) }
        ensures name { IfOk result (λ copy. copy.name ≡ self.now.name) }
        ensures object { IfOk result (λ copy. copy.object ≡ self.now.object) }
    {
        let name = self.name.clone()?;
        let object = self.object.clone()?;
        Ok(Put {
            policy: self.policy,
            stamp: self.stamp,
            name,
            object,
        })
    }

    // Its archive of an index, with the MD5 that ends it.
    fn sealed_archive(&self, alloc: Global, index: u32, md5: [u8; 16]) -> Result<Bytes, NoMemory>
        requires index { index < self.now.policy.k + self.now.policy.m }
        requires seal { md5 ≡ put_seal self.now.policy self.now.stamp self.now.name self.now.object index }
        ensures { IfOk result (λ bytes. bytes ≡ archive_at self.now index) }
    {
        let archive = make_sealed_archive(
            alloc,
            &self.policy,
            self.stamp,
            &self.name,
            &self.object,
            index,
            md5,
        )?;
        Ok(archive.into_bytes())
    }
}
