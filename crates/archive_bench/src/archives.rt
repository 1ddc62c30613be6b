//! The archives of an object that is put, and the object read back from them.

ghost use Rattle.std.specs.Prelude.{◌≡◌, ◌+◌, ◌<◌, ◌≤◌, Err, IfOk, Ok};
ghost use Rattle.measuring.specs.Pattern.{pattern_bytes};
ghost use Rattle.sw_words.specs.Memory.{UnlessMemory};
ghost use Rattle.sw_types.specs.Object.{greatest_body};
ghost use Rattle.sw_archive.specs.Assemble.{AreEnough};
ghost use Rattle.archive_bench.specs.Archives.{archive_at, archives_of, fields_at, fields_from};

use crate::put::Put;
use anyhow::Result;
use measuring::pattern;
use std::alloc::Global;
use sw_archive::{Archive, ArchiveFault, Assemble, make_archive, read_archive};
use sw_cauchy::Code;
use sw_types::{Bytes, Head, Name, NoMemory, Object, Policy, Stamp};

impl Put {
    /// An object of so many bytes of the fixed pattern, in a code and in segments of one size.
    pub fn of(alloc: Global, code: Code, segment: u32, length: usize) -> Result<Put>
        requires { length ≤ greatest_body }
        ensures k { IfOk result (λ put. put.policy.k ≡ code.k) }
        ensures m { IfOk result (λ put. put.policy.m ≡ code.m) }
        ensures segment { IfOk result (λ put. put.policy.segment ≡ segment) }
        ensures body { IfOk result (λ put. put.object.body ≡ pattern_bytes length) }
    {
        let policy = Policy::make(code.k, code.m, code.k, code.k, segment)?;
        let stamp = Stamp::make(100_000_000_000_000).unwrap();
        let name = Name::make(alloc, b"bench", b"archives", b"object")?;
        let head = Head::make(alloc, b"application/octet-stream", &[])?;
        let body = Bytes::from(pattern(alloc, length)?);
        let object = Object::make(head, body).unwrap();
        Ok(Put {
            policy,
            stamp,
            name,
            object,
        })
    }

    /// All its archives, in the order of their indices.
    pub fn archives(&self, alloc: Global) -> Result<Vec<Bytes>, NoMemory>
        ensures { IfOk result (λ archives. archives.items ≡ archives_of self.now (self.now.policy.k + self.now.policy.m)) }
    {
        let mut archives = Vec::new(alloc);
        for index in 0..self.policy.k() + self.policy.m() {
            archives.push(self.archive(alloc, index)?)?;
        }
        Ok(archives)
    }

    // Its archive of an index.
    fn archive(&self, alloc: Global, index: u32) -> Result<Bytes, NoMemory>
        requires { index < self.now.policy.k + self.now.policy.m }
        ensures { IfOk result (λ bytes. bytes ≡ archive_at self.now index) }
    {
        let archive = make_archive(
            alloc,
            &self.policy,
            self.stamp,
            &self.name,
            &self.object,
            index,
        )?;
        Ok(archive.into_bytes())
    }

    /// The k of its archives from an index on, read and gathered in this order.
    pub fn assemble_from(
        &self,
        alloc: Global,
        archives: &[Bytes],
        first: u32,
    ) -> Result<Assemble, ArchiveFault>
        requires archives { archives.now ≡ archives_of self.now (self.now.policy.k + self.now.policy.m) }
        requires first { first ≤ self.now.policy.m }
        ensures from { IfOk result (λ assemble. assemble.archives ≡ fields_from self.now first self.now.policy.k) }
        ensures enough { IfOk result (λ assemble. AreEnough assemble.archives) }
    {
        let k = self.policy.k();
        let mut assemble = Assemble::new(alloc);
        assemble.reserve(k)?;
        for index in first..first + k {
            let archive = self.read(alloc, archives[index as usize].as_slice(), index)?;
            assemble.add(archive).unwrap();
        }
        Ok(assemble)
    }

    // Its archive of an index, read from the bytes.
    fn read(&self, alloc: Global, bytes: &[u8], index: u32) -> Result<Archive, ArchiveFault>
        requires index { index < self.now.policy.k + self.now.policy.m }
        requires bytes { bytes.now ≡ archive_at self.now index }
        ensures { UnlessMemory (Err ArchiveFault.NoMemory) result (result ≡ Ok (fields_at self.now index)) }
    {
        read_archive(alloc, bytes)
    }

    /// The object, read back from the k of its archives from an index on.
    pub fn read_back(&self, alloc: Global, archives: &[Bytes], first: u32) -> Result<Object>
        requires archives { archives.now ≡ archives_of self.now (self.now.policy.k + self.now.policy.m) }
        requires first { first ≤ self.now.policy.m }
        ensures { IfOk result (λ object. object ≡ self.now.object) }
    {
        let assemble = self.assemble_from(alloc, archives, first)?;
        let object = assemble.object(alloc)?;
        Ok(object)
    }
}
