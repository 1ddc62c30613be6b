//! Archives are gathered, and the object is read from them.

ghost use Rattle.std.specs.Prelude.{◌≡◌, ◌≢◌, ◌<◌, ◌≤◌, ◌+◌, ◌++◌, ◌∷◌, ◌↔◌, [], List, ℕ, Err, IfOk, IsTrue, MatchOption, MatchResult, Ok, length};
ghost use Rattle.std.specs.List.{All};
ghost use Rattle.md5.specs.Md5.{md5};
ghost use Rattle.sw_words.specs.Memory.{UnlessMemory};
ghost use Rattle.sw_types.specs.Name.{NameModel};
ghost use Rattle.sw_types.specs.Object.{ObjectModel};
ghost use Rattle.sw_types.specs.Policy.{PolicyModel};
ghost use Rattle.sw_archive.specs.Alike.{is_beside, is_next};
ghost use Rattle.sw_archive.specs.Archive.{IsSound};
ghost use Rattle.sw_archive.specs.Assemble.{AreEnough, AreTogether, GivesObject, IsFurther, IsNext, k_of};
ghost use Rattle.sw_archive.specs.Pieces.{IsDecoded};
ghost use Rattle.sw_archive.specs.Put.{AreOfPut, IsPut, put_archive};
ghost use Rattle.sw_archive.specs.declared.assemble.AssembleFault.TheVariants.{NoMemory as WantOfMemory};

use crate::archive::Archive;
use crate::archive_bytes::ArchiveBytes;
use crate::decoding::{decode_body, rebuild_payload};
use crate::label::{Label, seal};
use std::alloc::Global;
use std::marker::Model;
use sw_types::{NoMemory, Object};
use thiserror::Error;

/// Why no object was read from k archives.
#[derive(Clone, Copy, Debug, PartialEq, Eq, Error)]
pub enum AssembleFault {
    /// The MD5 that the archives tell of the body is not that of the body that was decoded.
    #[error("another body")]
    BodyMd5 { told: [u8; 16], computed: [u8; 16] },
    #[error("out of memory")]
    NoMemory,
}

impl From<NoMemory> for AssembleFault {
    ghost from_gives = { λ _ fault. fault ≡ WantOfMemory };

    fn from(_refused: NoMemory) -> AssembleFault {
        AssembleFault::NoMemory
    }
}

/// Archives of one object, up to k of them, from which the object and every other archive are decoded.
#[derive(Debug, Drop)]
pub struct Assemble {
    archives: Vec<Archive>,
}

impl Model for Assemble {
    ghost use Rattle.std.specs.Prelude.{vec_capacity};
    ghost use Rattle.sw_archive.specs.Assemble.{AreTogether, AssembleModel};

    ghost Value = { AssembleModel };

    ghost view = { λ a. record { archives = a.archives.items; room = vec_capacity a.archives } };

    ghost invariant = { λ a. AreTogether a.archives.items };
}

impl Assemble {
    /// No archive.
    pub fn new(alloc: Global) -> Assemble
        ensures { result.archives ≡ [] }
    {
        Assemble {
            archives: Vec::new(alloc),
        }
    }

    /// Makes room for k archives in all.
    pub fn reserve(&mut self, k: u32) -> Result<(), NoMemory>
        ensures room { IfOk result (λ _. k ≤ self.new.room) }
        ensures kept { self.old.room ≤ self.new.room }
        ensures archives { self.new.archives ≡ self.old.archives }
    {
        let more = (k as usize).saturating_sub(self.archives.len());
        self.archives.reserve(more)?;
        Ok(())
    }

    /// Whether an archive can stand beside those that are there: it is alike to each, its index is not among theirs, and fewer than its
    /// k are there. It takes no memory.
    pub fn is_next(&self, archive: &Archive) -> bool
        ensures { IsTrue result ↔ IsNext self.now.archives archive.now }
    {
        is_next(&self.archives, archive)
    }

    /// Adds an archive, or hands back one that cannot stand beside those that are there. It takes no memory.
    pub fn add(&mut self, archive: Archive) -> Result<(), Archive>
        requires room { k_of self.old.archives archive ≤ self.old.room }
        ensures added { MatchResult result
            (λ _. IsNext self.old.archives archive × (self.new.archives ≡ self.old.archives ++ archive ∷ []))
            (λ back. (¬ (IsNext self.old.archives archive)) × (back ≡ archive) × (self.new.archives ≡ self.old.archives)) }
        ensures room { self.new.room ≡ self.old.room }
    {
        if !is_next(&self.archives, &archive) {
            return Err(archive);
        }
        self.archives.push_reserved(archive);
        Ok(())
    }

    /// Takes away the archive that was added last. It takes no memory.
    pub fn remove_last(&mut self) -> Option<Archive>
        ensures last { MatchOption result ((self.old.archives ≡ []) × (self.new.archives ≡ [])) (λ last. self.old.archives ≡ self.new.archives ++ last ∷ []) }
        ensures room { self.new.room ≡ self.old.room }
    {
        self.archives.pop()
    }

    /// Whether k archives are there.
    pub fn is_enough(&self) -> bool
        ensures { IsTrue result ↔ AreEnough self.now.archives }
    {
        match self.archives.first() {
            Some(first) => self.archives.len() == first.k() as usize,
            None => false,
        }
    }

    /// The object of k archives.
    pub fn object(&self, alloc: Global) -> Result<Object, AssembleFault>
        requires enough { AreEnough self.now.archives }

        // Of a put's archives it is the object, so that they never tell another MD5.
        ensures put { (policy : PolicyModel) (stamp : ℕ) (name : NameModel) (object : ObjectModel) → IsPut policy stamp name object →
            AreOfPut policy stamp name object self.now.archives → UnlessMemory (Err AssembleFault.NoMemory) result (result ≡ Ok object) }
        ensures any { GivesObject self.now.archives result }
    {
        object_of(alloc, &self.archives)
    }

    /// The archive of an index, there or not, of the same object.
    pub fn further(&self, alloc: Global, index: u32) -> Result<ArchiveBytes, NoMemory>
        requires enough { AreEnough self.now.archives }
        requires index { All (λ archive. index < archive.k + archive.m) self.now.archives }
        ensures put { (policy : PolicyModel) (stamp : ℕ) (name : NameModel) (object : ObjectModel) → IsPut policy stamp name object →
            AreOfPut policy stamp name object self.now.archives → IfOk result (λ bytes. bytes ≡ put_archive policy stamp name object index) }
        ensures any { IfOk result (λ bytes. IsFurther self.now.archives index bytes) }
    {
        archive_of(alloc, &self.archives, index)
    }
}

// The object of k archives.
fn object_of(alloc: Global, archives: &[Archive]) -> Result<Object, AssembleFault>
    requires enough { AreEnough archives.now }
    requires together { AreTogether archives.now }
    ensures { GivesObject archives.now result }
{
    let object = decode_object(alloc, archives)?;
    check_body(archives[0].body_md5(), object)
}

// The object, if its body has the MD5 that is told. It takes no memory.
fn check_body(told: [u8; 16], object: Object) -> Result<Object, AssembleFault>
    ensures { MatchResult result (λ checked. (checked ≡ object) × (told ≡ object.body_md5))
        (λ fault. (fault ≡ AssembleFault.BodyMd5 told (md5 object.body)) × (told ≢ md5 object.body)) }
{
    let computed = object.body_md5();
    if told != computed {
        return Err(AssembleFault::BodyMd5 { told, computed });
    }
    Ok(object)
}

// Their head, and the body that is decoded from them.
fn decode_object(alloc: Global, archives: &[Archive]) -> Result<Object, NoMemory>
    requires enough { AreEnough archives.now }
    requires together { AreTogether archives.now }
    ensures head { IfOk result (λ object. All (λ archive. object.head ≡ archive.head) archives.now) }
    ensures length { IfOk result (λ object. All (λ archive. length object.body ≡ archive.body_length) archives.now) }
    ensures decoded { IfOk result (λ object. IsDecoded archives.now object.body) }
{
    let head = archives[0].head().clone()?;
    let body = decode_body(alloc, archives)?;
    let object = Object::make(head, body).unwrap();
    Ok(object)
}

// The archive of an index of k archives' object.
fn archive_of(alloc: Global, archives: &[Archive], index: u32) -> Result<ArchiveBytes, NoMemory>
    requires enough { AreEnough archives.now }
    requires together { AreTogether archives.now }
    requires index { All (λ archive. index < archive.k + archive.m) archives.now }
    ensures { IfOk result (λ bytes. IsFurther archives.now index bytes) }
{
    let first = &archives[0];
    let label = Label {
        code: first.code(),
        index,
        segment: first.segment(),
        stamp: first.stamp(),
        body_length: first.body_length() as usize,
        body_md5: first.body_md5(),
        name: first.name(),
        head: first.head(),
    };
    let mut bytes = label.open(alloc, first.payload().len() + 16)?;
    rebuild_payload(alloc, &mut bytes, archives, index)?;
    seal(bytes)
}

// Whether an archive can stand beside these.
fn is_next(archives: &[Archive], archive: &Archive) -> bool
    ensures test { result ≡ is_next archives.now archive.now }
    ensures sound { IsSound archive.now }
{
    archives.len() < archive.code().k as usize && is_beside(archives, archive)
}

// Whether an archive is alike to each of these, and its index is not there.
fn is_beside(archives: &[Archive], archive: &Archive) -> bool
    ensures { result ≡ is_beside archives.now archive.now }
{
    archives.iter().all(|other| other.index() != archive.index() && other.is_alike(archive))
}
