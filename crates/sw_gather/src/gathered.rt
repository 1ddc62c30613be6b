//! Archives that were brought.

ghost use Rattle.std.specs.Prelude.{◌≡◌, ℕ, ◌<◌, ◌+◌, ◌++◌, ◌∷◌, [], IfOk, None, OnErr};
ghost use Rattle.sw_gather.specs.Gathered.{IsWithoutLast, Joins, Settles};
ghost use Rattle.std.specs.List.{All};
ghost use Rattle.sw_types.specs.Name.{NameModel};
ghost use Rattle.sw_types.specs.Object.{ObjectModel};
ghost use Rattle.sw_types.specs.Policy.{PolicyModel};
ghost use Rattle.sw_archive.specs.Assemble.{AreEnough, IsFurther, IsNext};
ghost use Rattle.sw_archive.specs.Put.{AreOfPut, IsPut, put_archive};

use std::alloc::Global;
use std::marker::Model;
use sw_archive::{Archive, ArchiveBytes, Assemble, AssembleFault};
use sw_types::{NoMemory, Object, Policy};

/// Archives of one object, and the object once k of them are there.
#[derive(Debug, Drop)]
pub struct Gathered {
    archives: Assemble,
    object: Option<Object>,
}

impl Model for Gathered {
    ghost use Rattle.std.specs.Prelude.{◌≤◌};
    ghost use Rattle.std.specs.List.{All};
    ghost use Rattle.sw_gather.specs.Gathered.{GatheredModel};

    ghost Value = { GatheredModel };

    ghost view = { λ gathered. record { archives = gathered.archives.archives; object = gathered.object } };

    // There is room for the k of each.
    ghost invariant = { λ gathered. All (λ archive. archive.k ≤ gathered.archives.room) gathered.archives.archives };
}

impl Gathered {
    /// No archive.
    pub fn new(alloc: Global) -> Gathered
        ensures { result ≡ record { archives = []; object = None } }
    {
        Gathered {
            archives: Assemble::new(alloc),
            object: None,
        }
    }

    /// Adds an archive of the policy, and says whether it is one of the same object as those before it. Once k are there the
    /// object is decoded; where they tell another MD5 than that of the body that they hold, the last is of another object. Memory is
    /// wanted only for one that can stand beside those before it.
    pub fn join(
        &mut self,
        alloc: Global,
        policy: &Policy,
        archive: Archive,
    ) -> Result<bool, NoMemory>
        requires { archive.k ≡ policy.now.k }
        ensures joined { IfOk result (λ joined. Joins policy.now self.old archive joined self.new) }
        ensures refused { OnErr result (self.new ≡ self.old) }
        ensures memory { OnErr result (IsNext self.old.archives archive) }
    {
        if !self.archives.is_next(&archive) {
            return Ok(false);
        }
        self.archives.reserve(policy.k())?;
        self.archives.add(archive).unwrap();
        if !self.archives.is_enough() {
            return Ok(true);
        }
        self.settle(alloc)
    }

    // Decodes the object of k archives, or takes the last of them away again.
    fn settle(&mut self, alloc: Global) -> Result<bool, NoMemory>
        requires { AreEnough self.old.archives }
        ensures settled { IfOk result (λ settled. Settles self.old settled self.new) }
        ensures refused { OnErr result (IsWithoutLast self.old self.new) }
    {
        match self.archives.object(alloc) {
            Ok(object) => {
                self.object = Some(object);
                Ok(true)
            }
            Err(fault) => {
                self.archives.remove_last();
                match fault {
                    AssembleFault::BodyMd5 { .. } => Ok(false),
                    AssembleFault::NoMemory => Err(NoMemory),
                }
            }
        }
    }

    /// The archive of an index, there or not, of the object of k archives.
    pub fn further(&self, alloc: Global, index: u32) -> Result<ArchiveBytes, NoMemory>
        requires enough { AreEnough self.now.archives }
        requires index { All (λ archive. index < archive.k + archive.m) self.now.archives }
        ensures put { (policy : PolicyModel) (stamp : ℕ) (name : NameModel) (object : ObjectModel) → IsPut policy stamp name object →
            AreOfPut policy stamp name object self.now.archives → IfOk result (λ bytes. bytes ≡ put_archive policy stamp name object index) }
        ensures any { IfOk result (λ bytes. IsFurther self.now.archives index bytes) }
    {
        self.archives.further(alloc, index)
    }

    /// The object, where k archives are there. It is handed over once.
    pub fn take_object(&mut self) -> Option<Object>
        ensures object { result ≡ self.old.object }
        ensures left { self.new ≡ record self.old { object = None } }
    {
        self.object.take()
    }
}
