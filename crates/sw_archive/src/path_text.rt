//! The path of a name, where it stands in an archive.

ghost use Rattle.std.specs.Prelude.{◌≡◌, IfNone, IfOk, IfSome, None};
ghost use Rattle.sw_types.specs.Name.{NameModel, name_eq, name_fault, path_of};
ghost use Rattle.sw_archive.specs.Parts.{IsPath};

use crate::parts::parts_of;
use std::alloc::Global;
use std::marker::Model;
use sw_types::{Name, NameFault, NoMemory};

/// A path that is a name's. Contracts see the name.
#[derive(Debug, Drop)]
pub(crate) struct PathText<'a> {
    path: &'a [u8],
    account: &'a [u8],
    container: &'a [u8],
    object: &'a [u8],
}

impl<'a> Model for PathText<'a> {
    ghost use Rattle.sw_types.specs.Name.{NameModel};
    ghost use Rattle.sw_archive.specs.Parts.{IsPath};

    ghost Value = { NameModel };

    ghost view = { λ text. record { account = text.account.now; container = text.container.now; object = text.object.now } };

    ghost invariant = { λ text. IsPath text.path.now (record {
      account = text.account.now;
      container = text.container.now;
      object = text.object.now;
    }) };
}

impl<'a> PathText<'a> {
    /// The path, if it is a name's. It takes no memory.
    pub(crate) fn read(path: &'a [u8]) -> Option<PathText<'a>>
        ensures found { IfSome result (λ name. IsPath path.now name) }
        ensures none { IfNone result ((name : NameModel) → ¬ (IsPath path.now name)) }
    {
        let (account, container, object) = parts_of(path)?;
        if Name::fault(account, container, object).is_some() {
            return None;
        }
        Some(PathText {
            path,
            account,
            container,
            object,
        })
    }

    /// The whole path.
    pub(crate) fn path(&self) -> &'a [u8]
        ensures text { result.now ≡ path_of self.now }
        ensures sound { name_fault self.now ≡ None }
    {
        self.path
    }

    /// Whether it is the path of this name.
    pub(crate) fn is_of(&self, name: &Name) -> bool
        ensures { result ≡ name_eq self.now name.now }
    {
        self.account == name.account().as_bytes()
            && self.container == name.container().as_bytes()
            && self.object == name.object().as_bytes()
    }

    /// The name.
    pub(crate) fn name(&self, alloc: Global) -> Result<Name, NoMemory>
        ensures { IfOk result (λ name. name ≡ self.now) }
    {
        match Name::make(alloc, self.account, self.container, self.object) {
            Ok(name) => Ok(name),
            Err(NameFault::NoMemory) => Err(NoMemory),
            Err(_) => unreachable!(),
        }
    }
}
