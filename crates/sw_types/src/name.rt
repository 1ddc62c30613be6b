//! Names of objects.

ghost use Rattle.std.specs.Prelude.{◌≡◌, Some, None, IfOk, IfErr, IfSome, MatchResult, MatchOption, ◌==◌, ◌&&◌, not, true, false};
ghost use Rattle.std.proofs.Common.{rules};
ghost use Rattle.std.specs.Cmp.Rules.{comparing};
ghost use Rattle.std.specs.List.{list_any};
ghost use Rattle.std.specs.Result.{result_err};
ghost use Rattle.std.specs.Str.{is_utf8};
ghost use Rattle.sw_words.specs.Memory.{UnlessMemory};
ghost use Rattle.sw_types.specs.declared.name.NameFault.TheVariants.{NoMemory as WantOfMemory};
ghost use Rattle.sw_types.specs.Name.{NameModel, most_bytes, may_hold_slash, name_eq, part_fault, name_fault, path_of};

use crate::{Bytes, NoMemory};
use std::alloc::{AllocError, Global};
use std::marker::Model;
use thiserror::Error;

/// A part of a name.
#[derive(Clone, Copy, Debug, PartialEq, Eq)]
pub enum Part {
    Account,
    Container,
    Object,
}

impl Part {
    // The greatest number of bytes.
    fn most_bytes(self) -> usize
        ensures { result ≡ most_bytes self }
    {
        match self {
            Part::Account | Part::Container => 256,
            Part::Object => 1024,
        }
    }

    fn is_broken_by_slash(self, bytes: &[u8]) -> bool
        ensures { result ≡ (not (may_hold_slash self) && list_any (λ byte. byte == 47) bytes.now) }
    {
        match self {
            Part::Account | Part::Container => bytes.contains(&b'/'),
            Part::Object => false,
        }
    }

    // The text of a part, or the first fault of its bytes.
    fn read(self, bytes: &[u8]) -> Result<&str, NameFault>
        ensures { MatchResult result
            (λ text. (part_fault self bytes.now ≡ None) × (text.now ≡ bytes.now))
            (λ fault. part_fault self bytes.now ≡ Some fault) }
    {
        if bytes.is_empty() {
            return Err(NameFault::Empty(self));
        }
        if bytes.len() > self.most_bytes() {
            return Err(NameFault::TooLong(self, bytes.len()));
        }
        let Some(text) = text_of(bytes) else {
            return Err(NameFault::NotUtf8(self));
        };
        if bytes.contains(&0) {
            return Err(NameFault::Nul(self));
        }
        if self.is_broken_by_slash(bytes) {
            return Err(NameFault::Slash(self));
        }
        Ok(text)
    }
}

// The bytes as text, where they are UTF-8.
fn text_of(bytes: &[u8]) -> Option<&str>
    ensures { MatchOption result (is_utf8 bytes.now ≡ false) (λ text. (is_utf8 bytes.now ≡ true) × (text.now ≡ bytes.now)) }
{
    match str::from_utf8(bytes) {
        Ok(text) => Some(text),
        Err(_) => None,
    }
}

/// Why there is no name of three parts: the first fault, by the order of the parts and, within a part, of the variants.
#[derive(Clone, Copy, Debug, PartialEq, Eq, Error)]
pub enum NameFault {
    #[error("an empty part")]
    Empty(Part),
    /// With the number of its bytes. An account or a container has at most 256, an object 1,024.
    #[error("a part that is too long")]
    TooLong(Part, usize),
    #[error("a part that is not UTF-8")]
    NotUtf8(Part),
    #[error("a part with a NUL")]
    Nul(Part),
    /// Only an object may hold slashes.
    #[error("a part with a slash")]
    Slash(Part),
    #[error("out of memory")]
    NoMemory,
}

impl From<NoMemory> for NameFault {
    ghost from_gives = { λ _ fault. fault ≡ WantOfMemory };

    fn from(_refused: NoMemory) -> NameFault {
        NameFault::NoMemory
    }
}

/// The name of an object: an account, a container and an object, each a text without NUL and not empty, of at most 256,
/// 256 and 1,024 bytes. Only the object may hold slashes.
#[derive(Debug, Drop)]
pub struct Name {
    account: String,
    container: String,
    object: String,
}

impl Model for Name {
    ghost use Rattle.std.specs.Prelude.{◌≡◌, None, string_bytes};
    ghost use Rattle.sw_types.specs.Name.{NameModel, name_fault};

    ghost Value = { NameModel };

    ghost view = { λ name. record {
      account = string_bytes name.account;
      container = string_bytes name.container;
      object = string_bytes name.object;
    } };

    ghost invariant = { λ name. name_fault (record {
      account = string_bytes name.account;
      container = string_bytes name.container;
      object = string_bytes name.object;
    }) ≡ None };
}

impl Name {
    /// The name of these three parts, or the first fault. It takes memory, and may answer `NoMemory`, only
    /// where there is no fault.
    pub fn make(
        alloc: Global,
        account: &[u8],
        container: &[u8],
        object: &[u8],
    ) -> Result<Name, NameFault>
        ensures sound { IfOk result (λ name. name_fault name ≡ None) }
        ensures made { IfOk result (λ name. name ≡ record { account = account.now; container = container.now; object = object.now }) }
        ensures fault { IfErr result (λ fault. UnlessMemory NameFault.NoMemory fault
            (name_fault (record { account = account.now; container = container.now; object = object.now }) ≡ Some fault)) }
        ensures refused { IfSome (name_fault (record { account = account.now; container = container.now; object = object.now })) (λ fault. result ≡ Err fault) }
    {
        let (account, container, object) = Name::texts(account, container, object)?;
        let name = Name::from_texts(alloc, account, container, object)?;
        Ok(name)
    }

    /// The first fault of three parts: none where they are those of a name. It takes no memory.
    pub fn fault(account: &[u8], container: &[u8], object: &[u8]) -> Option<NameFault>
        ensures { result ≡ name_fault (record { account = account.now; container = container.now; object = object.now }) }
    {
        Name::texts(account, container, object).err()
    }

    // The texts of three parts, or their first fault.
    fn texts<'a>(
        account: &'a [u8],
        container: &'a [u8],
        object: &'a [u8],
    ) -> Result<(&'a str, &'a str, &'a str), NameFault>
        ensures fault { result_err result ≡ name_fault (record { account = account.now; container = container.now; object = object.now }) }
        ensures texts { IfOk result (λ texts. (texts.0.now ≡ account.now) × (texts.1.now ≡ container.now) × (texts.2.now ≡ object.now)) }
    {
        let account = Part::Account.read(account)?;
        let container = Part::Container.read(container)?;
        let object = Part::Object.read(object)?;
        Ok((account, container, object))
    }

    /// The account.
    pub fn account(&self) -> &str
        ensures text { result.now ≡ self.now.account }
        ensures sound { name_fault self.now ≡ None }
    {
        &self.account
    }

    /// The container.
    pub fn container(&self) -> &str
        ensures text { result.now ≡ self.now.container }
        ensures sound { name_fault self.now ≡ None }
    {
        &self.container
    }

    /// The object.
    pub fn object(&self) -> &str
        ensures text { result.now ≡ self.now.object }
        ensures sound { name_fault self.now ≡ None }
    {
        &self.object
    }

    /// Its path, `/ACCOUNT/CONTAINER/OBJECT`.
    pub fn path(&self, alloc: Global) -> Result<Bytes, NoMemory>
        ensures text { IfOk result (λ path. path ≡ path_of self.now) }
        ensures sound { name_fault self.now ≡ None }
    {
        let path = format!(in alloc; "/{}/{}/{}", self.account, self.container, self.object)?;
        Ok(Bytes::from(path.into_bytes()))
    }

    fn from_texts(
        alloc: Global,
        account: &str,
        container: &str,
        object: &str,
    ) -> Result<Name, NoMemory>
        requires { name_fault (record { account = account.now; container = container.now; object = object.now }) ≡ None }
        ensures { IfOk result (λ name. name ≡ record { account = account.now; container = container.now; object = object.now }) }
    {
        Ok(Name {
            account: String::from_str(alloc, account)?,
            container: String::from_str(alloc, container)?,
            object: String::from_str(alloc, object)?,
        })
    }
}

impl Clone for Name {
    ghost is_clone = { λ name copy. copy ≡ name };

    fn clone(&self) -> Result<Name, AllocError> {
        let account = self.account.clone()?;
        let container = self.container.clone()?;
        let object = self.object.clone()?;
        Ok(Name {
            account,
            container,
            object,
        })
    }
}

impl PartialEq for Name {
    ghost eq = { name_eq };

    ghost laws = { Prim.search (comparing, rules) };

    fn eq(&self, other: &Name) -> bool {
        self.account == other.account
            && self.container == other.container
            && self.object == other.object
    }
}

/// Two names are equal exactly where their parts are.
pub fn name_law()
    ensures same { (a b : NameModel) → name_eq a b ≡ true → a ≡ b }
    ensures equal { (a : NameModel) → name_eq a a ≡ true }
{}
