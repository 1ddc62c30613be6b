//! An object that is put.

ghost use Rattle.sw_archive.specs.Put.{IsPut};

use sw_types::{Name, Object, Policy, Stamp};

/// An object, and what it is put with.
#[derive(Debug, Drop)]
pub struct Put {
    pub policy: Policy,
    pub stamp: Stamp,
    pub name: Name,
    pub object: Object,
    ghost sound: { IsPut policy stamp name object },
}
