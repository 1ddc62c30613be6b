//! Archives that were asked for.

ghost use Rattle.std.specs.Prelude.{◌≡◌, ◌↔◌, Err, IfErr, IfOk, IsTrue, MatchOption, MatchResult, Ok};
ghost use Rattle.sw_archive.specs.Archive.{ArchiveModel, IsArchive};
ghost use Rattle.sw_message.specs.Spoil.{DiffersIn, HasCode, IsAlike, IsAsked, IsNamed, IsOfPlace, IsSpoil, IsSpoilOf};
ghost use Rattle.sw_message.specs.declared.spoil.Spoil.{Spoil as ASpoil};

use crate::spoil::{Foreign, Spoil};
use sw_archive::{ArchiveBytes, Spelled};
use sw_hashpath::Place;
use sw_ring::Cluster;
use sw_types::{Name, Policy, Stamp};

/// The archive of a place, stamp and index of a cluster where it stands in these bytes, or the first thing in which they are not
/// it. It takes no memory.
pub fn check_asked<'a>(
    cluster: &Cluster,
    place: &Place,
    stamp: Stamp,
    index: u32,
    bytes: &'a ArchiveBytes,
) -> Result<Spelled<'a>, Spoil>
    ensures found { IfOk result (λ archive. IsArchive bytes.now archive × IsAsked (IsOfPlace cluster.now place.now) cluster.now.policy stamp index archive) }
    ensures reads { (archive : ArchiveModel) → IsArchive bytes.now archive → IsAsked (IsOfPlace cluster.now place.now) cluster.now.policy stamp index archive → result ≡ Ok archive }
    ensures refused { IfErr result (λ spoil. IsSpoil cluster.now place.now stamp index bytes.now spoil) }
    ensures spoiled { (spoil : ASpoil) → IsSpoil cluster.now place.now stamp index bytes.now spoil → result ≡ Err spoil }
{
    check_of_place(cluster, place, stamp, index, bytes)
}

/// The archive of a name, stamp and index under a policy where it stands in these bytes, or the first thing in which they are not
/// it. It takes no memory.
pub fn check_named<'a>(
    policy: &Policy,
    name: &Name,
    stamp: Stamp,
    index: u32,
    bytes: &'a ArchiveBytes,
) -> Result<Spelled<'a>, Spoil>
    ensures found { IfOk result (λ archive. IsArchive bytes.now archive × IsAsked (IsNamed name.now) policy.now stamp index archive) }
    ensures reads { (archive : ArchiveModel) → IsArchive bytes.now archive → IsAsked (IsNamed name.now) policy.now stamp index archive → result ≡ Ok archive }
    ensures refused { IfErr result (λ spoil. IsSpoilOf (IsNamed name.now) policy.now stamp index bytes.now spoil) }
    ensures spoiled { (spoil : ASpoil) → IsSpoilOf (IsNamed name.now) policy.now stamp index bytes.now spoil → result ≡ Err spoil }
{
    check_of_name(policy, name, stamp, index, bytes)
}

// The archive of a place, stamp and index, or the first thing in which the bytes differ.
fn check_of_place<'a>(
    cluster: &Cluster,
    place: &Place,
    stamp: Stamp,
    index: u32,
    bytes: &'a ArchiveBytes,
) -> Result<Spelled<'a>, Spoil>
    ensures { MatchResult result (λ archive. IsArchive bytes.now archive × IsAsked (IsOfPlace cluster.now place.now) cluster.now.policy stamp index archive)
        (λ spoil. IsSpoil cluster.now place.now stamp index bytes.now spoil) }
{
    let archive = bytes.check()?;
    if !is_of_place(cluster, place, &archive) {
        return Err(Spoil::Foreign(Foreign::Name));
    }
    match difference(cluster.policy(), stamp, index, &archive) {
        Some(foreign) => Err(Spoil::Foreign(foreign)),
        None => Ok(archive),
    }
}

// The same of a name.
fn check_of_name<'a>(
    policy: &Policy,
    name: &Name,
    stamp: Stamp,
    index: u32,
    bytes: &'a ArchiveBytes,
) -> Result<Spelled<'a>, Spoil>
    ensures { MatchResult result (λ archive. IsArchive bytes.now archive × IsAsked (IsNamed name.now) policy.now stamp index archive)
        (λ spoil. IsSpoilOf (IsNamed name.now) policy.now stamp index bytes.now spoil) }
{
    let archive = bytes.check()?;
    if !archive.is_named(name) {
        return Err(Spoil::Foreign(Foreign::Name));
    }
    match difference(policy, stamp, index, &archive) {
        Some(foreign) => Err(Spoil::Foreign(foreign)),
        None => Ok(archive),
    }
}

// The first thing behind its name in which an archive differs from what was asked for.
fn difference(policy: &Policy, stamp: Stamp, index: u32, archive: &Spelled<'_>) -> Option<Foreign>
    ensures { MatchOption result (IsAlike policy.now stamp index archive.now) (DiffersIn policy.now stamp index archive.now) }
{
    if archive.stamp() != stamp {
        return Some(Foreign::Stamp);
    }
    if archive.index() != index {
        return Some(Foreign::Index);
    }
    if !has_code(policy, archive) {
        return Some(Foreign::Code);
    }
    None
}

// Whether the place of an archive's name is this one.
fn is_of_place(cluster: &Cluster, place: &Place, archive: &Spelled<'_>) -> bool
    ensures { IsTrue result ↔ IsOfPlace cluster.now place.now archive.now.name }
{
    cluster.place_of_path(archive.path()) == *place
}

// Whether an archive has a policy's code and segment.
fn has_code(policy: &Policy, archive: &Spelled<'_>) -> bool
    ensures { IsTrue result ↔ HasCode policy.now archive.now }
{
    archive.k() == policy.k() && archive.m() == policy.m() && archive.segment() == policy.segment()
}
