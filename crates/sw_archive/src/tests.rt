//! Archives made, read and refused; objects and further archives decoded from each pair of three.

ghost use Rattle.std.specs.Prelude.{◌≡◌, ◌<◌, ◌≤◌, ◌∷◌, [], IfOk};

use crate::ArchiveFault::{BadField, BadLength, BadMagic, BadVersion, Damaged, Short};
use crate::{
    Archive, ArchiveFault, ArchiveField, Assemble, AssembleFault, Spelled, check_archive,
    make_archive, make_sealed_archive, read_archive, seals,
};
use md5::{Digest, Md5};
use std::alloc::Global;
use std::process::Abort;
use std::test::Fail;
use sw_types::{Bytes, Head, Name, NoMemory, Object, Policy, Stamp};

// The archive of index 0 of `abc`, put as a/c/o with k = 2 and m = 1 at 1000000000.00000, before its last MD5.
const WORKED: &[u8; 87] =
    b"ECFA\x01\x02\x01\x00\x00\x10\x00\x00\x00\x00\x5a\xf3\x10\x7a\x40\x00\x00\x00\x00\x00\x00\x00\x00\x03\
\x90\x01\x50\x98\x3c\xd2\x4f\xb0\xd6\x96\x3f\x7d\x28\xe1\x7f\x72\x00\x06\x00\x1b\x00\x00\x00\x02/a/c/o\
\x00\x18application/octet-stream\x00ab";

// The MD5 of `abc` (RFC 1321, appendix A.5).
const ABC_MD5: [u8; 16] = *b"\x90\x01\x50\x98\x3c\xd2\x4f\xb0\xd6\x96\x3f\x7d\x28\xe1\x7f\x72";

const TYPE: &[u8; 24] = b"application/octet-stream";

// The bytes, and their MD5 behind them.
fn sealed(alloc: Global, bytes: &[u8]) -> Result<Vec<u8>, NoMemory> {
    let mut sealed = Vec::from_slice(alloc, bytes)?;
    sealed.extend_from_slice(&Md5::digest(bytes))?;
    Ok(sealed)
}

// The archive of an index of a body that is put as a/c/o, with k = 2 and m = 1.
fn made(alloc: Global, segment: u32, units: u64, body: &[u8], index: u32) -> Result<Bytes, Fail>
    requires { index < 3 }
{
    let policy = Policy::make(2, 1, 3, 2, segment)?;
    let stamp = Stamp::make(units).ok_or("stamp")?;
    let name = Name::make(alloc, b"a", b"c", b"o")?;
    let head = Head::make(alloc, TYPE, &[])?;
    let body = Bytes::from_slice(alloc, body)?;
    let object = Object::make(head, body).ok().ok_or("too long")?;
    Ok(make_archive(alloc, &policy, stamp, &name, &object, index)?.into_bytes())
}

// The same, with the MD5s of all its archives computed first.
fn made_with_seals(alloc: Global, units: u64, body: &[u8], index: u32) -> Result<Bytes, Fail>
    requires { index < 3 }
{
    let policy = Policy::make(2, 1, 3, 2, 4)?;
    let stamp = Stamp::make(units).ok_or("stamp")?;
    let name = Name::make(alloc, b"a", b"c", b"o")?;
    let head = Head::make(alloc, TYPE, &[])?;
    let body = Bytes::from_slice(alloc, body)?;
    let object = Object::make(head, body).ok().ok_or("too long")?;
    let md5s = seals(alloc, &policy, stamp, &name, &object)?;
    let md5 = md5s[index as usize];
    Ok(make_sealed_archive(alloc, &policy, stamp, &name, &object, index, md5)?.into_bytes())
}

#[test]
fn makes_archives_with_their_md5s_in_hand(rt: HostRuntime) -> Result<(), Fail> {
    let alloc = rt.alloc();
    let bodies: [&[u8]; 3] = [b"", b"abc", b"\x00\x01\x02\x03\x04\x05\x06\x07\x08"];
    for body in bodies {
        for index in 0..3u32 {
            let alone = made(alloc, 4, 7, body, index)?;
            let together = made_with_seals(alloc, 7, body, index)?;
            assert_eq!(rt; together.as_slice(), alone.as_slice());
        }
    }
    Ok(())
}

// What the bytes spell, or why they are no archive. Nothing is promised of it, which keeps the proofs of the tests short.
fn spelled(alloc: Global, bytes: &[u8]) -> Result<Archive, ArchiveFault> {
    read_archive(alloc, bytes)
}

// The same where it stands.
fn checked(bytes: &[u8]) -> Result<Spelled<'_>, ArchiveFault> {
    check_archive(bytes)
}

#[test]
fn makes_the_worked_archives(rt: HostRuntime) -> Result<(), Fail> {
    let alloc = rt.alloc();
    let payloads = [b"ab", b"c\x00", b"\x9f\x31"];
    for index in 0..3u32 {
        let mut bytes = Vec::from_slice(alloc, WORKED)?;
        bytes[7] = index as u8;
        bytes[85..].copy_from_slice(payloads[index as usize]);
        let bytes = sealed(alloc, &bytes)?;
        let made = made(alloc, 1_048_576, 100_000_000_000_000, b"abc", index)?;
        assert_eq!(rt; made.as_slice(), bytes.as_slice());
    }
    Ok(())
}

#[test]
fn reads_the_worked_archive(rt: HostRuntime) -> Result<(), Fail> {
    let alloc = rt.alloc();
    let archive = spelled(alloc, &sealed(alloc, WORKED)?)?.clone()?;
    expect_numbers(&rt, &archive);
    let path = archive.name().path(alloc)?;
    assert_eq!(rt; path.as_slice(), b"/a/c/o".as_slice());
    assert_eq!(rt; archive.head().content_type(), TYPE.as_slice());
    assert!(rt; archive.head().pairs().is_empty());
    assert_eq!(rt; archive.payload(), b"ab".as_slice());
    Ok(())
}

#[test]
fn checks_the_worked_archive(rt: HostRuntime) -> Result<(), Fail> {
    let alloc = rt.alloc();
    let bytes = sealed(alloc, WORKED)?;
    let found = checked(&bytes)?;
    assert_eq!(rt; (found.k(), found.m(), found.index()), (2, 1, 0));
    assert_eq!(rt; found.segment(), 1_048_576);
    assert_eq!(rt; found.stamp().units(), 100_000_000_000_000);
    assert_eq!(rt; found.path(), b"/a/c/o".as_slice());
    assert!(rt; found.is_named(&Name::make(alloc, b"a", b"c", b"o")?));
    assert!(rt; !found.is_named(&Name::make(alloc, b"a", b"c", b"p")?));
    expect_numbers(&rt, &found.archive(alloc)?);
    Ok(())
}

// The archive has the numbers of the worked one.
fn expect_numbers(rt: &impl Abort, archive: &Archive) {
    assert_eq!(rt; (archive.k(), archive.m(), archive.index()), (2, 1, 0));
    assert_eq!(rt; (archive.segment(), archive.body_length()), (1_048_576, 3));
    assert_eq!(rt; archive.stamp().units(), 100_000_000_000_000);
    assert_eq!(rt; archive.body_md5(), ABC_MD5);
}

#[test]
fn keeps_pairs_in_order(rt: HostRuntime) -> Result<(), Fail> {
    let alloc = rt.alloc();
    let pairs = [
        (
            Bytes::from_slice(alloc, b"b")?,
            Bytes::from_slice(alloc, b"first")?,
        ),
        (Bytes::from_slice(alloc, b"a")?, Bytes::new(alloc)),
    ];
    let head = Head::make(alloc, b"t", &pairs)?;
    let bytes = made_of_nothing(alloc, head)?;
    assert_eq!(rt; bytes.len(), 52 + 6 + 17 + 16);
    assert_eq!(rt;
        bytes.as_slice().get(58..75),
        Some(b"\x00\x01t\x02\x01b\x00\x05first\x01a\x00\x00".as_slice())
    );
    let archive = spelled(alloc, bytes.as_slice())?;
    assert_eq!(rt; archive.head().pairs(), pairs.as_slice());
    Ok(())
}

// An archive of an empty body under this head.
fn made_of_nothing(alloc: Global, head: Head) -> Result<Bytes, Fail> {
    let policy = Policy::make(1, 1, 1, 1, 9)?;
    let stamp = Stamp::make(0).ok_or("stamp")?;
    let name = Name::make(alloc, b"a", b"c", b"o")?;
    let object = Object::make(head, Bytes::new(alloc))
        .ok()
        .ok_or("too long")?;
    Ok(make_archive(alloc, &policy, stamp, &name, &object, 1)?.into_bytes())
}

#[test]
fn refuses_another_length(rt: HostRuntime) -> Result<(), Fail> {
    let alloc = rt.alloc();
    let mut longer = sealed(alloc, WORKED)?;
    longer.push(0)?;
    let cases = [
        (0, Short { found: 0 }),
        (67, Short { found: 67 }),
        (
            102,
            BadLength {
                told: 103,
                found: 102,
            },
        ),
        (
            104,
            BadLength {
                told: 103,
                found: 104,
            },
        ),
    ];
    for (length, fault) in cases {
        let bytes = longer.get(..length).ok_or("length")?;
        assert_eq!(rt; spelled(alloc, bytes).err(), Some(fault));
    }
    Ok(())
}

#[test]
fn refuses_a_flipped_bit(rt: HostRuntime) -> Result<(), Fail> {
    let alloc = rt.alloc();
    for at in [5usize, 12, 52, 60, 86, 102] {
        let mut bytes = sealed(alloc, WORKED)?;
        *bytes.get_mut(at).ok_or("length")? ^= 1;
        assert_eq!(rt; spelled(alloc, &bytes).err(), Some(damage(&bytes)?));
    }
    Ok(())
}

// The fault of bytes whose last MD5 is not that of the others.
fn damage(bytes: &[u8]) -> Result<ArchiveFault, Fail> {
    let checked = bytes.get(..WORKED.len()).ok_or("length")?;
    let last = bytes.get(WORKED.len()..).ok_or("length")?;
    let mut stored = [0; 16];
    if last.len() == stored.len() {
        stored.copy_from_slice(last);
    }
    Ok(Damaged {
        stored,
        computed: Md5::digest(checked),
    })
}

// The bytes with some of them overwritten, and with the MD5 of all before the last 16 at their end.
fn altered(
    rt: &impl Abort,
    alloc: Global,
    bytes: &[u8],
    edits: &[(usize, &[u8])],
) -> Result<Vec<u8>, Fail> {
    let mut front = Vec::from_slice(alloc, bytes)?;
    for (at, new) in edits {
        assert!(rt; *at <= front.len() && new.len() <= front.len() - *at);
        front[*at..*at + new.len()].copy_from_slice(new);
    }
    Ok(sealed(alloc, &front)?)
}

#[test]
fn refuses_by_the_first_fault(rt: HostRuntime) -> Result<(), Fail> {
    let alloc = rt.alloc();
    let stamp: (usize, &[u8]) = (12, b"\x00\x03\x8d\x7e\xa4\xc6\x80\x00");
    let body_length: (usize, &[u8]) = (20, b"\x00\x00\x00\x00\x01\x00\x00\x01");
    let name: (usize, &[u8]) = (52, b"//ac/o");
    let head: (usize, &[u8]) = (
        58,
        b"\x00\x10application/octe\x02\x01a\x00\x00\x01a\x00\x00",
    );
    let payload: (usize, &[u8]) = (27, &[1]);
    let cases: [(&[(usize, &[u8])], ArchiveFault); 18] = [
        (&[(0, b"F"), (4, &[2])], BadMagic),
        (&[(4, &[2]), (45, &[7])], BadVersion { version: 2 }),
        (
            &[(45, &[7]), (5, &[0])],
            BadLength {
                told: 104,
                found: 103,
            },
        ),
        (&[(5, &[0])], BadField(ArchiveField::Code)),
        (&[(6, &[7])], BadField(ArchiveField::Code)),
        (&[(7, &[3])], BadField(ArchiveField::Code)),
        (&[(8, &[0, 0, 0, 1])], BadField(ArchiveField::Code)),
        (&[(7, &[3]), stamp], BadField(ArchiveField::Code)),
        (&[stamp], BadField(ArchiveField::Stamp)),
        (&[stamp, body_length], BadField(ArchiveField::Stamp)),
        (&[body_length], BadField(ArchiveField::BodyLength)),
        (&[body_length, name], BadField(ArchiveField::BodyLength)),
        (&[name], BadField(ArchiveField::Name)),
        (&[name, head], BadField(ArchiveField::Name)),
        (&[(52, b"/acc/o")], BadField(ArchiveField::Name)),
        (&[head], BadField(ArchiveField::Head)),
        (&[head, payload], BadField(ArchiveField::Head)),
        (&[payload], BadField(ArchiveField::Payload)),
    ];
    for (edits, fault) in cases {
        let bytes = altered(&rt, alloc, WORKED, edits)?;
        assert_eq!(rt; spelled(alloc, &bytes).err(), Some(fault));
        assert_eq!(rt; checked(&bytes).err(), Some(fault));
    }
    Ok(())
}

// The archive that the bytes spell, with k = 2 and m = 1.
fn read(rt: &impl Abort, alloc: Global, bytes: &[u8]) -> Result<Archive, Fail>
    ensures k { IfOk result (λ archive. archive.k ≡ 2) }
    ensures m { IfOk result (λ archive. archive.m ≡ 1) }
{
    let archive = spelled(alloc, bytes)?;
    assert_eq!(rt; (archive.k(), archive.m()), (2, 1));
    Ok(archive)
}

// One archive, with room for another beside it.
fn begun(alloc: Global, first: Archive) -> Result<Assemble, Fail>
    requires { first.k ≡ 2 }
    ensures archives { IfOk result (λ assemble. assemble.archives ≡ first ∷ []) }
    ensures room { IfOk result (λ assemble. 2 ≤ assemble.room) }
{
    let mut assemble = Assemble::new(alloc);
    assemble.reserve(2)?;
    assemble.add(first).ok().ok_or("refused")?;
    Ok(assemble)
}

// Two archives.
fn gathered(alloc: Global, first: Archive, second: Archive) -> Result<Assemble, Fail>
    requires { first.k ≡ 2 }
    ensures { IfOk result (λ assemble. assemble.archives ≡ first ∷ second ∷ []) }
{
    let mut assemble = begun(alloc, first)?;
    assemble.add(second).ok().ok_or("refused")?;
    Ok(assemble)
}

#[test]
fn any_two_archives_give_the_object_and_the_third(rt: HostRuntime) -> Result<(), Fail> {
    let body = [0, 1, 2, 3, 4, 5, 6, 7, 8];
    let cases: [(usize, [&[u8]; 3]); 4] = [
        (0, [&[], &[], &[]]),
        (1, [&[0], &[0], &[0]]),
        (8, [&[0, 1, 4, 5], &[2, 3, 6, 7], &[0xf5, 0x8f, 0x00, 0x7a]]),
        (
            9,
            [
                &[0, 1, 4, 5, 8],
                &[2, 3, 6, 7, 0],
                &[0xf5, 0x8f, 0x00, 0x7a, 0x04],
            ],
        ),
    ];
    for (count, payloads) in cases {
        assert!(rt; count <= 9);
        for (first, second) in [(0, 1), (1, 0), (0, 2), (2, 0), (1, 2), (2, 1)] {
            expect_decoded(&rt, rt.alloc(), &body[..count], &payloads, first, second)?;
        }
    }
    Ok(())
}

// From the archives of two indices come the body, and the archives of all.
fn expect_decoded(
    rt: &impl Abort,
    alloc: Global,
    body: &[u8],
    payloads: &[&[u8]; 3],
    first: u32,
    second: u32,
) -> Result<(), Fail> {
    let assemble = gathered(
        alloc,
        read_made(rt, alloc, body, first)?,
        read_made(rt, alloc, body, second)?,
    )?;
    expect_object(rt, &assemble.object(alloc)?, body);
    for index in 0..3u32 {
        let bytes = assemble.further(alloc, index)?.into_bytes();
        expect_archive(rt, alloc, &bytes, body, index, payloads[index as usize])?;
    }
    Ok(())
}

// The archive of an index of a body, as it is read.
fn read_made(rt: &impl Abort, alloc: Global, body: &[u8], index: u32) -> Result<Archive, Fail>
    ensures k { IfOk result (λ archive. archive.k ≡ 2) }
    ensures m { IfOk result (λ archive. archive.m ≡ 1) }
{
    assert!(rt; index < 3);
    let bytes = made(alloc, 4, 7, body, index)?;
    read(rt, alloc, bytes.as_slice())
}

// The object has this body, and the head of each.
fn expect_object(rt: &impl Abort, object: &Object, body: &[u8]) {
    assert_eq!(rt; object.body().as_slice(), body);
    assert_eq!(rt; object.head().content_type(), TYPE.as_slice());
}

// The bytes are the archive that is made, and have this payload.
fn expect_archive(
    rt: &impl Abort,
    alloc: Global,
    bytes: &Bytes,
    body: &[u8],
    index: u32,
    payload: &[u8],
) -> Result<(), Fail>
    requires { index < 3 }
{
    let made = made(alloc, 4, 7, body, index)?;
    assert_eq!(rt; bytes.as_slice(), made.as_slice());
    assert_eq!(rt; spelled(alloc, made.as_slice())?.payload(), payload);
    Ok(())
}

#[test]
fn hands_back_what_cannot_stand_beside(rt: HostRuntime) -> Result<(), Fail> {
    let alloc = rt.alloc();
    let of_another_stamp = made(alloc, 4, 8, b"abc", 0)?;
    expect_back(&rt, alloc, &of_another_stamp)?;
    let of_the_same_index = made(alloc, 4, 7, b"abc", 1)?;
    expect_back(&rt, alloc, &of_the_same_index)?;
    expect_full(&rt, alloc)
}

// Beside k archives no other can stand.
fn expect_full(rt: &impl Abort, alloc: Global) -> Result<(), Fail> {
    let first = read_made(rt, alloc, b"abc", 0)?;
    let second = read_made(rt, alloc, b"abc", 1)?;
    let mut assemble = gathered(alloc, first, second)?;
    assert!(rt; assemble.is_enough());
    let third = read_made(rt, alloc, b"abc", 2)?;
    let third = assemble.add(third).err().ok_or("added")?;
    assert_eq!(rt; third.index(), 2);
    Ok(())
}

// An archive that is handed back beside that of index 1 of `abc`.
fn expect_back(rt: &impl Abort, alloc: Global, bytes: &Bytes) -> Result<(), Fail> {
    let mut assemble = begun(alloc, read_made(rt, alloc, b"abc", 1)?)?;
    assert!(rt; !assemble.is_enough());
    let archive = read(rt, alloc, bytes.as_slice())?;
    let told = (archive.stamp(), archive.index());
    let back = assemble.add(archive).err().ok_or("added")?;
    assert_eq!(rt; (back.stamp(), back.index()), told);
    Ok(())
}

#[test]
fn refuses_a_body_of_another_md5(rt: HostRuntime) -> Result<(), Fail> {
    let alloc = rt.alloc();
    let first = told_otherwise(&rt, alloc, 0)?;
    let second = told_otherwise(&rt, alloc, 2)?;
    let read = gathered(alloc, first, second)?.object(alloc);
    let computed = ABC_MD5;
    let mut told = computed;
    told[0] = 0;
    assert_eq!(rt; read.err(), Some(AssembleFault::BodyMd5 { told, computed }));
    Ok(())
}

// An archive of `abc` that tells another MD5 of its body.
fn told_otherwise(rt: &impl Abort, alloc: Global, index: u32) -> Result<Archive, Fail>
    requires { index < 3 }
    ensures k { IfOk result (λ archive. archive.k ≡ 2) }
    ensures m { IfOk result (λ archive. archive.m ≡ 1) }
{
    let made = made(alloc, 1_048_576, 7, b"abc", index)?;
    let told = altered(rt, alloc, before_md5(made.as_slice()), &[(28, &[0])])?;
    read(rt, alloc, &told)
}

// The bytes before the last sixteen.
fn before_md5(bytes: &[u8]) -> &[u8] {
    match bytes.len().checked_sub(16) {
        Some(length) => &bytes[..length],
        None => bytes,
    }
}
