//! Archives are made.

ghost use Rattle.std.specs.Prelude.{◌≡◌, ◌<◌, ◌+◌, IfOk};
ghost use Rattle.sw_archive.specs.Archive.{checked};
ghost use Rattle.sw_archive.specs.Put.{put_archive, put_fields, put_label, put_seal};

use crate::archive_bytes::ArchiveBytes;
use crate::label::{Label, seal, seal_with};
use crate::payload::{payload_length, push_payload};
use std::alloc::Global;
use sw_cauchy::Code;
use sw_types::{Name, NoMemory, Object, Policy, Stamp};

/// The archive of one index of an object that is put.
pub fn make_archive(
    alloc: Global,
    policy: &Policy,
    stamp: Stamp,
    name: &Name,
    object: &Object,
    index: u32,
) -> Result<ArchiveBytes, NoMemory>
    requires index { index < policy.now.k + policy.now.m }
    ensures { IfOk result (λ bytes. bytes ≡ put_archive policy.now stamp name.now object.now index) }
{
    let bytes = make_unsealed(alloc, policy, stamp, name, object, index)?;
    seal(bytes)
}

/// The same, where the MD5 that ends it is known.
pub fn make_sealed_archive(
    alloc: Global,
    policy: &Policy,
    stamp: Stamp,
    name: &Name,
    object: &Object,
    index: u32,
    md5: [u8; 16],
) -> Result<ArchiveBytes, NoMemory>
    requires index { index < policy.now.k + policy.now.m }
    requires seal { md5 ≡ put_seal policy.now stamp name.now object.now index }
    ensures { IfOk result (λ bytes. bytes ≡ put_archive policy.now stamp name.now object.now index) }
{
    let bytes = make_unsealed(alloc, policy, stamp, name, object, index)?;
    seal_with(bytes, md5)
}

/// All bytes of an archive before the MD5 that ends it, with room for that.
pub(crate) fn make_unsealed(
    alloc: Global,
    policy: &Policy,
    stamp: Stamp,
    name: &Name,
    object: &Object,
    index: u32,
) -> Result<Vec<u8>, NoMemory>
    requires { index < policy.now.k + policy.now.m }
    ensures { IfOk result (λ bytes. bytes.items ≡ checked (put_fields policy.now stamp name.now object.now index)) }
{
    let code = Code::from(*policy);
    let size = policy.segment() as usize;
    let body = object.body().as_slice();
    let room = payload_length(code, size, body.len()) + 16;
    let mut bytes = open_put(alloc, policy, stamp, name, object, index, room)?;
    push_payload(&mut bytes, code, size, body, index)?;
    Ok(bytes)
}

/// The bytes of an archive before its payload, with room for so many more.
pub(crate) fn open_put(
    alloc: Global,
    policy: &Policy,
    stamp: Stamp,
    name: &Name,
    object: &Object,
    index: u32,
    room: usize,
) -> Result<Vec<u8>, NoMemory>
    requires { index < policy.now.k + policy.now.m }
    ensures { IfOk result (λ bytes. bytes.items ≡ put_label policy.now stamp name.now object.now index) }
{
    let code = Code::from(*policy);
    let segment = policy.segment();
    let body_length = object.body().len();
    let body_md5 = object.body_md5();
    let head = object.head();
    let label = Label {
        code,
        index,
        segment,
        stamp,
        body_length,
        body_md5,
        name,
        head,
    };
    label.open(alloc, room)
}
