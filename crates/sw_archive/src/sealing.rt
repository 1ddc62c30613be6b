//! The MD5s that end the archives of an object that is put.

ghost use Rattle.std.specs.Prelude.{◌≡◌, ◌+◌, ◌<◌, ◌++◌, List, ℕ, IfOk, OnOk, map};
ghost use Rattle.std.specs.List.{range_with_len};
ghost use Rattle.sw_md5.specs.UnderWay.{HoldsMessages, count_of};
ghost use Rattle.sw_archive.specs.Put.{payload, put_label, put_seals};

use crate::making::open_put;
use std::alloc::Global;
use sw_cauchy::Code;
use sw_md5::Digests;
use sw_types::{Bytes, Name, NoMemory, Object, Policy, Stamp};

/// The MD5 that ends each archive of an object that is put, by index. They are computed side by side, and of the archives
/// no more is kept at a time than the fragments of one segment.
pub fn seals(
    alloc: Global,
    policy: &Policy,
    stamp: Stamp,
    name: &Name,
    object: &Object,
) -> Result<Vec<[u8; 16]>, NoMemory>
    ensures { IfOk result (λ seals. seals.items ≡ put_seals policy.now stamp name.now object.now) }
{
    let code = Code::from(*policy);
    let size = policy.segment() as usize;
    let count = (code.k + code.m) as usize;
    let mut digests = Digests::new(count);
    let labels = open_all(alloc, policy, stamp, name, object)?;
    digests.update(&labels);
    hash_payloads(alloc, &mut digests, code, size, object.body().as_slice())?;
    let seals = digests.finish();
    Ok(Vec::from_slice(alloc, &seals[..count])?)
}

// The bytes of each archive before its payload, by index.
fn open_all(
    alloc: Global,
    policy: &Policy,
    stamp: Stamp,
    name: &Name,
    object: &Object,
) -> Result<Vec<Bytes>, NoMemory>
    ensures { IfOk result (λ labels. labels.items ≡ map (put_label policy.now stamp name.now object.now) (range_with_len 0 (policy.now.k + policy.now.m))) }
{
    prove!(policy.segment() <= Policy::GREATEST_SEGMENT);
    let mut labels = Vec::new(alloc);
    for index in 0..policy.k() + policy.m() {
        let label = open_put(alloc, policy, stamp, name, object, index, 0)?;
        labels.push(Bytes::from(label))?;
    }
    Ok(labels)
}

// Has the message of each index go on by the payload of that index.
fn hash_payloads(
    alloc: Global,
    digests: &mut Digests,
    code: Code,
    size: usize,
    body: &[u8],
) -> Result<(), NoMemory>
    requires some { 0 < size }
    requires count { count_of digests.old ≡ code.k + code.m }
    ensures { (message : ℕ → List ℕ) → HoldsMessages digests.old (map message (range_with_len 0 (code.k + code.m))) →
        OnOk result (HoldsMessages digests.new (map (λ index. message index ++ payload code.k size body.now index) (range_with_len 0 (code.k + code.m)))) }
{
    for segment in body.chunks(size) {
        let fragments = code.encode_stripe(alloc, segment)?;
        digests.update(&fragments);
    }
    Ok(())
}
