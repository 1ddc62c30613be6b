//! Worked segments, and segments decoded from any k of their fragments.

ghost use Rattle.std.specs.Prelude.{◌≡◌, ◌+◌, ◌<◌, [], IfOk, length};

use crate::{Code, Gather};
use std::alloc::Global;
use std::process::Abort;
use std::test::Fail;
use sw_types::{Bytes, Policy, read_hex};

const TEXT: &[u8; 98] =
    b"One ring of devices, many fragments of one segment: any k of them give back what all were made of.";

// The fragments of a segment in four codes, in hexadecimal, as Intel's ISA-L 2.30 computed them with
// `gf_gen_cauchy1_matrix` and `ec_encode_data`.
const ISAL_SEGMENT: &str =
    "95035294f2065da4d5aebfbee6b7dcf2751d0760e899d5915011351f0743755e9dde554311";

const ISAL_FRAGMENTS: [(u32, u32, &str); 4] = [
    (
        4,
        2,
        "95035294f2065da4d5ae bfbee6b7dcf2751d0760 e899d5915011351f0743 755e9dde554311000000 b796402492174aa45b2b \
         c9884d360df74a11a1ee",
    ),
    (
        10,
        4,
        "95035294 f2065da4 d5aebfbe e6b7dcf2 751d0760 e899d591 5011351f 0743755e 9dde5543 11000000 eda80f8d \
         eda58a8e 9490f287 eb3f7912",
    ),
    (
        8,
        24,
        "95035294f2 065da4d5ae bfbee6b7dc f2751d0760 e899d59150 11351f0743 755e9dde55 4311000000 598c28dbd6 \
         8a764edd07 412869db39 c56182fdb1 f91a6e5f59 70c13755c3 6a7c608ce5 37938b00a0 e8b99feb58 4b7e30e9fe \
         a54a6e6be5 41e2704ea0 02da49ee2a 21cd4a502e 8c7d75f233 d26503792c 061edef7e8 4e8f4f6ee8 6675ecb70d \
         8fc7d60640 86ae41d071 ba7a135c16 54d89179d3 01b41439bf",
    ),
    (
        20,
        12,
        "9503 5294 f206 5da4 d5ae bfbe e6b7 dcf2 751d 0760 e899 d591 5011 351f 0743 755e 9dde 5543 1100 0000 5970 \
         a184 a84d ad12 ccfd b29f e0ee 47fd b602 3e19 1db9 d162",
    ),
];

#[test]
fn coefficients(rt: HostRuntime) {
    let code = Code::new(2, 1);
    let rows = [[0x01, 0x00], [0x00, 0x01], [0x8e, 0xf4]];
    for (i, row) in rows.iter().enumerate() {
        for (j, entry) in row.iter().enumerate() {
            assert_eq!(rt; code.coefficient(i as u32, j as u32), *entry);
        }
    }
}

#[test]
fn fragments_of_segments(rt: HostRuntime) -> Result<(), Fail> {
    let alloc = rt.alloc();
    expect_fragments(&rt, alloc, b"abc", &[b"ab", b"c\0", b"\x9f\x31"])?;
    expect_fragments(
        &rt,
        alloc,
        &[0, 1, 2, 3],
        &[&[0, 1], &[2, 3], &[0xf5, 0x8f]],
    )?;
    expect_fragments(
        &rt,
        alloc,
        &[4, 5, 6, 7],
        &[&[4, 5], &[6, 7], &[0x00, 0x7a]],
    )?;
    expect_fragments(&rt, alloc, &[8], &[&[8], &[0], &[4]])?;
    expect_fragments(&rt, alloc, b"", &[b"", b"", b""])?;
    expect_fragments(
        &rt,
        alloc,
        &[0x61, 0x62],
        &[&[0x61], &[0x62], &[0x6b], &[0xe5]],
    )
}

// The code of so many data and parity fragments, by a policy.
fn code_of(k: u32, m: u32) -> Result<Code, Fail>
    ensures data { IfOk result (λ code. code.k ≡ k) }
    ensures parity { IfOk result (λ code. code.m ≡ m) }
{
    let policy = Policy::make(k, m, k, 1, k)?;
    Ok(Code::from(policy))
}

// The fragments of a segment in the code of two data fragments, and of parity fragments for the rest.
fn expect_fragments(
    rt: &impl Abort,
    alloc: Global,
    segment: &[u8],
    expected: &[&[u8]],
) -> Result<(), Fail> {
    assert!(rt; 3 <= expected.len() && expected.len() <= 8);
    let code = code_of(2, expected.len() as u32 - 2)?;
    let fragments = code.encode_stripe(alloc, segment)?;
    assert_eq!(rt; fragments.len(), expected.len());
    for (i, fragment) in fragments.iter().enumerate() {
        assert_eq!(rt; fragment.as_slice(), expected[i]);
    }
    Ok(())
}

#[test]
fn any_k_fragments_give_the_others(rt: HostRuntime) -> Result<(), Fail> {
    for (k, m) in [
        (1, 1),
        (1, 3),
        (2, 1),
        (3, 2),
        (4, 2),
        (10, 4),
        (8, 24),
        (24, 8),
    ] {
        expect_code(&rt, rt.alloc(), k, m)?;
    }
    Ok(())
}

// One gather, used again for fragments of another width.
#[test]
fn a_gather_is_used_again(rt: HostRuntime) -> Result<(), Fail> {
    let alloc = rt.alloc();
    let mut gather = Gather::new(alloc, Code::new(2, 1), 2)?;
    gather.add(0, &[0, 1]);
    gather.add(1, &[2, 3]);
    let segment = gather.finish(alloc, 4)?;
    assert_eq!(rt; segment.as_slice(), [0, 1, 2, 3].as_slice());
    gather.again(1)?;
    gather.add(0, &[8]);
    gather.add(1, &[0]);
    let segment = gather.finish(alloc, 1)?;
    assert_eq!(rt; segment.as_slice(), [8].as_slice());
    Ok(())
}

#[test]
fn fragments_of_isal(rt: HostRuntime) -> Result<(), Fail> {
    let alloc = rt.alloc();
    let segment = read_hex(alloc, ISAL_SEGMENT.as_bytes())?;
    for (k, m, words) in &ISAL_FRAGMENTS {
        let mut fragments = Vec::new(alloc);
        for word in words.split(' ') {
            fragments.push(read_hex(alloc, word.as_bytes())?)?;
        }
        expect_isal(&rt, alloc, *k, *m, segment.as_slice(), &fragments)?;
    }
    Ok(())
}

// The fragments of a segment, and the segment and each fragment decoded from k of them, the parity fragments first.
fn expect_isal(
    rt: &impl Abort,
    alloc: Global,
    k: u32,
    m: u32,
    segment: &[u8],
    fragments: &[Bytes],
) -> Result<(), Fail> {
    let code = code_of(k, m)?;
    assert_eq!(rt; fragments.len(), (k + m) as usize);
    let encoded = code.encode_stripe(alloc, segment)?;
    assert_eq!(rt; encoded.as_slice(), fragments);
    let mut gather = Gather::new(alloc, code, 0)?;
    expect_decoded(rt, alloc, &mut gather, code, segment, fragments, k, 1)
}

// Segments of several widths, decoded through one gather.
fn expect_code(rt: &impl Abort, alloc: Global, k: u32, m: u32) -> Result<(), Fail> {
    let code = code_of(k, m)?;
    let mut gather = Gather::new(alloc, code, 2)?;
    expect_segment(rt, alloc, &mut gather, code, b"")?;
    expect_segment(rt, alloc, &mut gather, code, b"a")?;
    expect_segment(
        rt,
        alloc,
        &mut gather,
        code,
        &TEXT[..3 * code.k as usize + 1],
    )?;
    expect_segment(rt, alloc, &mut gather, code, b"of")
}

// Decodes from the data fragments, from these in the reverse order, and from three choices that begin with parity
// fragments and differ in their order. The first choice is the last one of the segment before.
fn expect_segment(
    rt: &impl Abort,
    alloc: Global,
    gather: &mut Gather,
    code: Code,
    segment: &[u8],
) -> Result<(), Fail>
    requires data { gather.old.k ≡ code.k }
    requires parity { gather.old.m ≡ code.m }
    ensures data { IfOk result (λ _. gather.new.k ≡ code.k) }
    ensures parity { IfOk result (λ _. gather.new.m ≡ code.m) }
{
    let fragments = code.encode_stripe(alloc, segment)?;
    let total = code.k + code.m;
    assert_eq!(rt; fragments.len(), total as usize);
    for (first, step) in [
        (total - 1, 13),
        (0, 1),
        (code.k - 1, total - 1),
        (code.k, 1),
        (code.k, 11),
        (total - 1, 13),
    ] {
        expect_decoded(rt, alloc, gather, code, segment, &fragments, first, step)?;
    }
    Ok(())
}

// Decodes the segment and each fragment from k fragments, whose indices lie `step` apart.
fn expect_decoded(
    rt: &impl Abort,
    alloc: Global,
    gather: &mut Gather,
    code: Code,
    segment: &[u8],
    fragments: &[Bytes],
    first: u32,
    step: u32,
) -> Result<(), Fail>
    requires data { gather.old.k ≡ code.k }
    requires parity { gather.old.m ≡ code.m }
    requires fragments { length fragments.now ≡ code.k + code.m }
    requires first { first < 32 }
    requires step { step < 32 }
    ensures data { IfOk result (λ _. gather.new.k ≡ code.k) }
    ensures parity { IfOk result (λ _. gather.new.m ≡ code.m) }
{
    let width = code.fragment_width(segment.len());
    gather.again(width)?;
    gather_fragments(rt, alloc, gather, code, width, fragments, first, step)?;
    let decoded = gather.finish(alloc, segment.len())?;
    assert_eq!(rt; decoded.as_slice(), segment);
    for (index, fragment) in fragments.iter().enumerate() {
        let rebuilt = gather.rebuild(alloc, index as u32)?;
        assert_eq!(rt; rebuilt.as_slice(), fragment.as_slice());
    }
    Ok(())
}

// Gathers k fragments, whose indices lie `step` apart.
fn gather_fragments(
    rt: &impl Abort,
    alloc: Global,
    gather: &mut Gather,
    code: Code,
    width: usize,
    fragments: &[Bytes],
    first: u32,
    step: u32,
) -> Result<(), Fail>
    requires data { gather.old.k ≡ code.k }
    requires parity { gather.old.m ≡ code.m }
    requires width { gather.old.width ≡ width }
    requires empty { gather.old.shares ≡ [] }
    requires fragments { length fragments.now ≡ code.k + code.m }
    requires first { first < 32 }
    requires step { step < 32 }
    ensures data { IfOk result (λ _. gather.new.k ≡ code.k) }
    ensures parity { IfOk result (λ _. gather.new.m ≡ code.m) }
    ensures width { IfOk result (λ _. gather.new.width ≡ width) }
    ensures enough { IfOk result (λ _. length gather.new.shares ≡ code.k) }
{
    let mut taken = Vec::with_capacity(alloc, code.k as usize)?;
    for t in 0..code.k {
        let index = (first + t * step) % (code.k + code.m);
        let fragment = fragments[index as usize].as_slice();
        assert_eq!(rt; fragment.len(), width);
        assert!(rt; !taken.contains(&index));
        gather.add(index, fragment);
        taken.push(index)?;
    }
    Ok(())
}
