//! Heads and objects: each rule of a head broken first, and each limit met.

use super::HeadFault::{ContentType, Overall, PairName, PairValue, TooManyPairs, Twice};
use super::*;
use std::alloc::Global;
use std::test::Fail;

const TYPE: &[u8] = b"text/plain";

const LONG: [u8; 257] = [b'v'; 257];

type Pairs = Vec<(Bytes, Bytes)>;

fn push(alloc: Global, pairs: &mut Pairs, name: &[u8], value: &[u8]) -> Result<(), NoMemory> {
    let name = Bytes::from_slice(alloc, name)?;
    let value = Bytes::from_slice(alloc, value)?;
    pairs.push((name, value))?;
    Ok(())
}

// The pairs that a text spells: `NAME=VALUE`, with an ampersand between each two.
fn pairs_of(alloc: Global, text: &[u8]) -> Result<Pairs, NoMemory> {
    let mut pairs = Vec::new(alloc);
    for pair in text.split(|byte| *byte == b'&') {
        let mut sides = pair.split(|byte| *byte == b'=');
        if let (Some(name), Some(value)) = (sides.next(), sides.next()) {
            push(alloc, &mut pairs, name, value)?;
        }
    }
    Ok(pairs)
}

// So many pairs, whose names are two digits, and whose values have so many bytes.
fn many(alloc: Global, count: u8, value: &[u8]) -> Result<Pairs, NoMemory> {
    let mut pairs = Vec::new(alloc);
    for number in 0..count {
        let name = [b'0' + number / 10 % 10, b'0' + number % 10];
        push(alloc, &mut pairs, &name, value)?;
    }
    Ok(pairs)
}

#[test]
fn names_the_first_broken_rule(rt: HostRuntime) -> Result<(), Fail> {
    let alloc = rt.alloc();
    let cases: [(&[u8], &[u8], Option<HeadFault>); 13] = [
        (TYPE, b"", None),
        (TYPE, b"b=&a=", None),
        (TYPE, b"09az!#$%'*+-.^_`|~=\x01 \t\xff", None),
        (b"", b"=", Some(ContentType)),
        (b"a\rb", b"", Some(ContentType)),
        (b"a\nb", b"", Some(ContentType)),
        (b"a\0b", b"", Some(ContentType)),
        (TYPE, b"a=\n&=", Some(PairName(1))),
        (TYPE, b"a=&A=", Some(PairName(1))),
        (TYPE, b"a(=", Some(PairName(0))),
        (TYPE, b"a=&a=\n", Some(PairValue(1))),
        (TYPE, b"a=1&b=2&a=1", Some(Twice(2))),
        (TYPE, b"a=&a=&a=", Some(Twice(1))),
    ];
    for (content_type, text, fault) in cases {
        let pairs = pairs_of(alloc, text)?;
        let result = Head::make(alloc, content_type, &pairs);
        assert_eq!(rt; result.err(), fault, "of {content_type:?} and {text:?}");
    }
    Ok(())
}

#[test]
fn keeps_to_the_lengths(rt: HostRuntime) -> Result<(), Fail> {
    let alloc = rt.alloc();
    let cases = [
        (256, 128, 256, None),
        (257, 128, 256, Some(ContentType)),
        (256, 129, 257, Some(PairName(0))),
        (256, 128, 257, Some(PairValue(0))),
    ];
    for (content_type, name, value, fault) in cases {
        let mut pairs = Vec::new(alloc);
        push(alloc, &mut pairs, &LONG[..name], &LONG[..value])?;
        let result = Head::make(alloc, &LONG[..content_type], &pairs);
        assert_eq!(rt; result.err(), fault, "{content_type} {name} {value}");
        let has_forms = Head::is_content_type(&LONG[..content_type])
            && Head::is_pair(&LONG[..name], &LONG[..value]);
        assert_eq!(rt; has_forms, fault.is_none());
    }
    Ok(())
}

#[test]
fn counts_pairs_and_their_bytes(rt: HostRuntime) -> Result<(), Fail> {
    let alloc = rt.alloc();
    // With 16 values of 254 bytes there are 4,096 bytes over all.
    let cases = [
        (90, 0, None),
        (91, 0, Some(TooManyPairs)),
        (16, 254, None),
        (16, 255, Some(Overall)),
    ];
    for (count, length, fault) in cases {
        let pairs = many(alloc, count, &LONG[..length])?;
        let result = Head::make(alloc, TYPE, &pairs);
        assert_eq!(rt; result.err(), fault, "{count} values of {length} bytes");
    }
    Ok(())
}

#[test]
fn makes_objects_with_the_md5_of_the_body(rt: HostRuntime) -> Result<(), Fail> {
    let alloc = rt.alloc();
    // RFC 1321, section A.5.
    let digest = hex::decode(alloc, b"900150983cd24fb0d6963f7d28e17f72".as_slice())?;
    let pairs = pairs_of(alloc, b"colour=grey")?;
    let head = Head::make(alloc, TYPE, &pairs)?;
    let body = Bytes::from_slice(alloc, b"abc")?;
    let object = Object::make(head, body).ok().ok_or("too long")?;
    assert_eq!(rt; object.body_md5().as_slice(), digest.as_slice());
    let (head, body) = object.clone()?.into_parts();
    assert_eq!(rt; head.content_type(), TYPE);
    assert_eq!(rt; head.pairs().len(), 1);
    assert_eq!(rt; body.as_slice(), b"abc".as_slice());

    let longest = vec![in alloc; 0; Object::GREATEST_BODY + 1]?;
    let back = Object::make(head, Bytes::from(longest));
    let (_, body) = back.err().ok_or("not too long")?;
    assert_eq!(rt; body.len(), Object::GREATEST_BODY + 1);
    Ok(())
}
