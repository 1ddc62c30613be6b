//! Stamps, hex texts, names, policies and bytes.

use super::NameFault::{Empty, NotUtf8, Nul, Slash, TooLong};
use super::Part::{Account, Container, Object};
use super::*;
use std::test::Fail;

#[test]
fn prints_and_reads_stamps(rt: HostRuntime) -> Result<(), Fail> {
    let cases = [
        (0, "0000000000.00000"),
        (100_000_000_000_000, "1000000000.00000"),
        (123_456_789_012_345, "1234567890.12345"),
        (999_999_999_999_999, "9999999999.99999"),
    ];
    for (units, want) in cases {
        let stamp = Stamp::make(units).ok_or("too many units")?;
        assert_eq!(rt; stamp.units(), units);
        assert_eq!(rt; stamp.print().as_slice(), want.as_bytes(), "at {units}");
        assert_eq!(rt;
            format!(in rt.alloc(); "{stamp}")?.as_str(),
            want,
            "at {units}"
        );
        assert_eq!(rt; Stamp::read(want.as_bytes()), Some(stamp), "at {want}");
    }
    assert_eq!(rt; Stamp::make(1_000_000_000_000_000), None);
    let others: [&[u8]; 9] = [
        b"",
        b"1000000000",
        b"1000000000.0000",
        b"1000000000.000000",
        b"1000000000,00000",
        b"+000000000.00000",
        b"1000000000.+0000",
        b"100000000 .00000",
        b"100000000\xff.00000",
    ];
    for text in others {
        assert_eq!(rt; Stamp::read(text), None, "at {text:?}");
    }
    Ok(())
}

#[test]
fn reads_decimals(rt: HostRuntime) {
    let cases: [(&[u8], Option<u64>); 13] = [
        (b"0", Some(0)),
        (b"10", Some(10)),
        (b"18446744073709551615", Some(u64::MAX)),
        (b"18446744073709551616", None),
        (b"", None),
        (b"00", None),
        (b"01", None),
        (b"+1", None),
        (b"-1", None),
        (b" 1", None),
        (b"1 ", None),
        (b"1a", None),
        (b"\xff", None),
    ];
    for (text, want) in cases {
        assert_eq!(rt; read_decimal(text), want, "at {text:?}");
    }
}

#[test]
fn reads_hex_of_either_case(rt: HostRuntime) -> Result<(), Fail> {
    let alloc = rt.alloc();
    for (text, want) in [("-", ""), ("616263", "abc"), ("6A6b", "jk")] {
        let bytes = read_hex(alloc, text.as_bytes())?;
        assert_eq!(rt; bytes.as_slice(), want.as_bytes(), "at {text}");
    }
    for text in ["", "6", "6g", "--", "616"] {
        let fault = read_hex(alloc, text.as_bytes()).err();
        assert_eq!(rt; fault, Some(HexFault::Bad), "at {text}");
    }
    Ok(())
}

#[test]
fn prints_hex_in_lower_case(rt: HostRuntime) -> Result<(), Fail> {
    let alloc = rt.alloc();
    let none = print_hex(alloc, &[])?;
    assert_eq!(rt; none.as_slice(), b"-".as_slice());
    let text = print_hex(alloc, &[0x00, 0xff, 0x61])?;
    assert_eq!(rt; text.as_slice(), b"00ff61".as_slice());
    Ok(())
}

#[test]
fn names_the_first_fault(rt: HostRuntime) {
    let long = [b'x'; 1_025];
    let cases: [(&[u8], &[u8], &[u8], Option<NameFault>); 14] = [
        (b"a", b"c", b"o", None),
        (b"a", b"c", b"/o//p/", None),
        (&long[..256], &long[..256], &long[..1_024], None),
        (b"", b"c", b"o", Some(Empty(Account))),
        (b"a", b"", b"o", Some(Empty(Container))),
        (b"a", b"c", b"", Some(Empty(Object))),
        (&long[..257], b"c", b"o", Some(TooLong(Account, 257))),
        (b"a", &long[..257], b"o", Some(TooLong(Container, 257))),
        (b"a", b"c", &long, Some(TooLong(Object, 1_025))),
        (b"a", b"\xff", b"o", Some(NotUtf8(Container))),
        (b"a", b"c", b"o\0", Some(Nul(Object))),
        (b"a/b", b"c", b"o", Some(Slash(Account))),
        // The first fault of the first part that has one.
        (b"a", b"/\0", b"", Some(Nul(Container))),
        (b"/", b"", b"\xff", Some(Slash(Account))),
    ];
    for (account, container, object, want) in cases {
        let fault = Name::make(rt.alloc(), account, container, object).err();
        assert_eq!(rt; fault, want);
        assert_eq!(rt; Name::fault(account, container, object), want);
    }
}

#[test]
fn compares_each_part_of_a_name(rt: HostRuntime) -> Result<(), Fail> {
    let alloc = rt.alloc();
    let name = Name::make(alloc, b"a", b"bc", b"o")?;
    assert_eq!(rt;
        (name.account(), name.container(), name.object()),
        ("a", "bc", "o")
    );
    assert_eq!(rt; name.clone()?, name);
    assert_eq!(rt; Name::make(alloc, b"a", b"bc", b"o")?, name);
    for (account, container, object) in [
        ("ab", "c", "o"),
        ("b", "bc", "o"),
        ("a", "bd", "o"),
        ("a", "bc", "p"),
    ] {
        let other = Name::make(
            alloc,
            account.as_bytes(),
            container.as_bytes(),
            object.as_bytes(),
        )?;
        assert_ne!(rt; other, name);
    }
    Ok(())
}

#[test]
fn puts_each_part_behind_a_slash(rt: HostRuntime) -> Result<(), Fail> {
    let alloc = rt.alloc();
    let path = Name::make(alloc, b"a", b"c", b"o")?.path(alloc)?;
    assert_eq!(rt; path.as_slice(), b"/a/c/o".as_slice());
    Ok(())
}

#[test]
fn names_the_first_broken_bound(rt: HostRuntime) {
    let most = u32::MAX;
    let cases = [
        ((2, 1, 3, 2, 1_048_576), None),
        ((8, 24, 32, 32, 4_194_304), None),
        ((0, 1, 3, 2, 1_048_576), Some(PolicyFault::K(0))),
        ((2, 0, 3, 2, 1_048_576), Some(PolicyFault::M(0))),
        ((2, 7, 3, 2, 1_048_576), Some(PolicyFault::M(7))),
        ((30, 3, 30, 2, 1_048_576), Some(PolicyFault::N(33))),
        ((2, 1, 1, 1, 1_048_576), Some(PolicyFault::Q(1))),
        ((2, 1, 4, 2, 1_048_576), Some(PolicyFault::Q(4))),
        ((2, 1, 3, 0, 1_048_576), Some(PolicyFault::C(0))),
        ((2, 1, 3, 4, 1_048_576), Some(PolicyFault::C(4))),
        ((2, 1, 3, 2, 1), Some(PolicyFault::Segment(1))),
        (
            (2, 1, 3, 2, 4_194_305),
            Some(PolicyFault::Segment(4_194_305)),
        ),
        (
            (most, most, most, most, most),
            Some(PolicyFault::N(8_589_934_590)),
        ),
    ];
    for ((k, m, q, c, segment), want) in cases {
        assert_eq!(rt; Policy::make(k, m, q, c, segment).err(), want);
    }
}

#[test]
fn keeps_the_numbers_of_a_policy(rt: HostRuntime) -> Result<(), Fail> {
    let policy = Policy::make(4, 2, 5, 3, 65_536)?;
    assert_eq!(rt; (policy.k(), policy.m()), (4, 2));
    assert_eq!(rt; (policy.q(), policy.c()), (5, 3));
    assert_eq!(rt; policy.segment(), 65_536);
    Ok(())
}

#[test]
fn keeps_bytes(rt: HostRuntime) -> Result<(), Fail> {
    let alloc = rt.alloc();
    let mut bytes = Bytes::new(alloc);
    assert!(rt; bytes.is_empty());
    bytes.extend_from_slice(b"one ")?;
    bytes.extend_from_slice(b"two")?;
    assert_eq!(rt; bytes.len(), 7);
    assert_eq!(rt; bytes, Bytes::from_slice(alloc, b"one two")?);
    assert_ne!(rt; bytes, Bytes::from(b"one".to_vec(alloc)?));
    let copy = bytes.clone()?;
    assert_eq!(rt; copy.into_vec().as_slice(), bytes.as_slice());
    Ok(())
}
