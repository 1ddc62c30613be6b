//! Heads, however their bytes are cut.

use super::*;
use std::alloc::Global;
use std::test::Fail;
use sw_io::{Conn, MemConn, ReadFailed};

fn word(next: &HeadNext) -> &'static str {
    match next {
        HeadNext::Head(_) => "head",
        HeadNext::End => "end",
        HeadNext::Cut => "cut",
        HeadNext::BadHead => "bad head",
        HeadNext::HeadTooLarge => "head too large",
        HeadNext::ReadFault => "read fault",
        HeadNext::NoMemory => "no memory",
    }
}

// A text, so many bytes of a kind, and a text.
pub(crate) fn filled(
    alloc: Global,
    before: &str,
    byte: u8,
    count: usize,
    after: &str,
) -> Result<Vec<u8>, Fail> {
    let mut text = before.as_bytes().to_vec(alloc)?;
    let filling = vec![in alloc; byte; count]?;
    text.extend_from_slice(&filling)?;
    text.extend_from_slice(after.as_bytes())?;
    Ok(text)
}

#[test]
fn a_head_cut_in_every_place(rt: HostRuntime) -> Result<(), Fail> {
    let alloc = rt.alloc();
    let text = b"\r\n\nPUT /v1/a/c/o?x HTTP/1.0\r\nHost: \t a b \nX:\r\n\r\nabc";
    for place in 0..text.len() {
        let mut conn = MemConn::new(alloc, text.to_vec(alloc)?);
        conn.give_at_most(place + 1);
        let mut carry = Carry::new(alloc);
        let HeadNext::Head(head) = next_head(alloc, &mut conn, &mut carry) else {
            return Err("no head".into());
        };
        assert_eq!(rt; head.method(), b"PUT".as_slice());
        assert_eq!(rt; head.target(), b"/v1/a/c/o?x".as_slice());
        assert_eq!(rt; head.minor(), 0);
        let [host, empty] = head.fields() else {
            return Err("other fields".into());
        };
        assert_eq!(rt; host.0.as_slice(), b"Host".as_slice());
        assert_eq!(rt; host.1.as_slice(), b"a b".as_slice());
        assert_eq!(rt; empty.1.is_empty(), true);
        assert_eq!(rt; b"abc".starts_with(carry.as_slice()), true);
        assert_eq!(rt; word(&next_head(alloc, &mut conn, &mut carry)), "cut");
        assert_eq!(rt; carry.as_slice(), b"abc".as_slice());
    }
    Ok(())
}

#[test]
fn what_comes_of_bytes(rt: HostRuntime) -> Result<(), Fail> {
    let alloc = rt.alloc();
    let cases = [
        ("", "end"),
        ("\r\n\n\r", "end"),
        ("\r\r\n\r\n", "bad head"),
        ("GET / HTTP/1.1\n\n", "head"),
        ("GET / HTTP/1.1\r\nA: b\r\n", "cut"),
        ("GET /\r\n", "cut"),
        ("GET /\r\n\r\n", "bad head"),
        ("GET / HTTP/1.1\r\nA : b\r\n\r\n", "bad head"),
    ];
    for (text, want) in cases {
        let mut conn = MemConn::new(alloc, text.as_bytes().to_vec(alloc)?);
        conn.give_at_most(5);
        let mut carry = Carry::new(alloc);
        let next = next_head(alloc, &mut conn, &mut carry);
        assert_eq!(rt; word(&next), want, "of {text:?}");
    }
    Ok(())
}

#[test]
fn heads_at_their_limit(rt: HostRuntime) -> Result<(), Fail> {
    let alloc = rt.alloc();
    // A head of 23 bytes and those of a value, or empty lines alone.
    let cases = [
        ("GET / HTTP/1.1\r\nA: ", b'x', 8169, "\r\n\r\n", "head"),
        (
            "GET / HTTP/1.1\r\nA: ",
            b'x',
            8170,
            "\r\n\r\n",
            "head too large",
        ),
        ("", b'\n', 8191, "", "end"),
        ("", b'\n', 8192, "", "head too large"),
    ];
    for (before, byte, count, after, want) in cases {
        let mut conn = MemConn::new(alloc, filled(alloc, before, byte, count, after)?);
        conn.give_at_most(97);
        let mut carry = Carry::new(alloc);
        let next = next_head(alloc, &mut conn, &mut carry);
        assert_eq!(rt; word(&next), want, "with {count} bytes");
    }
    Ok(())
}

#[test]
fn a_read_that_fails_loses_nothing(rt: HostRuntime) -> Result<(), Fail> {
    let alloc = rt.alloc();
    let mut conn = MemConn::new(alloc, b"GET / HTTP/1.1\r\n\r\n".to_vec(alloc)?);
    conn.give_at_most(5);
    conn.fuse(2);
    let mut carry = Carry::new(alloc);
    assert_eq!(rt;
        word(&next_head(alloc, &mut conn, &mut carry)),
        "read fault"
    );
    assert_eq!(rt; carry.as_slice(), b"GET / HTTP".as_slice());
    conn.fuse(9);
    assert_eq!(rt; word(&next_head(alloc, &mut conn, &mut carry)), "head");
    // Nothing more is read once the bytes at hand decide.
    let mut carry = Carry::new(alloc);
    let mut conn = MemConn::new(alloc, b"\n\nGET / HTTP/1.1\n\nGET".to_vec(alloc)?);
    conn.give_at_most(18);
    conn.fuse(1);
    assert_eq!(rt; word(&next_head(alloc, &mut conn, &mut carry)), "head");
    let mut room = [0; 4];
    assert_eq!(rt; conn.read(&mut room), Err(ReadFailed));
    Ok(())
}
