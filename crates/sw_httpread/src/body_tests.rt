//! Bodies, however their bytes are cut.

use super::*;
use crate::head_tests::filled;
use std::test::Fail;
use sw_io::MemConn;

fn word(next: &BodyNext) -> &'static str {
    match next {
        BodyNext::Body(_) => "body",
        BodyNext::Cut => "cut",
        BodyNext::BadChunk => "bad chunk",
        BodyNext::TooLarge => "too large",
        BodyNext::ReadFault => "read fault",
        BodyNext::NoMemory => "no memory",
    }
}

#[test]
fn a_chunked_body_cut_in_every_place(rt: HostRuntime) -> Result<(), Fail> {
    let alloc = rt.alloc();
    let text = b"3\r\nabc\r\n00A \t;name=\"v\"\r\n0123456789\r\n0;x\r\nA: b\r\nC:\n\nGET";
    for place in 0..text.len() {
        let mut conn = MemConn::new(alloc, text.to_vec(alloc)?);
        conn.give_at_most(place + 1);
        let mut carry = Carry::new(alloc);
        let BodyNext::Body(body) = read_body(alloc, &mut conn, &mut carry, Framing::Chunked) else {
            return Err("no body".into());
        };
        assert_eq!(rt; body.as_slice(), b"abc0123456789".as_slice());
        assert_eq!(rt; b"GET".starts_with(carry.as_slice()), true);
    }
    Ok(())
}

#[test]
fn what_comes_of_bytes(rt: HostRuntime) -> Result<(), Fail> {
    let alloc = rt.alloc();
    let cases = [
        (Framing::None, "abc", "body"),
        (Framing::Length(0), "abc", "body"),
        (Framing::Length(3), "abc", "body"),
        (Framing::Length(3), "ab", "cut"),
        (Framing::Length(16_777_217), "ab", "too large"),
        (Framing::Chunked, "3\r\nabc\r\n0\r\n\r\n", "body"),
        (Framing::Chunked, "0\r\n\n", "body"),
        (Framing::Chunked, "3\r\nab", "cut"),
        (Framing::Chunked, "1\r\na\r\n0\r\n\r", "cut"),
        // A chunk's end is judged at its second byte.
        (Framing::Chunked, "3\r\nabcd", "cut"),
        (Framing::Chunked, "3\r\nabcd\n", "bad chunk"),
        (Framing::Chunked, "3\r\nabc\n0", "bad chunk"),
        // A chunk line at its line feed, before which a carriage return has to stand.
        (Framing::Chunked, "x", "cut"),
        (Framing::Chunked, "x\n", "bad chunk"),
        (Framing::Chunked, "1\na\r\n", "bad chunk"),
        (Framing::Chunked, "0\r\nA b\r\n\r\n", "bad chunk"),
        (Framing::Chunked, "1000001\r\n", "too large"),
        (Framing::Chunked, "1\r\na\r\n1000000\r\n", "too large"),
        (Framing::Chunked, "1000000\r\n", "cut"),
    ];
    for (framing, text, want) in cases {
        let mut conn = MemConn::new(alloc, text.as_bytes().to_vec(alloc)?);
        conn.give_at_most(2);
        let mut carry = Carry::new(alloc);
        let next = read_body(alloc, &mut conn, &mut carry, framing);
        assert_eq!(rt; word(&next), want, "of {text:?}");
    }
    Ok(())
}

#[test]
fn lines_and_sections_at_their_limit(rt: HostRuntime) -> Result<(), Fail> {
    let alloc = rt.alloc();
    // A chunk line has 4 bytes and those of its extension, a trailer section 7 and those of its value.
    let cases = [
        ("1;", 8188, "\r\na\r\n0\r\n\r\n", "body"),
        ("1;", 8189, "\r\na\r\n0\r\n\r\n", "bad chunk"),
        ("0\r\nA: ", 8185, "\r\n\r\n", "body"),
        ("0\r\nA: ", 8186, "\r\n\r\n", "bad chunk"),
        ("", 8191, "", "cut"),
        ("", 8192, "", "bad chunk"),
    ];
    for (before, count, after, want) in cases {
        let mut conn = MemConn::new(alloc, filled(alloc, before, b'x', count, after)?);
        conn.give_at_most(1000);
        let mut carry = Carry::new(alloc);
        let next = read_body(alloc, &mut conn, &mut carry, Framing::Chunked);
        assert_eq!(rt; word(&next), want, "with {count} bytes");
    }
    Ok(())
}

#[test]
fn a_read_that_fails_loses_no_chunk_begun(rt: HostRuntime) -> Result<(), Fail> {
    let alloc = rt.alloc();
    let mut conn = MemConn::new(alloc, b"3\r\nabc\r\n2\r\nde\r\n0\r\n\r\n".to_vec(alloc)?);
    conn.give_at_most(7);
    conn.fuse(2);
    let mut carry = Carry::new(alloc);
    let next = read_body(alloc, &mut conn, &mut carry, Framing::Chunked);
    assert_eq!(rt; word(&next), "read fault");
    assert_eq!(rt; carry.as_slice(), b"2\r\nde\r".as_slice());
    Ok(())
}
