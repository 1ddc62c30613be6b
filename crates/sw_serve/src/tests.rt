//! Connections over nodes behind locks, on disks in memory, with the built-in ring.

use crate::ConnEnd;
use crate::over_cells::serve_alone;
use std::alloc::Global;
use std::process::Abort;
use std::sync::Wait;
use std::test::Fail;
use sw_io::MemConn;
use sw_types::Bytes;

// A put as curl sends it, whose body is to come; a get; and a put in chunks.
const PUT: &str =
    "PUT /v1/AUTH_test/photos/cat.jpg HTTP/1.1\r\nHost: 127.0.0.1:8080\r\nUser-Agent: curl/8.5.0\r\nAccept: */*\r\nX-Auth-Token: tk\r\nContent-Type: image/jpeg\r\nContent-Length: 3\r\nExpect: 100-continue\r\n\r\n";

const GET: &str =
    "GET /v1/AUTH_test/photos/cat.jpg HTTP/1.1\r\nHost: 127.0.0.1:8080\r\nUser-Agent: curl/8.5.0\r\nAccept: */*\r\nX-Auth-Token: tk\r\n\r\n";

const PUT_IN_CHUNKS: &str =
    "PUT /v1/AUTH_test/photos/cat.jpg HTTP/1.1\r\nHost: 127.0.0.1:8080\r\nUser-Agent: curl/8.5.0\r\nAccept: */*\r\nX-Auth-Token: tk\r\nContent-Type: image/jpeg\r\nTransfer-Encoding: chunked\r\n\r\n3\r\nabc\r\n0\r\n\r\n";

// That the body of the put may come, and what is answered where they come one behind the other.
const LEAVE: &str = "HTTP/1.1 100 Continue\r\n\r\n";

const CREATED: &str =
    "HTTP/1.1 201 Created\r\nContent-Length: 0\r\nETag: 900150983cd24fb0d6963f7d28e17f72\r\nX-Timestamp: 1000000000.00000\r\nX-Commits: 3\r\n\r\n";

const FOUND: &str =
    "HTTP/1.1 200 OK\r\nContent-Length: 3\r\nContent-Type: image/jpeg\r\nETag: 900150983cd24fb0d6963f7d28e17f72\r\nX-Timestamp: 1000000000.00000\r\n\r\nabc";

const CREATED_AGAIN: &str =
    "HTTP/1.1 201 Created\r\nContent-Length: 0\r\nETag: 900150983cd24fb0d6963f7d28e17f72\r\nX-Timestamp: 1000000000.00001\r\nX-Commits: 3\r\n\r\n";

// How a connection ends on which these bytes come, so many at a time, over new nodes, and what is written. Where calls are told, those
// behind so many fail.
fn serve(
    rt: &impl Wait,
    alloc: Global,
    bytes: &[u8],
    most: usize,
    calls: Option<u64>,
) -> Result<(ConnEnd, Bytes), Fail> {
    let mut conn = MemConn::new(alloc, bytes.to_vec(alloc)?);
    if most > 0 {
        conn.give_at_most(most);
    }
    if let Some(calls) = calls {
        conn.fuse(calls);
    }
    let end = serve_alone(rt, alloc, &mut conn)?;
    Ok((end, Bytes::from_slice(alloc, conn.written())?))
}

fn expect_served(
    rt: &(impl Wait + Abort),
    alloc: Global,
    text: &str,
    end: ConnEnd,
    want: &str,
) -> Result<(), Fail> {
    for most in [1, 7, 65_536] {
        let (ended, written) = serve(rt, alloc, text.as_bytes(), most, None)?;
        assert_eq!(rt; ended, end, "of {text:?}");
        assert_eq!(rt; written.as_slice(), want.as_bytes(), "of {text:?}");
    }
    Ok(())
}

// A put as curl sends it, and what comes behind it on the same connection.
#[test]
fn requests_one_behind_the_other(rt: HostRuntime) -> Result<(), Fail> {
    let alloc = rt.alloc();
    let to = "/v1/AUTH_test/photos/cat.jpg HTTP/1.1\r\nHost: h\r\n";
    let text = format!(in alloc;
        "{PUT}abc{GET}{PUT_IN_CHUNKS}HEAD {to}\r\nDELETE {to}\r\nGET {to}Connection: close\r\n\r\nGET {to}"
    )?;
    let want = format!(in alloc;
        "{LEAVE}{CREATED}{FOUND}{CREATED_AGAIN}HTTP/1.1 200 OK\r\nContent-Length: 3\r\nContent-Type: image/jpeg\r\nETag: 900150983cd24fb0d6963f7d28e17f72\r\nX-Timestamp: 1000000000.00001\r\n\r\nHTTP/1.1 204 No Content\r\n\r\nHTTP/1.1 404 Not Found\r\nContent-Length: 24\r\nContent-Type: text/plain\r\nConnection: close\r\n\r\nBuried 1000000000.00002\n"
    )?;
    expect_served(&rt, alloc, &text, ConnEnd::Closed, &want)
}

#[test]
fn refusals(rt: HostRuntime) -> Result<(), Fail> {
    let alloc = rt.alloc();
    let cases = [
        (
            "PUT /v1/a/c/o HTTP/1.1\r\nHost: h\r\nContent-Length: 3\r\nETag: d41d8cd98f00b204e9800998ecf8427e\r\n\r\nabc",
            "422 Unprocessable Entity\r\nContent-Length: 12\r\nContent-Type: text/plain\r\n\r\nETagDiffers\n",
        ),
        (
            "GET /v1/a/c/%zz HTTP/1.1\r\nHost: h\r\n\r\nGET /v1/a/c/o HTTP/1.1\r\nHost: h\r\n\r\n",
            "412 Precondition Failed\r\nContent-Length: 10\r\nContent-Type: text/plain\r\nConnection: close\r\n\r\nBadEscape\n",
        ),
        (
            "GET / HTTP/9\r\n\r\n",
            "400 Bad Request\r\nContent-Length: 8\r\nContent-Type: text/plain\r\nConnection: close\r\n\r\nBadHead\n",
        ),
        (
            "HEAD /v1/a/c/o HTTP/1.1\r\nHost: h\r\nTransfer-Encoding: chunked\r\n\r\n3\r\nabcd\r\n",
            "400 Bad Request\r\nContent-Length: 9\r\nContent-Type: text/plain\r\nConnection: close\r\n\r\n",
        ),
        (
            "PUT /v1/a/c/o HTTP/1.1\r\nHost: h\r\nTransfer-Encoding: chunked\r\n\r\n1000001\r\n",
            "413 Payload Too Large\r\nContent-Length: 9\r\nContent-Type: text/plain\r\nConnection: close\r\n\r\nTooLarge\n",
        ),
    ];
    for (text, answer) in cases {
        let want = format!(in alloc; "HTTP/1.1 {answer}")?;
        expect_served(&rt, alloc, text, ConnEnd::Closed, &want)?;
    }
    Ok(())
}

#[test]
fn ends_within_a_request(rt: HostRuntime) -> Result<(), Fail> {
    let alloc = rt.alloc();
    let head =
        "PUT /v1/a/c/o HTTP/1.1\r\nHost: h\r\nContent-Length: 3\r\nExpect: 100-continue\r\n\r\n";
    let cases = [
        ("", ConnEnd::Closed, ""),
        ("\r\n\r\n", ConnEnd::Closed, ""),
        ("GET", ConnEnd::Cut, ""),
    ];
    for (text, end, want) in cases {
        expect_served(&rt, alloc, text, end, want)?;
    }
    let cut = format!(in alloc; "{head}ab")?;
    expect_served(&rt, alloc, &cut, ConnEnd::Cut, LEAVE)?;
    // The calls: a read, a write of the leave, a read of the body, a write of the answer.
    let cases = [
        (0, ConnEnd::ReadFault, ""),
        (1, ConnEnd::WriteFault, ""),
        (2, ConnEnd::ReadFault, LEAVE),
    ];
    for (calls, end, want) in cases {
        let (ended, written) = serve(&rt, alloc, head.as_bytes(), 65_536, Some(calls))?;
        assert_eq!(rt; ended, end);
        assert_eq!(rt; written.as_slice(), want.as_bytes());
    }
    // An answer is written before the next head is waited for: a read, a write of its head and its body, a read.
    let get = b"GET /v1/a/c/o HTTP/1.1\r\nHost: h\r\n\r\n";
    let (ended, written) = serve(&rt, alloc, get, 65_536, Some(2))?;
    assert_eq!(rt; ended, ConnEnd::ReadFault);
    let absent =
        "HTTP/1.1 404 Not Found\r\nContent-Length: 7\r\nContent-Type: text/plain\r\n\r\nAbsent\n";
    assert_eq!(rt; written.as_slice(), absent.as_bytes());
    Ok(())
}

// Each read and each write fails once: the connection ends there, and what is written is a front of all.
#[test]
fn each_call_of_a_connection_fails(rt: HostRuntime) -> Result<(), Fail> {
    let alloc = rt.alloc();
    let to = "/v1/a/c/o HTTP/1.1\r\nHost: h\r\n";
    let put = format!(in alloc; "PUT {to}Content-Length: 3\r\nExpect: 100-continue\r\n\r\nabc")?;
    let text = format!(in alloc; "{put}{put}GET {to}\r\nGET {to}\r\n")?;
    let (end, whole) = serve(&rt, alloc, text.as_bytes(), 40, None)?;
    assert_eq!(rt; end, ConnEnd::Closed);
    let mut faults = 0u64;
    for calls in 0..99 {
        let (end, written) = serve(&rt, alloc, text.as_bytes(), 40, Some(calls))?;
        match end {
            ConnEnd::ReadFault | ConnEnd::WriteFault => faults = faults.saturating_add(1),
            _ => assert_eq!(rt; (end, written.len()), (ConnEnd::Closed, whole.len())),
        }
        assert!(rt; whole.as_slice().starts_with(written.as_slice()));
    }
    // Of 228 bytes forty at a time, and then the end: seven reads. A leave and an answer are written for a put, and an answer for a get.
    assert_eq!(rt; faults, 7 + 6);
    Ok(())
}

// How a connection ends whose last byte is that of these, and what is written.
fn expect_cut(
    rt: &(impl Wait + Abort),
    alloc: Global,
    bytes: &[u8],
    end: ConnEnd,
    want: &[u8],
) -> Result<(), Fail> {
    for most in [1, 65_536] {
        let (ended, written) = serve(rt, alloc, bytes, most, None)?;
        assert_eq!(rt; ended, end, "behind {}", bytes.len());
        assert_eq!(rt; written.as_slice(), want, "behind {}", bytes.len());
    }
    Ok(())
}

// A put as curl sends it, a get and a put in chunks, cut after each byte.
#[test]
fn cut_after_each_byte(rt: HostRuntime) -> Result<(), Fail> {
    let alloc = rt.alloc();
    // What comes, what is written once it is there, and whether a request ends with it.
    let pieces = [
        (PUT, LEAVE, false),
        ("abc", CREATED, true),
        (GET, FOUND, true),
        (PUT_IN_CHUNKS, CREATED_AGAIN, true),
    ];
    let (mut bytes, mut want) = (Vec::new(alloc), Vec::new(alloc));
    let mut is_whole = true;
    for (piece, answer, ends) in pieces {
        for byte in piece.as_bytes() {
            let end = if is_whole {
                ConnEnd::Closed
            } else {
                ConnEnd::Cut
            };
            expect_cut(&rt, alloc, &bytes, end, &want)?;
            bytes.push(*byte)?;
            is_whole = false;
        }
        want.extend_from_slice(answer.as_bytes())?;
        is_whole = ends;
    }
    expect_cut(&rt, alloc, &bytes, ConnEnd::Closed, &want)
}

// A thousand requests are answered on a connection, and the last answer says that it is closed.
#[test]
fn a_thousand_requests(rt: HostRuntime) -> Result<(), Fail> {
    let alloc = rt.alloc();
    let request = b"PUT /v1/a/c/o HTTP/1.1\r\nHost: h\r\nContent-Length: 0\r\nETag: 0\r\n\r\n";
    let answer =
        "HTTP/1.1 422 Unprocessable Entity\r\nContent-Length: 12\r\nContent-Type: text/plain\r\n";
    let (mut text, mut want) = (Vec::new(alloc), Vec::new(alloc));
    for number in 1..=1001 {
        text.extend_from_slice(request)?;
        let close = if number == 1000 {
            "Connection: close\r\n"
        } else {
            ""
        };
        if number <= 1000 {
            let answer = format!(in alloc; "{answer}{close}\r\nETagDiffers\n")?;
            want.extend_from_slice(answer.as_bytes())?;
        }
    }
    let (ended, written) = serve(&rt, alloc, &text, 65_536, None)?;
    assert_eq!(rt; ended, ConnEnd::Closed);
    assert_eq!(rt; written.as_slice(), want.as_slice());
    Ok(())
}
