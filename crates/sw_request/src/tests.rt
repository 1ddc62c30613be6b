//! Requests, from the texts of their heads.

use super::*;
use std::alloc::Global;
use std::process::Abort;
use std::test::Fail;
use sw_httpread::{Carry, Framing, HeadNext, RequestHead, next_head};
use sw_httpwrite::{Answer, write_response};
use sw_io::MemConn;
use sw_types::Bytes;

// The head that a text is.
fn head_of(alloc: Global, text: &[u8]) -> Result<RequestHead, Fail> {
    let mut conn = MemConn::new(alloc, text.to_vec(alloc)?);
    let mut carry = Carry::new(alloc);
    match next_head(alloc, &mut conn, &mut carry) {
        HeadNext::Head(head) => Ok(head),
        _ => Err("no head".into()),
    }
}

// The head of a method and a target, of HTTP/1.1.
fn head_at(alloc: Global, method: &str, target: &[u8]) -> Result<RequestHead, Fail> {
    let mut text = method.as_bytes().to_vec(alloc)?;
    text.extend_from_slice(b" ")?;
    text.extend_from_slice(target)?;
    text.extend_from_slice(b" HTTP/1.1\r\nHost: h\r\n\r\n")?;
    head_of(alloc, &text)
}

// The request of a head and a body.
fn request_of(alloc: Global, text: &str, body: &[u8]) -> Result<Request, Fail> {
    let head = head_of(alloc, text.as_bytes())?;
    Ok(Request::new(head, Bytes::from_slice(alloc, body)?))
}

// The body of the answer to a head's defect, or how the head's body is read.
fn told(verdict: &Verdict) -> &[u8] {
    match verdict {
        Verdict::Refuse(answer) => answer.body(),
        Verdict::Read { framing, waits } => match (framing, waits) {
            (Framing::None, false) => b"no body",
            (Framing::None, true) => b"no body, waits",
            (Framing::Length(_), false) => b"length",
            (Framing::Length(_), true) => b"length, waits",
            (Framing::Chunked, false) => b"chunked",
            (Framing::Chunked, true) => b"chunked, waits",
        },
    }
}

fn expect_told(rt: &impl Abort, alloc: Global, cases: &[(&str, &str)]) -> Result<(), Fail> {
    for (text, want) in cases {
        let verdict = judge(alloc, &head_of(alloc, text.as_bytes())?)?;
        assert_eq!(rt; told(&verdict), want.as_bytes(), "of {text:?}");
    }
    Ok(())
}

#[test]
fn heads_out_of_form(rt: HostRuntime) -> Result<(), Fail> {
    expect_told(
        &rt,
        rt.alloc(),
        &[
            ("GET /v1/a/c/o HTTP/1.1\r\n\r\n", "BadHost\n"),
            ("GET /v1/a/c/o HTTP/1.1\r\nHost: h\r\n\r\n", "no body"),
            (
                "GET /v1/a/c/o HTTP/1.1\r\nHost: h\r\nHOST: h\r\n\r\n",
                "BadHost\n",
            ),
            ("GET /v1/a/c/o HTTP/1.0\r\n\r\n", "no body"),
            ("PATCH / HTTP/1.1\r\nContent-Length: x\r\n\r\n", "BadHost\n"),
            (
                "PATCH / HTTP/1.0\r\nContent-Length: x\r\n\r\n",
                "BadFraming\n",
            ),
            ("PATCH / HTTP/1.0\r\nContent-Length: 0\r\n\r\n", "Method\n"),
            ("put / HTTP/1.0\r\nContent-Length: 0\r\n\r\n", "Method\n"),
            (
                "PUT /% HTTP/1.0\r\nContent-Length: 0\r\n\r\n",
                "BadEscape\n",
            ),
            (
                "PUT /v1/a/c/o HTTP/1.0\r\nContent-Length: 0\r\n\r\n",
                "length",
            ),
        ],
    )
}

#[test]
fn framings(rt: HostRuntime) -> Result<(), Fail> {
    expect_told(
        &rt,
        rt.alloc(),
        &[
            (
                "GET /v1/a/c/o HTTP/1.0\r\nContent-Length: 1\r\nContent-Length: 1\r\n\r\n",
                "BadFraming\n",
            ),
            (
                "GET /v1/a/c/o HTTP/1.0\r\nContent-Length: +1\r\n\r\n",
                "BadFraming\n",
            ),
            (
                "GET /v1/a/c/o HTTP/1.0\r\nContent-Length:\r\n\r\n",
                "BadFraming\n",
            ),
            (
                "GET /v1/a/c/o HTTP/1.0\r\ncontent-length: 000000000000000001\r\n\r\n",
                "length",
            ),
            (
                "GET /v1/a/c/o HTTP/1.0\r\nContent-Length: 0000000000000000001\r\n\r\n",
                "BadFraming\n",
            ),
            (
                "GET /v1/a/c/o HTTP/1.0\r\nTransfer-Encoding: chunked\r\n\r\n",
                "BadFraming\n",
            ),
            (
                "PUT /v1/a/c/o HTTP/1.1\r\nHost: h\r\nTransfer-Encoding: CHUNKED\r\n\r\n",
                "chunked",
            ),
            (
                "GET /v1/a/c/o HTTP/1.1\r\nHost: h\r\nTransfer-Encoding: gzip, chunked\r\n\r\n",
                "BadFraming\n",
            ),
            (
                "GET /v1/a/c/o HTTP/1.1\r\nHost: h\r\nTransfer-Encoding: chunked\r\nContent-Length: 1\r\n\r\n",
                "BadFraming\n",
            ),
            (
                "PUT /v1/a/c/o HTTP/1.0\r\nX-Object-Meta-: v\r\n\r\n",
                "LengthRequired\n",
            ),
            (
                "PUT /v1/a/c/o HTTP/1.0\r\nX-Object-Meta-: v\r\nContent-Length: 16777217\r\n\r\n",
                "TooLarge\n",
            ),
            (
                "PUT /v1/a/c/o HTTP/1.0\r\nX-Object-Meta-: v\r\nContent-Length: 16777216\r\n\r\n",
                "BadMeta\n",
            ),
            (
                "GET /v1/a/c/o HTTP/1.0\r\nX-Object-Meta-: v\r\nContent-Length: 16777216\r\n\r\n",
                "length",
            ),
            (
                "PUT /v1/a/c/o HTTP/1.0\r\nX-Object-Meta-N: v\r\nContent-Length: 16777216\r\n\r\n",
                "length",
            ),
        ],
    )
}

#[test]
fn clients_that_wait(rt: HostRuntime) -> Result<(), Fail> {
    expect_told(
        &rt,
        rt.alloc(),
        &[
            (
                "PUT /v1/a/c/o HTTP/1.1\r\nHost: h\r\nExpect: 100-Continue\r\nContent-Length: 1\r\n\r\n",
                "length, waits",
            ),
            (
                "PUT /v1/a/c/o HTTP/1.1\r\nHost: h\r\nExpect: 100-continue\r\nContent-Length: 0\r\n\r\n",
                "length",
            ),
            (
                "GET /v1/a/c/o HTTP/1.1\r\nHost: h\r\nExpect: 100-continue\r\n\r\n",
                "no body",
            ),
            (
                "GET /v1/a/c/o HTTP/1.1\r\nHost: h\r\nExpect: 100-continue\r\nTransfer-Encoding: chunked\r\n\r\n",
                "chunked, waits",
            ),
            (
                "PUT /v1/a/c/o HTTP/1.0\r\nExpect: 100-continue\r\nContent-Length: 1\r\n\r\n",
                "length",
            ),
        ],
    )
}

#[test]
fn targets(rt: HostRuntime) -> Result<(), Fail> {
    let alloc = rt.alloc();
    let cases = [
        ("/v1/a/c/o%", "BadEscape\n"),
        ("/v1/a/c/%4g", "BadEscape\n"),
        ("/v1/a/c/%4a", "no body"),
        ("/v1/a/c/o?%", "no body"),
        ("/", "NoObjectPath\n"),
        ("/v2/a/c/o", "NoObjectPath\n"),
        ("/v1//c/o", "NoObjectPath\n"),
        ("/v1/a//o", "NoObjectPath\n"),
        ("/v1/a/c/", "NoObjectPath\n"),
        ("/v1/a/c/?o", "NoObjectPath\n"),
        ("/v1/a/c//", "no body"),
        ("http:///v1/a/c/o", "NoObjectPath\n"),
        ("HTTP://h/v1/a/c/o", "no body"),
        ("/v1/%00/c/%ff", "NotUtf8\n"),
        ("/v1/%00/c/o", "Nul\n"),
    ];
    for (target, want) in cases {
        let verdict = judge(alloc, &head_at(alloc, "GET", target.as_bytes())?)?;
        assert_eq!(rt; told(&verdict), want.as_bytes(), "of {target:?}");
    }
    Ok(())
}

#[test]
fn long_names(rt: HostRuntime) -> Result<(), Fail> {
    let alloc = rt.alloc();
    let cases = [
        ("/v1/", 256, "/c/o", "no body"),
        ("/v1/", 257, "/c/o", "NameTooLong\n"),
        ("/v1/", 257, "/c/%ff", "NotUtf8\n"),
        ("/v1/a/c/", 1024, "", "no body"),
        ("/v1/a/c/", 1025, "", "NameTooLong\n"),
    ];
    for (before, count, after, want) in cases {
        let mut target = before.as_bytes().to_vec(alloc)?;
        target.extend_from_slice(&vec![in alloc; b'a'; count]?)?;
        target.extend_from_slice(after.as_bytes())?;
        let verdict = judge(alloc, &head_at(alloc, "GET", &target)?)?;
        assert_eq!(rt; told(&verdict), want.as_bytes(), "with {count} bytes");
    }
    Ok(())
}

#[test]
fn tags(rt: HostRuntime) -> Result<(), Fail> {
    let alloc = rt.alloc();
    // The MD5 of `abc` by RFC 1321, appendix A.5.
    let cases = [
        ("PUT / HTTP/1.1\r\n\r\n", false),
        (
            "PUT / HTTP/1.1\r\nETag: 900150983cd24fb0d6963f7d28e17f72\r\n\r\n",
            false,
        ),
        (
            "PUT / HTTP/1.1\r\nETag: \"900150983CD24FB0D6963F7D28E17F72\"\r\n\r\n",
            false,
        ),
        (
            "PUT / HTTP/1.1\r\nETag: 900150983cd24fb0d6963f7d28e17f73\r\n\r\n",
            true,
        ),
        (
            "GET / HTTP/1.1\r\nETag: 900150983cd24fb0d6963f7d28e17f73\r\n\r\n",
            false,
        ),
        (
            "PUT / HTTP/1.1\r\nETag: 900150983cd24fb0d6963f7d28e17f7\r\n\r\n",
            true,
        ),
        (
            "PUT / HTTP/1.1\r\nETag: 900150983cd24fb0d6963f7d28e17f720\r\n\r\n",
            true,
        ),
        ("PUT / HTTP/1.1\r\nETag:\r\n\r\n", true),
        (
            "PUT / HTTP/1.1\r\nETag: x\r\nEtag: 900150983cd24fb0d6963f7d28e17f72\r\n\r\n",
            false,
        ),
        (
            "PUT / HTTP/1.1\r\nETag: 900150983cd24fb0d6963f7d28e17f72\r\nEtag: x\r\n\r\n",
            true,
        ),
    ];
    for (text, want) in cases {
        let request = request_of(alloc, text, b"abc")?;
        assert_eq!(rt; request.has_other_tag(), want, "of {text:?}");
    }
    Ok(())
}

#[test]
fn connections_that_end(rt: HostRuntime) -> Result<(), Fail> {
    let alloc = rt.alloc();
    let cases = [
        ("GET / HTTP/1.0\r\n\r\n", true),
        ("GET / HTTP/1.1\r\n\r\n", false),
        (
            "GET / HTTP/1.1\r\nConnection: keep-alive, Close\r\n\r\n",
            true,
        ),
        ("GET / HTTP/1.1\r\nConnection: \tclose\t ,x\r\n\r\n", true),
        (
            "GET / HTTP/1.1\r\nConnection: closed, c lose, clos\r\n\r\n",
            false,
        ),
        (
            "GET / HTTP/1.1\r\nConnection: a\r\nconnection: ,CLOSE\r\n\r\n",
            true,
        ),
    ];
    for (text, want) in cases {
        let request = request_of(alloc, text, b"")?;
        assert_eq!(rt; request.asks_to_close(), want, "of {text:?}");
    }
    Ok(())
}

fn expect_written(rt: &impl Abort, alloc: Global, answer: &Answer, want: &str) -> Result<(), Fail> {
    let mut conn = MemConn::new(alloc, Vec::new(alloc));
    if write_response(alloc, &mut conn, answer).is_err() {
        return Err("not written".into());
    }
    assert_eq!(rt; conn.written(), want.as_bytes());
    Ok(())
}

#[test]
fn answers(rt: HostRuntime) -> Result<(), Fail> {
    let alloc = rt.alloc();
    let cases = [
        (
            "PATCH",
            "HTTP/1.1 405 Method Not Allowed\r\nContent-Length: 7\r\nContent-Type: text/plain\r\nAllow: DELETE, GET, HEAD, PUT\r\nConnection: close\r\n\r\nMethod\n",
        ),
        (
            "HEAD",
            "HTTP/1.1 404 Not Found\r\nContent-Length: 13\r\nContent-Type: text/plain\r\nConnection: close\r\n\r\n",
        ),
    ];
    for (method, want) in cases {
        match judge(alloc, &head_at(alloc, method, b"/")?)? {
            Verdict::Refuse(answer) => expect_written(&rt, alloc, &answer, want)?,
            Verdict::Read {
                framing: _,
                waits: _,
            } => return Err("no defect".into()),
        }
    }
    let answer = refused(alloc, false, BadInput::HeadTooLarge)?;
    expect_written(
        &rt,
        alloc,
        &answer,
        "HTTP/1.1 431 Request Header Fields Too Large\r\nContent-Length: 13\r\nContent-Type: text/plain\r\nConnection: close\r\n\r\nHeadTooLarge\n",
    )?;
    let answer = refusal_answer(alloc, false, false, Refusal::ETagDiffers)?;
    expect_written(
        &rt,
        alloc,
        &answer,
        "HTTP/1.1 422 Unprocessable Entity\r\nContent-Length: 12\r\nContent-Type: text/plain\r\n\r\nETagDiffers\n",
    )
}
