//! Responses, byte by byte.

ghost use Rattle.std.specs.Prelude.{◌≡◌, ◌==◌, ◌||◌, IfOk, IfSome, IsTrue};
ghost use Rattle.std.specs.List.{list_any};
ghost use Rattle.sw_httpwrite.specs.Answer.{AreInLines, HasPhrase, IsInLine};

use super::*;
use http::StatusCode;
use std::alloc::Global;
use std::process::Abort;
use std::test::Fail;
use sw_io::{Conn, MemConn, WriteFailed};
use sw_types::{Bytes, NoMemory};

// What a response says, and its bytes.
#[derive(Clone, Copy)]
struct Case {
    status: u16,
    fields: &'static [(&'static str, &'static str)],
    body: &'static str,
    close: bool,
    want: &'static str,
}

const CASES: [Case; 6] = [
    Case {
        status: 204,
        fields: &[],
        body: "",
        close: false,
        want: "HTTP/1.1 204 No Content\r\n\r\n",
    },
    Case {
        status: 201,
        fields: &[("Content-Length", "0"), ("Etag", "\"d41d8cd9\"")],
        body: "",
        close: false,
        want: "HTTP/1.1 201 Created\r\nContent-Length: 0\r\nEtag: \"d41d8cd9\"\r\n\r\n",
    },
    Case {
        status: 200,
        fields: &[("Content-Length", "7")],
        body: "a\r\n\r\nb\n",
        close: false,
        want: "HTTP/1.1 200 OK\r\nContent-Length: 7\r\n\r\na\r\n\r\nb\n",
    },
    Case {
        status: 404,
        fields: &[("Content-Length", "10"), ("X-Empty", "")],
        body: "not found\n",
        close: false,
        want: "HTTP/1.1 404 Not Found\r\nContent-Length: 10\r\nX-Empty: \r\n\r\nnot found\n",
    },
    Case {
        status: 503,
        fields: &[("Content-Length", "4")],
        body: "busy",
        close: true,
        want: "HTTP/1.1 503 Service Unavailable\r\nContent-Length: 4\r\nConnection: close\r\n\r\nbusy",
    },
    Case {
        status: 204,
        fields: &[],
        body: "",
        close: true,
        want: "HTTP/1.1 204 No Content\r\nConnection: close\r\n\r\n",
    },
];

fn has_phrase(status: u16) -> bool
    ensures { IsTrue result → HasPhrase status }
{
    match StatusCode::from_u16(status) {
        Ok(code) => code.canonical_reason().is_some(),
        Err(_) => false,
    }
}

fn has_line_end(text: &[u8]) -> bool
    ensures { result ≡ list_any (λ byte. byte == 13 || byte == 10) text.now }
{
    text.iter().any(|byte| *byte == 13 || *byte == 10)
}

// The field of this name and value, each of which has to be in one line.
fn field_of(alloc: Global, name: &[u8], value: &[u8]) -> Result<(Bytes, Bytes), NoMemory>
    requires name { IsInLine name.now }
    requires value { IsInLine value.now }
    ensures { IfOk result (λ field. IsInLine field.0 × IsInLine field.1) }
{
    let name = Bytes::from_slice(alloc, name)?;
    let value = Bytes::from_slice(alloc, value)?;
    Ok((name, value))
}

// The fields of these names and values, or none where one has a line end.
fn fields_of(alloc: Global, pairs: &[(&str, &str)]) -> Result<Option<Vec<(Bytes, Bytes)>>, NoMemory>
    ensures { IfOk result (λ told. IfSome told (λ fields. AreInLines fields.items)) }
{
    let mut fields = Vec::new(alloc);
    for pair in pairs {
        let (name, value) = (pair.0.as_bytes(), pair.1.as_bytes());
        if has_line_end(name) || has_line_end(value) {
            return Ok(None);
        }
        fields.push(field_of(alloc, name, value)?)?;
    }
    Ok(Some(fields))
}

fn answer_of(alloc: Global, case: &Case) -> Result<Answer, Fail> {
    let fields = fields_of(alloc, case.fields)?.ok_or("a field of two lines")?;
    let body = Bytes::from_slice(alloc, case.body.as_bytes())?;
    if !has_phrase(case.status) {
        return Err("a status with no phrase".into());
    }
    let answer = Answer::new(case.status, fields, body, false);
    Ok(if case.close { answer.closing() } else { answer })
}

#[test]
fn the_bytes_of_responses(rt: HostRuntime) -> Result<(), Fail> {
    let alloc = rt.alloc();
    for case in &CASES {
        let answer = answer_of(alloc, case)?;
        assert_eq!(rt; answer.close(), case.close);
        let mut conn = MemConn::new(alloc, Vec::new(alloc));
        write_response(alloc, &mut conn, &answer)?;
        assert_eq!(rt; conn.written(), case.want.as_bytes(), "at {}", case.status);
    }
    Ok(())
}

#[test]
fn the_bytes_of_the_interim_response(rt: HostRuntime) -> Result<(), Fail> {
    let alloc = rt.alloc();
    let mut conn = MemConn::new(alloc, Vec::new(alloc));
    write_continue(&mut conn)?;
    assert_eq!(rt; conn.written(), b"HTTP/1.1 100 Continue\r\n\r\n".as_slice());
    conn.fuse(0);
    assert_eq!(rt; write_continue(&mut conn), Err(WriteFailed));
    Ok(())
}

// A short body is written with the head; the head is the first write, and a long body is the second.
#[test]
fn a_write_that_fails(rt: HostRuntime) -> Result<(), Fail> {
    let alloc = rt.alloc();
    let head = "HTTP/1.1 200 OK\r\nContent-Length: 7\r\n\r\n";
    let short = answer_of(alloc, &CASES[2])?;
    expect_fault(&rt, alloc, &short, 0, "")?;
    let fields = fields_of(alloc, CASES[2].fields)?.ok_or("a field of two lines")?;
    let long = Answer::new(200, fields, Bytes::from(vec![in alloc; 0; 16_385]?), false);
    expect_fault(&rt, alloc, &long, 0, "")?;
    expect_fault(&rt, alloc, &long, 1, head)
}

// Where so many writes go well, this much is written.
fn expect_fault(
    rt: &impl Abort,
    alloc: Global,
    answer: &Answer,
    writes: u64,
    want: &str,
) -> Result<(), Fail> {
    let mut conn = MemConn::new(alloc, Vec::new(alloc));
    conn.fuse(writes);
    let result = write_response(alloc, &mut conn, answer);
    assert_eq!(rt; result, Err(WriteEnd::WriteFault));
    assert_eq!(rt; conn.written(), want.as_bytes(), "after {writes} writes");
    assert_eq!(rt; conn.faults(), 1);
    Ok(())
}
