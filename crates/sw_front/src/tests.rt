//! Operations over a link of no cluster, and requests that are answered over it.

ghost use Rattle.std.specs.Prelude.{IfOk};
ghost use Rattle.sw_request.specs.Body.{IsSound};

use crate::{FrontFault, answer, delete, get, put};
use std::alloc::Global;
use std::test::Fail;
use sw_delete::DeleteEnd;
use sw_get::GetEnd;
use sw_hashdir::{Floor, FloorKind, Listing};
use sw_httpread::{Carry, HeadNext, next_head};
use sw_io::MemConn;
use sw_message::{Draw, DrawFault, Link, Msg, Reply};
use sw_put::PutEnd;
use sw_request::{Request, Verdict, judge};
use sw_ring::{Cluster, built_in};
use sw_types::{Bytes, Head, Name, Object, Stamp};

// Does what it is asked, but what a floor forbids, and has nothing. It tells nothing.
#[derive(Drop)]
struct Obliging {
    alloc: Global,
    next: u64,
    refused: u64,
    floor: Option<Floor>,
}

impl Link for Obliging {
    ghost use Rattle.std.specs.Prelude.{None, ⊤};

    ghost cluster = { λ link. None };

    ghost learnt = { λ link. None };

    ghost may_be_silent = { λ link. ⊥ };

    ghost calls = { λ before device msg answer after. ⊤ };

    ghost losses = { λ link. 0 };

    ghost sound = { λ link. tt };

    fn call(&mut self, _device: u16, msg: &Msg) -> Option<Reply> {
        if let (Some(floor), Msg::PutFrag { .. } | Msg::Delete { .. }) = (self.floor, msg) {
            return Some(Reply::Superseded(floor));
        }
        Some(match msg {
            Msg::PutFrag { .. } => Reply::Synced,
            Msg::Commit { .. } => Reply::Committed,
            Msg::Delete { .. } => Reply::Deleted { existed: false },
            Msg::Ask { .. } => {
                Reply::Held(Listing::new(Vec::new(self.alloc), Vec::new(self.alloc)))
            }
            _ => Reply::Missing,
        })
    }
}

impl Draw for Obliging {
    ghost use Rattle.std.specs.Prelude.{⊤};

    ghost draws = { λ before name object result after. ⊤ };

    ghost refusals = { λ link. link.refused };

    fn draw(&mut self, _name: &Name, _object: Option<&Object>) -> Result<Stamp, DrawFault> {
        let Some(stamp) = Stamp::make(self.next) else {
            self.refused = self.refused.saturating_add(1);
            return Err(DrawFault::StampsSpent);
        };
        self.next += 1;
        Ok(stamp)
    }
}

fn link_from(alloc: Global, next: u64, floor: Option<Floor>) -> Obliging {
    Obliging {
        alloc,
        next,
        refused: 0,
        floor,
    }
}

fn a_c_o(alloc: Global) -> Result<Name, Fail> {
    Ok(Name::make(alloc, b"a", b"c", b"o")?)
}

fn abc(alloc: Global) -> Result<Object, Fail> {
    let head = Head::make(alloc, b"text/plain", &[])?;
    let body = Bytes::from_slice(alloc, b"abc")?;
    Ok(Object::make(head, body).ok().ok_or("too long")?)
}

#[test]
fn runs_operations_to_their_ends(rt: HostRuntime) -> Result<(), Fail> {
    let alloc = rt.alloc();
    let cluster = Cluster::read(alloc, built_in())?;
    let (name, object) = (a_c_o(alloc)?, abc(alloc)?);
    let mut link = link_from(alloc, 7, None);
    let created = put(alloc, &cluster, &mut link, &name, &object)?;
    assert!(rt; matches!(&created, PutEnd::Created { commits: 3, .. }));
    let found = get(alloc, &cluster, &mut link, &name)?;
    assert!(rt; matches!(&found, GetEnd::Absent));
    let deleted = delete(alloc, &cluster, &mut link, &name)?;
    assert!(rt;
        matches!(
            &deleted,
            DeleteEnd::Deleted {
                marks: 3,
                existed: false,
                ..
            }
        )
    );
    Ok(())
}

#[test]
fn draws_no_stamp_after_the_last(rt: HostRuntime) -> Result<(), Fail> {
    let alloc = rt.alloc();
    let cluster = Cluster::read(alloc, built_in())?;
    let (name, object) = (a_c_o(alloc)?, abc(alloc)?);
    let mut link = link_from(alloc, 1_000_000_000_000_000, None);
    let put = put(alloc, &cluster, &mut link, &name, &object);
    assert_eq!(rt; put.err(), Some(FrontFault::StampsSpent));
    let deleted = delete(alloc, &cluster, &mut link, &name);
    assert_eq!(rt; deleted.err(), Some(FrontFault::StampsSpent));
    Ok(())
}

// The request of a head without a defect and a body.
fn request_of(alloc: Global, head: &str, body: &[u8]) -> Result<Request, Fail>
    ensures { IfOk result IsSound }
{
    let mut conn = MemConn::new(alloc, head.as_bytes().to_vec(alloc)?);
    let HeadNext::Head(head) = next_head(alloc, &mut conn, &mut Carry::new(alloc)) else {
        return Err("no head".into());
    };
    let Verdict::Read { .. } = judge(alloc, &head)? else {
        return Err("refused".into());
    };
    if body.len() > 1024 {
        return Err("too long".into());
    }
    Ok(Request::new(head, Bytes::from_slice(alloc, body)?))
}

fn tombstone() -> Result<Floor, Fail> {
    Ok(Floor {
        stamp: Stamp::make(100_000_000_000_000).ok_or("stamp")?,
        kind: FloorKind::Tombstone,
    })
}

#[test]
fn answers_requests(rt: HostRuntime) -> Result<(), Fail> {
    let alloc = rt.alloc();
    let cluster = Cluster::read(alloc, built_in())?;
    let floor = Some(tombstone()?);
    let put =
        "PUT /v1/a/c/o HTTP/1.1\r\nHost: h\r\nContent-Length: 3\r\nETag: \"900150983CD24FB0D6963F7D28E17F72\"\r\n\r\n";
    let other_tag =
        "PUT /v1/a/c/o HTTP/1.1\r\nHost: h\r\nContent-Length: 3\r\nETag: d41d8cd98f00b204e9800998ecf8427e\r\n\r\n";
    let get = "GET /v1/a/c/o HTTP/1.0\r\n\r\n";
    let delete = "DELETE /v1/a/c/o HTTP/1.1\r\nHost: h\r\n\r\n";
    let cases: [(&str, Option<Floor>, u64, u16, &str, bool); 7] = [
        (put, None, 7, 201, "", false),
        (put, floor, 7, 202, "Superseded 1000000000.00000\n", false),
        (
            &put,
            None,
            1_000_000_000_000_000,
            503,
            "StampsSpent\n",
            false,
        ),
        (other_tag, floor, 7, 422, "ETagDiffers\n", false),
        (get, None, 7, 404, "Absent\n", true),
        (delete, None, 7, 404, "Missing\n", false),
        (
            delete,
            floor,
            7,
            409,
            "Superseded 1000000000.00000\n",
            false,
        ),
    ];
    for (head, floor, next, status, body, close) in cases {
        let mut link = link_from(alloc, next, floor);
        let request = request_of(alloc, head, b"abc")?;
        let answer = answer(alloc, &cluster, &mut link, &request)?;
        assert_eq!(rt; answer.status(), status, "of {head:?}");
        assert_eq!(rt; answer.body(), body.as_bytes(), "of {head:?}");
        assert_eq!(rt; answer.close(), close, "of {head:?}");
    }
    Ok(())
}
