//! Lines, and what they tell.

use super::LineFault::{BadHex, BadName, BadNumber, Form, TooLong};
use super::*;
use std::test::Fail;

#[test]
fn reads_the_forms(rt: HostRuntime) -> Result<(), Fail> {
    let cases: [(&[u8], &str); 19] = [
        (b"", "Ok(None)"),
        (b"#", "Ok(None)"),
        (b"# get a", "Ok(None)"),
        (b"all", "Ok(Some(All))"),
        (b"msg 0", "Ok(Some(Deliver(0)))"),
        (b"msg 10", "Ok(Some(Deliver(10)))"),
        (
            b"msg 18446744073709551615",
            "Ok(Some(Deliver(18446744073709551615)))",
        ),
        (
            b"crash 5 2 1",
            "Ok(Some(Crash { message: 5, calls: 2, pick: 1 }))",
        ),
        (b"stop 1", "Ok(Some(Stop(1)))"),
        (b"restart 10", "Ok(Some(Restart(10)))"),
        (b"lose 3", "Ok(Some(Lose(3)))"),
        (b"giveup 4", "Ok(Some(GiveUp(4)))"),
        (
            b"clock 1000000000.00001",
            "Ok(Some(SetClock(Stamp { units: 100000000000001 })))",
        ),
        (
            b"show 2 a/c/o",
            "Ok(Some(Show { device: 2, name: Name { account: \"a\", container: \"c\", object: \"o\" } }))",
        ),
        (
            b"get a/c/o",
            "Ok(Some(Run(Get(Name { account: \"a\", container: \"c\", object: \"o\" }))))",
        ),
        (
            b"head a/c/o",
            "Ok(Some(Run(Head(Name { account: \"a\", container: \"c\", object: \"o\" }))))",
        ),
        (
            b"del a/c/o",
            "Ok(Some(Run(Delete(Name { account: \"a\", container: \"c\", object: \"o\" }))))",
        ),
        (
            b"recon 2 a/c/o",
            "Ok(Some(Run(Recon { device: 2, name: Name { account: \"a\", container: \"c\", object: \"o\" } })))",
        ),
        (
            b"start get a/c/o",
            "Ok(Some(Start(Get(Name { account: \"a\", container: \"c\", object: \"o\" }))))",
        ),
    ];
    for (line, want) in cases {
        let told = Event::read(rt.alloc(), line);
        let text = format!(in rt.alloc(); "{told:?}")?;
        assert_eq!(rt; text.as_str(), want, "at {line:?}");
    }
    Ok(())
}

#[test]
fn decodes_names(rt: HostRuntime) -> Result<(), Fail> {
    let cases: [(&[u8], &str); 6] = [
        (b"get a%2Fc%2Fo", "o"),
        (b"get a/c/%25%32%35%20%c3%A4", "%25 ä"),
        (b"get a/c/o?x", "o?x"),
        (b"get a/c//", "/"),
        (b"get a/c/o\t", "o\\t"),
        (b"get a/c/\xc3\xa4", "ä"),
    ];
    for (line, object) in cases {
        let told = Event::read(rt.alloc(), line);
        let text = format!(in rt.alloc(); "{told:?}")?;
        let want = format!(in rt.alloc();
            "Ok(Some(Run(Get(Name {{ account: \"a\", container: \"c\", object: \"{object}\" }}))))"
        )?;
        assert_eq!(rt; text.as_str(), want.as_str(), "at {line:?}");
    }
    Ok(())
}

#[test]
fn reads_bodies(rt: HostRuntime) {
    let cases: [(&[u8], &[u8]); 3] = [
        (b"put a/c/o 6A6b", b"jk"),
        (b"put a/c/o -", b""),
        (b"put a/c/o 00", b"\x00"),
    ];
    for (line, body) in cases {
        let told = Event::read(rt.alloc(), line);
        let Ok(Some(Event::Run(Job::Put { name: _, object }))) = &told else {
            panic!(rt; "at {line:?}");
        };
        assert_eq!(rt; object.body().as_slice(), body, "at {line:?}");
        assert_eq!(rt;
            object.head().content_type(),
            b"application/octet-stream".as_slice()
        );
    }
}

#[test]
fn refuses_faulty_lines(rt: HostRuntime) {
    let cases: [(&[u8], LineFault); 48] = [
        (b"fly", Form),
        (b" ", Form),
        (b" #", Form),
        (b"get", Form),
        (b"get  a/c/o", Form),
        (b"get a/c/o ", Form),
        (b"GET a/c/o", Form),
        (b"gets a/c/o", Form),
        (b"put a/c/o", Form),
        (b"put a/c/o 61 ", Form),
        (b"all all", Form),
        (b"msg", Form),
        (b"crash 5 2", Form),
        (b"clock 1000000000.0000", Form),
        (b"clock ", Form),
        (b"start", Form),
        (b"start ", Form),
        (b"start all", Form),
        (b"start msg 1", Form),
        (b"start start get a/c/o", Form),
        (b"start show 1 a/c/o", Form),
        (b"msg x", BadNumber),
        (b"msg ", BadNumber),
        (b"msg 01", BadNumber),
        (b"msg +1", BadNumber),
        (b"msg 18446744073709551616", BadNumber),
        (b"crash x 2 1", BadNumber),
        (b"crash 5 x 1", BadNumber),
        (b"crash 5 2 x", BadNumber),
        (b"recon x a", BadNumber),
        (b"show x a", BadNumber),
        (b"put a/c/o 6g", BadHex),
        (b"put a/c/o 6", BadHex),
        (b"put a/c/o ", BadHex),
        (b"get a", BadName),
        (b"get a/c", BadName),
        (b"get a//o", BadName),
        (b"get a/c/", BadName),
        (b"get ", BadName),
        (b"get a/c/%zz", BadName),
        (b"get a/c/%6", BadName),
        (b"get a/c/%", BadName),
        (b"get a/c/%%36", BadName),
        (b"get a/c/%00", BadName),
        (b"get a/c/%ff", BadName),
        (b"put a 6g", BadName),
        (b"recon 2 a", BadName),
        (b"show 2 a", BadName),
    ];
    for (line, fault) in cases {
        assert_eq!(rt;
            Event::read(rt.alloc(), line).err(),
            Some(fault),
            "at {line:?}"
        );
    }
}

#[test]
fn counts_the_bytes_of_a_line_first(rt: HostRuntime) -> Result<(), Fail> {
    let cases = [
        (b'#', 65_536, None),
        (b'#', 65_537, Some(TooLong)),
        (b'f', 65_536, Some(Form)),
        (b'f', 65_537, Some(TooLong)),
    ];
    for (byte, count, fault) in cases {
        let line = vec![in rt.alloc(); byte; count]?;
        assert_eq!(rt; Event::read(rt.alloc(), &line).err(), fault, "at {count}");
    }
    Ok(())
}
