//! What comes and what goes, in memory and over std's readers and writers.

ghost use Rattle.std.specs.Prelude.{◌<◌, length};

use super::*;
use std::io;
use std::io::{ErrorKind, Read, Write};
use std::test::Fail;
use sw_types::Stamp;

const TEXT: &[u8] = b"from here to there";

// A reader that is at its end, and a writer that takes everything, but for their first call, which fails: no clause can
// say of a reader or a writer when it does.
#[derive(Drop)]
struct FailsOnce {
    has_failed: bool,
}

impl FailsOnce {
    fn new() -> Self {
        FailsOnce { has_failed: false }
    }

    fn fail_once(&mut self) -> io::Result<()> {
        if self.has_failed {
            return Ok(());
        }
        self.has_failed = true;
        Err(ErrorKind::ConnectionReset.into())
    }
}

impl Read for FailsOnce {
    fn read(&mut self, _room: &mut [u8]) -> io::Result<usize> {
        self.fail_once()?;
        Ok(0)
    }
}

impl Write for FailsOnce {
    fn write(&mut self, piece: &[u8]) -> io::Result<usize> {
        self.fail_once()?;
        Ok(piece.len())
    }

    fn flush(&mut self) -> io::Result<()> {
        Ok(())
    }
}

#[test]
fn reads_up_to_the_limit(rt: HostRuntime) -> Result<(), Fail> {
    let alloc = rt.alloc();
    let cases = [
        (0, ""),
        (4, "from"),
        (18, "from here to there"),
        (19, "from here to there"),
    ];
    for (limit, want) in cases {
        let mut source = MemSource::new(TEXT.to_vec(alloc)?);
        let bytes = read_up_to(alloc, &mut source, limit)?;
        assert_eq!(rt; bytes.as_slice(), want.as_bytes(), "up to {limit}");
    }
    Ok(())
}

#[test]
fn reads_many_pieces(rt: HostRuntime) -> Result<(), Fail> {
    let alloc = rt.alloc();
    for (limit, count) in [(65_537, 65_537), (200_000, 150_000)] {
        let mut source = ReadSource::new(io::repeat(7).take(150_000));
        let bytes = read_up_to(alloc, &mut source, limit)?;
        assert_eq!(rt; bytes.len(), count, "up to {limit}");
    }
    Ok(())
}

#[test]
fn a_fuse_fails_the_read_after_its_calls(rt: HostRuntime) -> Result<(), Fail> {
    let alloc = rt.alloc();
    // The second read finds the end.
    let cases = [
        (0, Some(ReadError::Failed)),
        (1, Some(ReadError::Failed)),
        (2, None),
    ];
    for (calls, error) in cases {
        let mut source = MemSource::new(TEXT.to_vec(alloc)?);
        source.fuse(calls);
        let result = read_up_to(alloc, &mut source, 100);
        assert_eq!(rt; result.err(), error, "after {calls} calls");
    }
    Ok(())
}

#[test]
fn a_sink_in_memory_keeps_what_is_written(rt: HostRuntime) -> Result<(), Fail> {
    let mut sink = MemSink::new(rt.alloc());
    write_all(&mut sink, b"one ")?;
    write_all(&mut sink, b"two")?;
    sink.fuse(0);
    assert_eq!(rt; write_all(&mut sink, b"three"), Err(WriteFailed));
    assert_eq!(rt; sink.bytes(), b"one two".as_slice());
    Ok(())
}

#[test]
fn adapters_pass_on_bytes(rt: HostRuntime) -> Result<(), Fail> {
    let alloc = rt.alloc();
    let mut source = ReadSource::new(TEXT);
    let bytes = read_up_to(alloc, &mut source, 100)?;
    let mut kept = Vec::new(alloc);
    let mut sink = WriteSink::new(&mut kept);
    write_all(&mut sink, &bytes)?;
    assert_eq!(rt; kept.as_slice(), TEXT);
    Ok(())
}

#[test]
fn adapters_pass_on_failures(rt: HostRuntime) -> Result<(), Fail> {
    let mut source = ReadSource::new(TEXT.chain(FailsOnce::new()));
    let result = read_up_to(rt.alloc(), &mut source, 100);
    assert_eq!(rt; result.err(), Some(ReadError::Failed));

    let mut sink = WriteSink::new(FailsOnce::new());
    assert_eq!(rt; write_all(&mut sink, b"hello"), Err(WriteFailed));

    // The writer takes four bytes, and then none.
    let mut room = [0; 4];
    let mut sink = WriteSink::new(room.as_mut_slice());
    assert_eq!(rt; write_all(&mut sink, b"hello"), Err(WriteFailed));
    assert_eq!(rt; room.as_slice(), b"hell".as_slice());
    Ok(())
}

// Whether the connection gives this next. Nothing is promised of the calls of a connection here, which keeps the proofs short.
fn gives(conn: &mut MemConn, want: &str) -> Result<bool, Fail> {
    let mut room = [0; 4];
    let count = conn.read(&mut room)?;
    Ok(&room[..count] == want.as_bytes())
}

fn takes(conn: &mut MemConn, bytes: &[u8]) -> Result<usize, Fail>
    requires { 0 < length bytes.now }
{
    Ok(conn.write(bytes)?)
}

fn fails(conn: &mut MemConn) -> bool {
    let mut room = [0; 4];
    conn.read(&mut room).err() == Some(ReadFailed) && conn.write(b"!").err() == Some(WriteFailed)
}

fn has_kept(conn: &mut MemConn, bytes: &[u8]) -> bool {
    conn.close();
    conn.is_closed() && conn.written() == bytes
}

#[test]
fn a_connection_in_memory_gives_and_keeps(rt: HostRuntime) -> Result<(), Fail> {
    let alloc = rt.alloc();
    let mut conn = MemConn::new(alloc, b"hello".to_vec(alloc)?);
    conn.give_at_most(2);
    for want in ["he", "ll", "o", ""] {
        assert!(rt; gives(&mut conn, want)?);
        assert_eq!(rt; takes(&mut conn, b"ok")?, 2);
    }
    conn.fuse(1);
    assert_eq!(rt; takes(&mut conn, b"!")?, 1);
    assert!(rt; fails(&mut conn));
    assert!(rt; has_kept(&mut conn, b"okokokok!"));
    Ok(())
}

#[test]
fn a_clock_in_memory_stands(rt: HostRuntime) -> Result<(), Fail> {
    let clock = MemClock::new(Stamp::make(100_000_000_000_000).unwrap());
    assert_eq!(rt;
        clock.now().print().as_slice(),
        b"1000000000.00000".as_slice()
    );
    Ok(())
}
