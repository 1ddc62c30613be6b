//! Doors in memory and over TCP, and the host's clock.

ghost use Rattle.std.specs.Prelude.{◌≡◌, true, All, IfOk, IfSome};
ghost use Rattle.sw_io.specs.Memory.{IsUnused};

use super::*;
use std::alloc::Global;
use std::io::{Read, Write};
use std::net::{Ipv4Addr, Net, TcpListener, TcpStream};
use std::test::Fail;
use sw_types::{NoMemory, Stamp};

// Connections whose peers send these texts.
fn conns_of(alloc: Global, texts: &[&str]) -> Result<Vec<MemConn>, NoMemory>
    ensures { IfOk result (λ conns. All IsUnused conns.items) }
{
    let mut conns = Vec::new(alloc);
    for text in texts {
        let bytes = text.as_bytes().to_vec(alloc)?;
        conns.push(MemConn::new(alloc, bytes))?;
    }
    Ok(conns)
}

// Gives a connection back, and serves the next one: what comes first is written back, and the connection is closed.
fn serve_next<A: Doors>(doors: &mut A, done: Option<A::Conn>) -> Result<Option<A::Conn>, Fail>
    requires { A.is_open doors.old ≡ true }
    ensures { A.is_open doors.new ≡ true }
{
    let Some(mut conn) = doors.accept(done)? else {
        return Ok(None);
    };
    let mut room = [0; 8];
    let count = conn.read(&mut room)?;
    if count > 0 {
        conn.write(&room[..count])?;
    }
    conn.close();
    Ok(Some(conn))
}

#[test]
fn doors_in_memory_hand_out_and_take_back(rt: HostRuntime) -> Result<(), Fail> {
    let alloc = rt.alloc();
    let mut doors = MemDoors::new(alloc, conns_of(alloc, &["one", "two"])?)?;
    doors.open(8080)?;
    let first = serve_next(&mut doors, None)?;
    assert_eq!(rt; doors.back().len(), 0);
    let second = serve_next(&mut doors, first)?;
    assert_eq!(rt; doors.back().len(), 1);
    let third = serve_next(&mut doors, second)?;
    assert_eq!(rt; third.is_none(), true);
    assert_eq!(rt; doors.handed(), 2);
    assert_eq!(rt; doors.back().len(), 2);
    for (conn, want) in doors.back().iter().zip(["one", "two"]) {
        assert_eq!(rt; conn.written(), want.as_bytes());
        assert_eq!(rt; conn.is_closed(), true);
    }
    Ok(())
}

#[test]
fn doors_in_memory_fail_by_their_fuse(rt: HostRuntime) -> Result<(), Fail> {
    let alloc = rt.alloc();
    let mut doors = MemDoors::new(alloc, conns_of(alloc, &["one"])?)?;
    doors.fuse(1);
    doors.open(8080)?;
    assert_eq!(rt; doors.accept(None).err(), Some(DoorFailed));
    assert_eq!(rt; doors.handed(), 0);

    let mut doors = MemDoors::new(alloc, Vec::new(alloc))?;
    doors.fuse(0);
    assert_eq!(rt; doors.open(8080), Err(DoorFailed));
    Ok(())
}

// Doors that are open at the first port that nobody else has, and the port.
fn open_doors<R>(net: R) -> Option<(TcpDoors<R>, u16)>
where
    R: Net<Listener = TcpListener, Stream = TcpStream> + Copy,
    ensures { IfSome result (λ found. ⟦<TcpDoors<R> as Doors>⟧.is_open found.0 ≡ true) }
{
    for port in 47_321..48_321u16 {
        let mut doors = TcpDoors::new(net);
        if doors.open(port).is_ok() {
            return Some((doors, port));
        }
    }
    None
}

#[test]
fn bytes_go_through_a_socket(rt: HostRuntime) -> Result<(), Fail> {
    let (mut doors, port) = open_doors(rt).ok_or("no port")?;
    let mut peer = TcpStream::connect(&rt, (Ipv4Addr::LOCALHOST, port))?;
    peer.write_all(b"hello")?;
    let done = serve_next(&mut doors, None)?;

    // The peer finds the end, though the connection isn't given back yet.
    let mut answer = Vec::new(rt.alloc());
    peer.read_to_end(&mut answer)?;
    assert_eq!(rt; answer.as_slice(), b"hello".as_slice());

    let mut peer = TcpStream::connect(&rt, (Ipv4Addr::LOCALHOST, port))?;
    peer.write_all(b"again")?;
    assert_eq!(rt; serve_next(&mut doors, done)?.is_some(), true);
    answer.clear();
    peer.read_to_end(&mut answer)?;
    assert_eq!(rt; answer.as_slice(), b"again".as_slice());
    Ok(())
}

#[test]
fn a_read_after_the_peers_end_gives_none(rt: HostRuntime) -> Result<(), Fail> {
    let (mut doors, port) = open_doors(rt).ok_or("no port")?;
    drop(TcpStream::connect(&rt, (Ipv4Addr::LOCALHOST, port))?);
    let mut conn = doors.accept(None)?.ok_or("no connection")?;
    let mut room = [0; 8];
    assert_eq!(rt; conn.read(&mut room), Ok(0));
    Ok(())
}

#[test]
fn the_clock_of_the_host_goes(rt: HostRuntime) -> Result<(), Fail> {
    // The beginning of the year 2020.
    let early = Stamp::make(157_783_680_000_000).ok_or("no stamp")?;
    let now = HostClock::new(rt).now();
    assert_eq!(rt; early < now, true);
    assert_eq!(rt; now.units() < Stamp::GREATEST_UNITS, true);
    Ok(())
}
