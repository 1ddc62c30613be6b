//! Doors over TCP.

ghost use Rattle.std.specs.Prelude.{◌≡◌, None, [], true, false, is_some, option_to_list, IfOk, IfSome, IsSome};
ghost use Rattle.sw_words.specs.Counts.{CountsFailure, FailsByCount};
ghost use Rattle.sw_io.specs.Doors.{HandsOut, TakesBack, handed_after};

use crate::{Conn, DoorFailed, Doors, TcpConn};
use std::io;
use std::io::ErrorKind;
use std::net::{Ipv4Addr, Net, TcpListener, TcpStream};

// How many connections in a row may be given up before `accept` fails.
const MOST_GIVEN_UP: u32 = 1_000;

/// Doors at a port of 127.0.0.1. They tell neither which connections are yet to come nor which were taken back, and they
/// never answer `None`. A connection that is taken back is dropped, which closes it.
#[derive(Drop)]
pub struct TcpDoors<R> {
    net: R,
    port: Option<u16>,
    listener: Option<TcpListener>,
    handed: u64,
    faults: u64,
}

impl<R: Net<Listener = TcpListener, Stream = TcpStream>> TcpDoors<R> {
    /// Doors that are yet to be opened.
    pub fn new(net: R) -> Self
        ensures no_port { ⟦<TcpDoors<R> as Doors>⟧.ports result ≡ [] }
        ensures not_open { ⟦<TcpDoors<R> as Doors>⟧.is_open result ≡ false }
        ensures none_handed { ⟦<TcpDoors<R> as Doors>⟧.handed result ≡ 0 }
        ensures no_fault { ⟦<TcpDoors<R> as Doors>⟧.faults result ≡ 0 }
    {
        TcpDoors {
            net,
            port: None,
            listener: None,
            handed: 0,
            faults: 0,
        }
    }
}

impl<R: Net<Listener = TcpListener, Stream = TcpStream>> Doors for TcpDoors<R> {
    type Conn = TcpConn;

    ghost ports = { λ d. option_to_list d.port };

    ghost is_open = { λ d. is_some d.listener };

    ghost handed = { λ d. d.handed };

    ghost back = { λ _. None };

    ghost left = { λ _. None };

    ghost faults = { λ d. d.faults };

    fn open(&mut self, port: u16) -> Result<(), DoorFailed> {
        self.port = Some(port);
        match TcpListener::bind(&self.net, (Ipv4Addr::LOCALHOST, port)) {
            Ok(listener) => {
                self.listener = Some(listener);
                Ok(())
            }
            Err(_) => {
                self.listener = None;
                self.faults = self.faults.saturating_add(1);
                Err(DoorFailed)
            }
        }
    }

    /// A peer that is gone before its connection is accepted is passed over, and so is one at whose connection an option
    /// can't be set: that connection is closed. After a thousand of these in a row `accept` fails.
    fn accept(&mut self, done: Option<TcpConn>) -> Result<Option<TcpConn>, DoorFailed>
        requires { ⟦<TcpDoors<R> as Doors>⟧.is_open self.old ≡ true }
        ensures back { TakesBack {C = TcpConn} None None done result }
        ensures left { HandsOut {C = TcpConn} None None result }
        ensures handed { let doors = ⟦<TcpDoors<R> as Doors>⟧ in
            doors.handed self.new ≡ handed_after (doors.handed self.old) result }
        ensures no_fault { IfOk result (λ next. IfSome next (λ conn. ⟦<TcpConn as Conn>⟧.faults conn ≡ 0)) }
        ensures not_closed { IfOk result (λ next. IfSome next (λ conn. ⟦<TcpConn as Conn>⟧.closed conn ≡ false)) }
        ensures not_written { IfOk result (λ next. IfSome next (λ conn. IfSome (⟦<TcpConn as Conn>⟧.written conn) (λ bytes. bytes ≡ []))) }
        ensures ports { let doors = ⟦<TcpDoors<R> as Doors>⟧ in doors.ports self.new ≡ doors.ports self.old }
        ensures is_open { let doors = ⟦<TcpDoors<R> as Doors>⟧ in doors.is_open self.new ≡ doors.is_open self.old }
        ensures cause { let doors = ⟦<TcpDoors<R> as Doors>⟧ in
            FailsByCount (doors.faults self.old) (doors.faults self.new) result }
        ensures counted { let doors = ⟦<TcpDoors<R> as Doors>⟧ in
            CountsFailure (doors.faults self.old) (doors.faults self.new) result }
        ensures never_none { IfOk result (λ next. IsSome next) }
    {
        drop(done);
        match next_conn(self.listener.as_ref().unwrap()) {
            Ok(conn) => {
                self.handed = self.handed.saturating_add(1);
                Ok(Some(conn))
            }
            Err(_) => {
                self.faults = self.faults.saturating_add(1);
                Err(DoorFailed)
            }
        }
    }
}

// The next connection that can be set up.
fn next_conn(listener: &TcpListener) -> io::Result<TcpConn>
    ensures no_fault { IfOk result (λ conn. ⟦<TcpConn as Conn>⟧.faults conn ≡ 0) }
    ensures not_closed { IfOk result (λ conn. ⟦<TcpConn as Conn>⟧.closed conn ≡ false) }
{
    for _ in 0..MOST_GIVEN_UP {
        match listener.accept() {
            Ok((stream, _)) => {
                if let Ok(conn) = TcpConn::new(stream) {
                    return Ok(conn);
                }
            }
            Err(error) if error.kind() == ErrorKind::ConnectionAborted => {}
            Err(error) => return Err(error),
        }
    }
    Err(ErrorKind::ConnectionAborted.into())
}
