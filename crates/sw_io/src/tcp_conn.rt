//! Connections over TCP.

ghost use Rattle.std.specs.Prelude.{◌≡◌, ◌≤◌, None, false, length, IfOk};

use crate::{Conn, ReadFailed, WriteFailed};
use std::io;
use std::io::{ErrorKind, Read, Write};
use std::net::{Shutdown, TcpStream};
use std::time::Duration;

// For how many seconds a read or a write may wait for the peer.
const LONGEST_WAIT: u64 = 60;

// For how many seconds a peer may pause that sends on though its connection is closed.
const LONGEST_PAUSE: u64 = 1;

// How many reads of what it sends are passed over.
const MOST_PASSED_OVER: u32 = 8_192;

// How often a call is made again that signals interrupt.
const MOST_INTERRUPTIONS: u32 = 1_000;

/// A connection over a TCP stream. It tells nothing of what comes and goes. A read or a write fails where the stream does,
/// and where it makes no progress for 60 seconds; each counts one. A write that takes no byte is a failed one.
#[derive(Debug, Drop)]
pub struct TcpConn {
    stream: TcpStream,
    faults: u64,
    is_closed: bool,
}

impl TcpConn {
    /// A connection over a stream, whose options it sets: small pieces are sent at once, and what waits for 60 seconds
    /// fails. The stream is closed where an option can't be set.
    pub fn new(stream: TcpStream) -> io::Result<Self>
        ensures no_fault { IfOk result (λ conn. ⟦<TcpConn as Conn>⟧.faults conn ≡ 0) }
        ensures not_closed { IfOk result (λ conn. ⟦<TcpConn as Conn>⟧.closed conn ≡ false) }
    {
        let longest = Some(Duration::from_secs(LONGEST_WAIT));
        stream.set_nodelay(true)?;
        stream.set_read_timeout(longest)?;
        stream.set_write_timeout(longest)?;
        Ok(TcpConn {
            stream,
            faults: 0,
            is_closed: false,
        })
    }
}

impl Conn for TcpConn {
    ghost remaining = { λ _. None };

    ghost written = { λ _. None };

    ghost faults = { λ c. c.faults };

    ghost closed = { λ c. c.is_closed };

    fn read(&mut self, room: &mut [u8]) -> Result<usize, ReadFailed> {
        match read_on(&mut self.stream, room) {
            Ok(count) => Ok(count),
            Err(_) => {
                self.faults = self.faults.saturating_add(1);
                Err(ReadFailed)
            }
        }
    }

    fn write(&mut self, piece: &[u8]) -> Result<usize, WriteFailed> {
        match write_on(&mut self.stream, piece) {
            Ok(count) if count > 0 => Ok(count),
            _ => {
                self.faults = self.faults.saturating_add(1);
                Err(WriteFailed)
            }
        }
    }

    /// Tells the peer that no more comes, passes over what it is still sending, up to its end, 32 MiB or a pause of a second, and shuts the
    /// stream down: a stream that is closed over bytes that were not read is reset, and the peer may lose the last answer (RFC 9112,
    /// section 9.6). The peer sees the end, also where the system says that this failed, at the latest when the connection is dropped.
    fn close(&mut self) {
        let _ = self.stream.shutdown(Shutdown::Write);
        pass_over(&mut self.stream);
        let _ = self.stream.shutdown(Shutdown::Both);
        self.is_closed = true;
    }
}

// Reads what a peer is still sending, and drops it.
fn pass_over(stream: &mut TcpStream) {
    let pause = Duration::from_secs(LONGEST_PAUSE);
    if stream.set_read_timeout(Some(pause)).is_err() {
        return;
    }
    let mut room = [0; 4096];
    for _ in 0..MOST_PASSED_OVER {
        match stream.read(&mut room) {
            Ok(0) | Err(_) => return,
            Ok(_) => {}
        }
    }
}

// Reads, again where a signal came in between: std doesn't.
fn read_on(stream: &mut TcpStream, room: &mut [u8]) -> io::Result<usize>
    ensures { IfOk result (λ count. count ≤ length room.new) }
{
    for _ in 0..MOST_INTERRUPTIONS {
        match stream.read(room) {
            Err(error) if error.kind() == ErrorKind::Interrupted => {}
            ended => return ended,
        }
    }
    Err(ErrorKind::Interrupted.into())
}

// Writes, likewise.
fn write_on(stream: &mut TcpStream, piece: &[u8]) -> io::Result<usize>
    ensures { IfOk result (λ count. count ≤ length piece.now) }
{
    for _ in 0..MOST_INTERRUPTIONS {
        match stream.write(piece) {
            Err(error) if error.kind() == ErrorKind::Interrupted => {}
            ended => return ended,
        }
    }
    Err(ErrorKind::Interrupted.into())
}
