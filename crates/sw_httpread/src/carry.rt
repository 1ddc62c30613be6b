//! Bytes that were read from a connection and are not used yet.

ghost use Rattle.std.specs.Prelude.{◌≡◌, ◌≤◌, ◌+◌, [], length, drop, vec_len, vec_capacity, IfOk, OnOk, OnErr, IsErrOf, false};
ghost use Rattle.std.specs.Io.KnownBytes.{Keeps};
ghost use Rattle.sw_httpread.specs.Reading.{CountsFault, IsRead};

use std::alloc::Global;
use std::marker::Model;
use sw_io::{Conn, ReadError};
use sw_types::NoMemory;

// How many bytes are read at once.
const ROOM: usize = 64 * 1024;

/// Bytes that were read and are not used yet.
#[derive(Debug, Drop)]
pub struct Carry {
    bytes: Vec<u8>,
    // How many of them are used. They go before more is read, so that using a few bytes moves none.
    used: usize,
    // What is read into, once something is.
    room: Vec<u8>,
}

impl Model for Carry {
    ghost use Rattle.std.specs.Prelude.{◌≤◌, List, ℕ, drop, vec_len};

    ghost Value = { List ℕ };

    ghost view = { λ carry. drop carry.used carry.bytes.items };

    ghost invariant = { λ carry. carry.used ≤ vec_len carry.bytes };
}

impl Carry {
    /// No bytes. It takes no memory.
    pub fn new(alloc: Global) -> Carry
        ensures { result ≡ [] }
    {
        Carry {
            bytes: Vec::new(alloc),
            used: 0,
            room: Vec::new(alloc),
        }
    }

    /// The bytes.
    pub fn as_slice(&self) -> &[u8]
        ensures { result.now ≡ self.now }
    {
        &self.bytes[self.used..]
    }

    /// Takes so many bytes off the front.
    pub(crate) fn use_front(&mut self, count: usize)
        requires { count ≤ length self.old }
        ensures { self.new ≡ drop count self.old }
    {
        self.used += count;
    }

    /// Reads once, and answers how many bytes came: none only at the end. None are lost at `Err`.
    pub(crate) fn read_more<N: Conn>(
        &mut self,
        alloc: Global,
        conn: &mut N,
    ) -> Result<usize, ReadError>
        requires not_closed { N.closed conn.old ≡ false }
        ensures read { IfOk result (IsRead (N.remaining conn.old) (N.remaining conn.new) self.old self.new) }
        ensures kept { OnErr result (Keeps (N.remaining conn.old) (N.remaining conn.new) × (self.new ≡ self.old)) }
        ensures written { N.written conn.new ≡ N.written conn.old }
        ensures closed { N.closed conn.new ≡ N.closed conn.old }
        ensures counts { CountsFault (IsErrOf result ReadError.Failed) (N.faults conn.old) (N.faults conn.new) }
    {
        make_room(alloc, &mut self.room)?;
        forget(&mut self.bytes, &mut self.used);
        reserve(&mut self.bytes)?;
        let count = conn.read(&mut self.room)?;
        self.bytes.extend_from_slice(&self.room[..count]).unwrap();
        Ok(count)
    }
}

// Takes the used bytes off the front.
fn forget(bytes: &mut Vec<u8>, used: &mut usize)
    requires { used.old ≤ vec_len bytes.old }
    ensures bytes { bytes.new.items ≡ drop used.old bytes.old.items }
    ensures used { used.new ≡ 0 }
{
    bytes.drain(..*used);
    *used = 0;
}

// Room to read into.
fn make_room(alloc: Global, room: &mut Vec<u8>) -> Result<(), NoMemory>
    ensures { OnOk result (vec_len room.new ≡ 65536) }
{
    if room.len() != ROOM {
        *room = zeros(alloc, ROOM)?;
    }
    Ok(())
}

// Room for what is read.
fn reserve(bytes: &mut Vec<u8>) -> Result<(), NoMemory>
    ensures items { bytes.new.items ≡ bytes.old.items }
    ensures room { OnOk result (vec_len bytes.new + 65536 ≤ vec_capacity bytes.new) }
{
    bytes.reserve(ROOM)?;
    Ok(())
}

// So many bytes, to read into. At a literal length a proof would write them all out.
fn zeros(alloc: Global, len: usize) -> Result<Vec<u8>, NoMemory>
    ensures { IfOk result (λ zeros. vec_len zeros ≡ len) }
{
    Ok(vec![in alloc; 0u8; len]?)
}
