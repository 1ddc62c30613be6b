//! The body of a request.

ghost use Rattle.std.specs.Prelude.{◌≡◌, ◌≤◌, ◌<◌, ◌++◌, ℕ, List, Option, [], length, true, false, IfOk, IsErrOf};
ghost use Rattle.std.specs.Io.KnownBytes.{IsAtEnd};
ghost use Rattle.sw_httpread.specs.Bodies.{Decides, IsBodyAnswer, IsBodyNext, LeavesOpen, ReadsBody, TookChunks, next_of};
ghost use Rattle.sw_httpread.specs.Chunks.{Stands, Undecided, greatest_body};
ghost use Rattle.sw_httpread.specs.Reading.{CountsFault, Grew};
ghost use Rattle.sw_httpread.specs.Steps.{IsStep, IsStop};

use crate::carry::Carry;
use crate::step::{Step, Stop, step_of};
use std::alloc::Global;
use sw_io::{Conn, ReadError};
use sw_types::Bytes;

/// How a request tells where its body ends.
#[derive(Clone, Copy, Debug, PartialEq, Eq)]
pub enum Framing {
    /// There is no body.
    None,
    /// It has so many bytes.
    Length(u64),
    /// It comes in chunks (RFC 9112, section 7.1).
    Chunked,
}

/// What comes of a body.
#[derive(Debug, Drop)]
pub enum BodyNext {
    Body(Bytes),
    /// The end within the body.
    Cut,
    /// A chunk line, a chunk's end or a trailer section out of form, or a line or section of more than 8,192 bytes.
    BadChunk,
    /// A body of more than 16,777,216 bytes.
    TooLarge,
    /// Reading failed, and the count of faults rose.
    ReadFault,
    NoMemory,
}

// The greatest number of bytes of a body.
const LIMIT: u64 = 16_777_216;

/// Reads a body. Nothing is read once the bytes that have come decide. What was read is kept unused, but for a body that is
/// handed out and, of a chunked one, whole chunks before the answer.
pub fn read_body<N: Conn>(
    alloc: Global,
    conn: &mut N,
    carry: &mut Carry,
    framing: Framing,
) -> BodyNext
    requires not_closed { N.closed conn.old ≡ false }
    ensures reads { ReadsBody framing (N.remaining conn.old) (N.remaining conn.new) carry.old carry.new result }
    ensures written { N.written conn.new ≡ N.written conn.old }
    ensures closed { N.closed conn.new ≡ N.closed conn.old }
    ensures counts { CountsFault (result ≡ BodyNext.ReadFault) (N.faults conn.old) (N.faults conn.new) }
{
    match framing {
        Framing::None => BodyNext::Body(Bytes::new(alloc)),
        Framing::Length(size) => answer(read_sized(alloc, conn, carry, size)),
        Framing::Chunked => answer(read_chunked(alloc, conn, carry)),
    }
}

fn answer(read: Result<BodyNext, ReadError>) -> BodyNext
    ensures { result ≡ next_of read }
{
    match read {
        Ok(next) => next,
        Err(ReadError::Failed) => BodyNext::ReadFault,
        Err(ReadError::NoMemory) => BodyNext::NoMemory,
    }
}

// Reads a body of so many bytes.
fn read_sized<N: Conn>(
    alloc: Global,
    conn: &mut N,
    carry: &mut Carry,
    size: u64,
) -> Result<BodyNext, ReadError>
    requires not_closed { N.closed conn.old ≡ false }
    ensures reads { ReadsBody (Framing.Length size) (N.remaining conn.old) (N.remaining conn.new) carry.old carry.new (next_of result) }
    ensures written { N.written conn.new ≡ N.written conn.old }
    ensures closed { N.closed conn.new ≡ N.closed conn.old }
    ensures counts { CountsFault (next_of result ≡ BodyNext.ReadFault) (N.faults conn.old) (N.faults conn.new) }
{
    if size > LIMIT {
        return Ok(BodyNext::TooLarge);
    }
    let size = size as usize;
    if !fill(alloc, conn, carry, size)? {
        return Ok(BodyNext::Cut);
    }
    let body = Bytes::from_slice(alloc, &carry.as_slice()[..size])?;
    carry.use_front(size);
    Ok(BodyNext::Body(body))
}

// Reads until there are so many bytes, and tells whether they came before the end.
fn fill<N: Conn>(
    alloc: Global,
    conn: &mut N,
    carry: &mut Carry,
    size: usize,
) -> Result<bool, ReadError>
    requires not_closed { N.closed conn.old ≡ false }
    ensures grew { Grew (λ bytes. length bytes < size) (N.remaining conn.old) (N.remaining conn.new) carry.old carry.new }
    ensures filled { IfOk result (λ is_full. is_full ≡ true → size ≤ length carry.new) }
    ensures cut { IfOk result (λ is_full. is_full ≡ false → (length carry.new < size) × IsAtEnd (N.remaining conn.new)) }
    ensures failed { IsErrOf result ReadError.Failed → length carry.new < size }
    ensures written { N.written conn.new ≡ N.written conn.old }
    ensures closed { N.closed conn.new ≡ N.closed conn.old }
    ensures counts { CountsFault (IsErrOf result ReadError.Failed) (N.faults conn.old) (N.faults conn.new) }
{
    'filling: while carry.as_slice().len() < size {
        if carry.read_more(alloc, conn)? == 0 {
            return Ok(false);
        }
    }
    Ok(true)
}

// Reads a chunked body.
fn read_chunked<N: Conn>(
    alloc: Global,
    conn: &mut N,
    carry: &mut Carry,
) -> Result<BodyNext, ReadError>
    requires not_closed { N.closed conn.old ≡ false }
    ensures reads { ReadsBody Framing.Chunked (N.remaining conn.old) (N.remaining conn.new) carry.old carry.new (next_of result) }
    ensures written { N.written conn.new ≡ N.written conn.old }
    ensures closed { N.closed conn.new ≡ N.closed conn.old }
    ensures counts { CountsFault (next_of result ≡ BodyNext.ReadFault) (N.faults conn.old) (N.faults conn.new) }
{
    let mut body = Bytes::new(alloc);
    match take_chunks(alloc, conn, carry, &mut body)? {
        Stop::Last(count) => {
            carry.use_front(count);
            Ok(BodyNext::Body(body))
        }
        Stop::Bad => Ok(BodyNext::BadChunk),
        Stop::TooLarge => Ok(BodyNext::TooLarge),
        Stop::Open => Ok(BodyNext::Cut),
    }
}

// Reads chunks, takes them off the front and their data into the body, up to what is none.
fn take_chunks<N: Conn>(
    alloc: Global,
    conn: &mut N,
    carry: &mut Carry,
    body: &mut Bytes,
) -> Result<Stop, ReadError>
    requires empty { body.old ≡ [] }
    requires not_closed { N.closed conn.old ≡ false }
    ensures took { TookChunks (N.remaining conn.old) (N.remaining conn.new) carry.old carry.new body.new }
    ensures found { IfOk result (IsStop (Stands (length body.new) carry.new) carry.new) }
    ensures end { IfOk result (λ stop. stop ≡ Stop.Open → IsAtEnd (N.remaining conn.new)) }
    ensures failed { IsErrOf result ReadError.Failed → Stands (length body.new) carry.new Undecided }
    ensures written { N.written conn.new ≡ N.written conn.old }
    ensures closed { N.closed conn.new ≡ N.closed conn.old }
    ensures counts { CountsFault (IsErrOf result ReadError.Failed) (N.faults conn.old) (N.faults conn.new) }
{
    'chunks: loop {
        match next_step(alloc, conn, carry, body.len())? {
            Step::Chunk { start, size } => {
                body.extend_from_slice(&carry.as_slice()[start..start + size])?;
                carry.use_front(start + size + 2);
            }
            Step::Over(stop) => return Ok(stop),
        }
    }
}

// Reads until it is decided what stands at the front, in a body that has so many bytes so far, or to the end.
fn next_step<N: Conn>(
    alloc: Global,
    conn: &mut N,
    carry: &mut Carry,
    so_far: usize,
) -> Result<Step, ReadError>
    requires within { so_far ≤ greatest_body }
    requires not_closed { N.closed conn.old ≡ false }
    ensures grew { Grew (λ bytes. Stands so_far bytes Undecided) (N.remaining conn.old) (N.remaining conn.new) carry.old carry.new }
    ensures found { IfOk result (IsStep (Stands so_far carry.new) carry.new) }
    ensures end { IfOk result (λ step. step ≡ Step.Over Stop.Open → IsAtEnd (N.remaining conn.new)) }
    ensures failed { IsErrOf result ReadError.Failed → Stands so_far carry.new Undecided }
    ensures written { N.written conn.new ≡ N.written conn.old }
    ensures closed { N.closed conn.new ≡ N.closed conn.old }
    ensures counts { CountsFault (IsErrOf result ReadError.Failed) (N.faults conn.old) (N.faults conn.new) }
{
    'reading: loop {
        match step_of(alloc, carry.as_slice(), so_far)? {
            Step::Over(Stop::Open) => {
                if carry.read_more(alloc, conn)? == 0 {
                    return Ok(Step::Over(Stop::Open));
                }
            }
            step => return Ok(step),
        }
    }
}

/// However bytes are cut into pieces, one body comes of them.
pub fn body_law()
    // What some bytes decide stays so whatever comes after them.
    ensures more { (how : Framing) (had more unused : List ℕ) (next : BodyNext) →
        Decides how had next unused → Decides how (had ++ more) next (unused ++ more) }
    // All bytes decide one answer.
    ensures one { (how : Framing) (all x y : List ℕ) (left left' : Option (List ℕ)) (next other : BodyNext) → IsBodyAnswer next →
        IsBodyAnswer other → IsBodyNext how all left next x → IsBodyNext how all left' other y → (next ≡ other) × (x ≡ y) }
    // Bytes that leave it open decide nothing.
    ensures undecided { (how : Framing) (had unused rest : List ℕ) (next : BodyNext) → LeavesOpen how had unused →
        ¬ (Decides how had next rest) }
{}
