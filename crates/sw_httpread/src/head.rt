//! The next head on a connection.

ghost use Rattle.std.specs.Prelude.{◌≡◌, ◌≤◌, ◌++◌, ℕ, List, Option, true, false, length, take, IfOk, IsErrOf};
ghost use Rattle.std.specs.Io.KnownBytes.{IsAtEnd};
ghost use Rattle.sw_httpread.specs.Ends.{IsEnding, IsUnended};
ghost use Rattle.sw_httpread.specs.Heads.{AreBlank, IsAnswer, IsDefinite, IsHeadNext, IsTaken, ReadsHead};
ghost use Rattle.sw_httpread.specs.Lines.{IsWholeHead};
ghost use Rattle.sw_httpread.specs.Reading.{CountsFault, Grew};

use crate::carry::Carry;
use crate::ending::{Ending, ending_of};
use crate::lines::HeadForm;
use crate::parse::parse_head;
use crate::request::RequestHead;
use std::alloc::Global;
use sw_io::{Conn, ReadError};
use sw_types::NoMemory;

/// What comes next on a connection.
#[derive(Debug, Drop)]
pub enum HeadNext {
    Head(RequestHead),
    /// The end, with only CR and LF before it.
    End,
    /// The end within a head.
    Cut,
    /// A head that ends within 8,192 bytes and is none by the grammar (RFC 9112, sections 2 to 5).
    BadHead,
    /// 8,192 bytes within which no head ends.
    HeadTooLarge,
    /// Reading failed, and the count of faults rose.
    ReadFault,
    NoMemory,
}

/// Reads the next head, which reaches to the first empty line behind a line that isn't empty. Nothing is read once the
/// bytes that have come decide. What was read is kept unused, but for a head that is handed out.
pub fn next_head<N: Conn>(alloc: Global, conn: &mut N, carry: &mut Carry) -> HeadNext
    requires not_closed { N.closed conn.old ≡ false }
    ensures reads { ReadsHead (N.remaining conn.old) (N.remaining conn.new) carry.old carry.new result }
    ensures written { N.written conn.new ≡ N.written conn.old }
    ensures closed { N.closed conn.new ≡ N.closed conn.old }
    ensures counts { CountsFault (result ≡ HeadNext.ReadFault) (N.faults conn.old) (N.faults conn.new) }
{
    match find_head(alloc, conn, carry) {
        Ok(Ending::Whole(length)) => take_head(alloc, carry, length),
        Ok(Ending::Nowhere) => HeadNext::HeadTooLarge,
        Ok(Ending::Unended) => {
            if is_blank(carry.as_slice()) {
                HeadNext::End
            } else {
                HeadNext::Cut
            }
        }
        Err(ReadError::Failed) => HeadNext::ReadFault,
        Err(ReadError::NoMemory) => HeadNext::NoMemory,
    }
}

// Whether there are only CR and LF.
fn is_blank(bytes: &[u8]) -> bool
    ensures yes { result ≡ true → AreBlank bytes.now }
    ensures no { result ≡ false → ¬ AreBlank bytes.now }
{
    bytes.iter().all(|byte| *byte == 13 || *byte == 10)
}

// Reads until a whole head has come, or the limit, or the end.
fn find_head<N: Conn>(alloc: Global, conn: &mut N, carry: &mut Carry) -> Result<Ending, ReadError>
    requires not_closed { N.closed conn.old ≡ false }
    ensures grew { Grew (IsUnended IsWholeHead) (N.remaining conn.old) (N.remaining conn.new) carry.old carry.new }
    ensures found { IfOk result (IsEnding IsWholeHead carry.new) }
    ensures end { IfOk result (λ ending. ending ≡ Ending.Unended → IsAtEnd (N.remaining conn.new)) }
    ensures failed { IsErrOf result ReadError.Failed → IsUnended IsWholeHead carry.new }
    ensures written { N.written conn.new ≡ N.written conn.old }
    ensures closed { N.closed conn.new ≡ N.closed conn.old }
    ensures counts { CountsFault (IsErrOf result ReadError.Failed) (N.faults conn.old) (N.faults conn.new) }
{
    'reading: loop {
        match ending_of::<HeadForm>(carry.as_slice()) {
            Ending::Unended => {
                if carry.read_more(alloc, conn)? == 0 {
                    return Ok(Ending::Unended);
                }
            }
            ending => return Ok(ending),
        }
    }
}

// Takes a whole head off the front.
fn take_head(alloc: Global, carry: &mut Carry, count: usize) -> HeadNext
    requires { count ≤ length carry.old }
    ensures { IsTaken (take count carry.old) result carry.old carry.new }
{
    match parse_head(alloc, &carry.as_slice()[..count]) {
        Ok(Some(head)) => {
            carry.use_front(count);
            HeadNext::Head(head)
        }
        Ok(None) => HeadNext::BadHead,
        Err(NoMemory) => HeadNext::NoMemory,
    }
}

/// However bytes are cut into pieces, one answer comes of them.
pub fn head_law()
    // What some bytes decide stays so whatever comes after them.
    ensures more { (had more unused : List ℕ) (left left' : Option (List ℕ)) (next : HeadNext) →
        IsDefinite next → IsHeadNext had left next unused → IsHeadNext (had ++ more) left' next (unused ++ more) }
    // All bytes decide one answer.
    ensures one { (all x y : List ℕ) (left left' : Option (List ℕ)) (next other : HeadNext) → IsAnswer next → IsAnswer other →
        IsHeadNext all left next x → IsHeadNext all left' other y → (next ≡ other) × (x ≡ y) }
    // Where bytes have not decided, no answer that bytes alone decide is theirs.
    ensures unended { (had unused : List ℕ) (left : Option (List ℕ)) (next : HeadNext) → IsUnended IsWholeHead had →
        IsDefinite next → ¬ (IsHeadNext had left next unused) }
{}
