//! Where bytes come from.

ghost use Rattle.std.specs.Prelude.{◌≡◌, ℕ, ◌<◌, ◌≤◌, ◌++◌, List, Option, IfOk, OnOk, OnErr, IsErrOf, length, take, vec_len};
ghost use Rattle.std.specs.Io.KnownBytes.{Consumes, IsAtEnd, ReadConsumes};
ghost use Rattle.sw_words.specs.Counts.{CountsFailure, FailsByCount, Rose, one_more};
ghost use Rattle.sw_io.specs.Whole.{ConsumesFront};
ghost use Rattle.sw_io.specs.declared.source.ReadError.TheVariants.{Failed, NoMemory as WantOfMemory};

use std::alloc::Global;
use sw_types::{Bytes, NoMemory};
use thiserror::Error;

/// The source failed, and its count of faults rose.
#[derive(Clone, Copy, Debug, PartialEq, Eq, Error)]
#[error("reading failed")]
pub struct ReadFailed;

/// Where bytes come from.
pub trait Source {
    /// The bytes that are left, where the source tells.
    ghost remaining: { Self → Option (List ℕ) };

    /// How often reading has failed.
    ghost faults: { Self → ℕ };

    /// Reads into the front of `room`, and answers how many bytes came. None come only at the end of the input, and
    /// none are lost at `Err`.
    fn read(&mut self, room: &mut [u8]) -> Result<usize, ReadFailed>
        requires { 0 < length room.old }
        ensures count { IfOk result (λ n. n ≤ length room.new) }
        ensures bytes { ReadConsumes (remaining self.old) (remaining self.new) result room.new }
        ensures cause { FailsByCount (faults self.old) (faults self.new) result }
        ensures counted { CountsFailure (faults self.old) (faults self.new) result };
}

/// Why a source was not read to where it should be.
#[derive(Clone, Copy, Debug, PartialEq, Eq, Error)]
pub enum ReadError {
    /// A read failed, and the count of faults rose.
    #[error("reading failed")]
    Failed,
    /// There was no memory for what was read.
    #[error("out of memory")]
    NoMemory,
}

impl From<ReadFailed> for ReadError {
    ghost from_gives = { λ _ error. error ≡ Failed };

    fn from(_failed: ReadFailed) -> ReadError {
        ReadError::Failed
    }
}

impl From<NoMemory> for ReadError {
    ghost from_gives = { λ _ error. error ≡ WantOfMemory };

    fn from(_refused: NoMemory) -> ReadError {
        ReadError::NoMemory
    }
}

// How many bytes are read at once.
const ROOM: usize = 64 * 1024;

/// Reads all that is left, or the first `limit` bytes of it where there are so many. At `Err` what was read is lost.
pub fn read_up_to<S: Source>(
    alloc: Global,
    source: &mut S,
    limit: usize,
) -> Result<Vec<u8>, ReadError>
    ensures bytes { IfOk result (λ bytes. Consumes (S.remaining source.old) (S.remaining source.new) bytes.items) }
    ensures limit { IfOk result (λ bytes. length bytes.items ≤ limit) }
    ensures end { IfOk result (λ bytes. length bytes.items < limit → IsAtEnd (S.remaining source.new)) }
    ensures front { OnErr result (ConsumesFront (S.remaining source.old) (S.remaining source.new) limit) }

    ensures never_falls { S.faults source.old ≤ S.faults source.new }
    ensures failed { IsErrOf result ReadError.Failed → Rose (S.faults source.old) (S.faults source.new) }
    ensures counted { IsErrOf result ReadError.Failed → S.faults source.new ≡ one_more (S.faults source.old) }
    ensures no_memory { IsErrOf result ReadError.NoMemory → S.faults source.new ≡ S.faults source.old }
    ensures quiet { OnOk result (S.faults source.new ≡ S.faults source.old) }
{
    let mut bytes = Bytes::new(alloc);
    let mut room = zeros(alloc, ROOM)?;
    while bytes.len() < limit {
        let want = (limit - bytes.len()).min(room.len());
        if append_piece(source, &mut room[..want], &mut bytes)? == 0 {
            break;
        }
    }
    Ok(bytes.into_vec())
}

// Reads once, appends what came, and answers how many bytes that is: none only at the end of the input.
fn append_piece<S: Source>(
    source: &mut S,
    room: &mut [u8],
    bytes: &mut Bytes,
) -> Result<usize, ReadError>
    requires { 0 < length room.old }
    ensures within { IfOk result (λ n. n ≤ length room.new) }
    ensures appends { IfOk result (λ n. bytes.new ≡ bytes.old ++ take n room.new) }
    ensures bytes { IfOk result (λ n. Consumes (S.remaining source.old) (S.remaining source.new) (take n room.new)) }
    ensures end { IfOk result (λ n. n ≡ 0 → IsAtEnd (S.remaining source.new)) }
    ensures front { OnErr result (ConsumesFront (S.remaining source.old) (S.remaining source.new) (length room.new)) }

    ensures never_falls { S.faults source.old ≤ S.faults source.new }
    ensures failed { IsErrOf result ReadError.Failed → Rose (S.faults source.old) (S.faults source.new) }
    ensures counted { IsErrOf result ReadError.Failed → S.faults source.new ≡ one_more (S.faults source.old) }
    ensures no_memory { IsErrOf result ReadError.NoMemory → S.faults source.new ≡ S.faults source.old }
    ensures quiet { OnOk result (S.faults source.new ≡ S.faults source.old) }
{
    let count = source.read(room)?;
    bytes.extend_from_slice(&room[..count])?;
    Ok(count)
}

// So many bytes, to read into. At a literal length a proof would write them all out.
fn zeros(alloc: Global, len: usize) -> Result<Vec<u8>, NoMemory>
    ensures { IfOk result (λ zeros. vec_len zeros ≡ len) }
{
    Ok(vec![in alloc; 0u8; len]?)
}
