//! Answers to deletes.

ghost use Rattle.std.specs.Prelude.{◌≡◌, IfOk};
ghost use Rattle.sw_response.specs.Response.{delete_answer};

use crate::words::{plain, stamped, unable};
use std::alloc::Global;
use sw_delete::DeleteEnd;
use sw_httpwrite::Answer;
use sw_types::{Bytes, NoMemory};

/// The answer to how a delete ended.
pub fn delete_answer(alloc: Global, close: bool, end: &DeleteEnd) -> Result<Answer, NoMemory>
    ensures { IfOk result (λ answer. answer ≡ delete_answer close end.now) }
{
    match end {
        DeleteEnd::Deleted { existed: true, .. } => {
            Ok(Answer::new(204, Vec::new(alloc), Bytes::new(alloc), close))
        }
        DeleteEnd::Deleted { existed: false, .. } => { plain(alloc, false, close, 404, b"Missing") }
        DeleteEnd::Superseded { floor } => {
            stamped(alloc, false, close, 409, b"Superseded", floor.stamp)
        }
        DeleteEnd::TooFewMarks { misses, .. } => {
            unable(alloc, false, close, b"TooFewMarks", misses.as_slice())
        }
    }
}
