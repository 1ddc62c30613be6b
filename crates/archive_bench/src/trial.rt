//! A code, tried on the archives of a small object.

ghost use Rattle.std.specs.Prelude.{◌≡◌, ◌↔◌, IfOk, IsTrue};

use crate::put::Put;
use anyhow::{Result, ensure};
use std::alloc::Global;
use sw_cauchy::Code;
use sw_types::{Head, Object};

/// Tries a code, and prints a line for it. The contracts of the calls say that it is right; a run shows it of the
/// program as it was built.
pub fn try_code(rt: &(impl Print + AllocGlobal), code: Code) -> Result<()> {
    let right = is_right(rt.alloc(), code)?;
    ensure!(right, "{} {} is wrong", code.k, code.m);
    println!(rt; "{} {} ok", code.k, code.m)?;
    Ok(())
}

// Whether the first k and the last k archives of an object of 1,000 bytes in segments of 96 read back to it. They do, so
// every answer is yes.
fn is_right(alloc: Global, code: Code) -> Result<bool>
    ensures { IfOk result (λ right. IsTrue right) }
{
    let put = Put::of(alloc, code, 96, 1_000)?;
    let archives = put.archives(alloc)?;
    let first = put.read_back(alloc, &archives, 0)?;
    let last = put.read_back(alloc, &archives, code.m)?;
    Ok(are_same(&first, &put.object) && are_same(&last, &put.object))
}

// Whether two objects are the same.
fn are_same(a: &Object, b: &Object) -> bool
    ensures { IsTrue result ↔ (a.now ≡ b.now) }
{
    are_same_heads(a.head(), b.head()) && a.body() == b.body()
}

// Whether two heads are the same.
fn are_same_heads(a: &Head, b: &Head) -> bool
    ensures { IsTrue result ↔ (a.now ≡ b.now) }
{
    a.content_type() == b.content_type() && a.pairs() == b.pairs()
}
