//! What archives cost: all of an object made, at once and as a put makes them, k of them read, and the object decoded.

ghost use Rattle.std.specs.Prelude.{◌≡◌, ◌+◌, ◌≤◌, drop, length, take};
ghost use Rattle.sw_types.specs.Object.{greatest_body};
ghost use Rattle.archive_bench.specs.Archives.{archives_of};

use crate::alone::{decode, digests, encode, gather_all};
use crate::cost::{Cost, print_row};
use crate::put::Put;
use anyhow::Result;
use md5::{Digest, Md5};
use measuring::mean_time;
use std::time::{CpuClock, Duration};
use sw_cauchy::Code;
use sw_types::Bytes;

/// The greatest number of bytes of a segment: the usual one.
pub const SEGMENT: u32 = 1 << 20;

/// Measures the steps of a code, each for about so many seconds, and once at least. Prints rows for bodies of 64 KiB, 1 MiB
/// and 16 MiB.
pub fn measure(rt: &(impl Print + CpuClock + AllocGlobal), code: Code, seconds: u64) -> Result<()> {
    for length in [1 << 16, 1 << 20, 1 << 24] {
        measure_body(rt, code, length, seconds)?;
    }
    Ok(())
}

// The rows of a body of so many bytes.
fn measure_body(
    rt: &(impl Print + CpuClock + AllocGlobal),
    code: Code,
    length: u32,
    seconds: u64,
) -> Result<()>
    requires { length ≤ greatest_body }
{
    let put = Put::of(rt.alloc(), code, SEGMENT, length as usize)?;
    let archives = put.archives(rt.alloc())?;
    let make = cost_to_make(rt, &put, &archives, seconds)?;
    print_row(rt, code, length, "make", make)?;
    let make_as_put = cost_as_put(rt, &put, &archives, make.field, seconds)?;
    print_row(rt, code, length, "make as a put", make_as_put)?;
    let (read, decode) = costs_from(rt, &put, &archives, 0, seconds)?;
    print_row(rt, code, length, "read first", read)?;
    print_row(rt, code, length, "decode first", decode)?;
    print_row(rt, code, length, "all, first", make.with(read).with(decode))?;
    let (read, decode) = costs_from(rt, &put, &archives, code.m, seconds)?;
    print_row(rt, code, length, "read last", read)?;
    print_row(rt, code, length, "decode last", decode)?;
    print_row(rt, code, length, "all, last", make.with(read).with(decode))
}

// What it costs to make all archives. Each is hashed once.
fn cost_to_make(
    rt: &(impl CpuClock + AllocGlobal),
    put: &Put,
    archives: &[Bytes],
    seconds: u64,
) -> Result<Cost> {
    let alloc = rt.alloc();
    let code = Code::from(put.policy);
    let body = put.object.body().as_slice();
    Ok(Cost {
        whole: mean_time(rt, seconds, || Ok(put.archives(alloc)?))?,
        hashing: mean_time(rt, seconds, || Ok(digests(alloc, archives)?))?,
        field: mean_time(rt, seconds, || {
            Ok(encode(alloc, code, body, SEGMENT as usize)?)
        })?,
    })
}

// What it costs to make all archives as a put does. They are hashed side by side, and their products are computed twice:
// for the MD5s, and for the archives. How long they take once is known.
fn cost_as_put(
    rt: &(impl CpuClock + AllocGlobal),
    put: &Put,
    archives: &[Bytes],
    field: Duration,
    seconds: u64,
) -> Result<Cost>
    requires { archives.now ≡ archives_of put.now (put.now.policy.k + put.now.policy.m) }
{
    let alloc = rt.alloc();
    Ok(Cost {
        whole: mean_time(rt, seconds, || Ok(put.make_each(alloc)?))?,
        hashing: mean_time(rt, seconds, || Ok(put.digests(alloc, archives)?))?,
        field: field.saturating_add(field),
    })
}

// What it costs to read the k archives from an index on, and to decode the object. Each archive is hashed once, and so is
// the body.
fn costs_from(
    rt: &(impl CpuClock + AllocGlobal),
    put: &Put,
    archives: &[Bytes],
    first: u32,
    seconds: u64,
) -> Result<(Cost, Cost)>
    requires archives { archives.now ≡ archives_of put.now (put.now.policy.k + put.now.policy.m) }
    requires first { first ≤ put.now.policy.m }
{
    let alloc = rt.alloc();
    let code = Code::from(put.policy);
    let k_archives = k_from(archives, code, first);
    let read = Cost {
        whole: mean_time(rt, seconds, || {
            Ok(put.assemble_from(alloc, archives, first)?)
        })?,
        hashing: mean_time(rt, seconds, || Ok(digests(alloc, k_archives)?))?,
        field: Duration::ZERO,
    };
    let assemble = put.assemble_from(alloc, archives, first)?;
    let body = put.object.body().as_slice();
    let gathered = gather_all(alloc, code, body, SEGMENT as usize, first)?;
    let decode = Cost {
        whole: mean_time(rt, seconds, || Ok(assemble.object(alloc)?))?,
        hashing: mean_time(rt, seconds, || Ok(Md5::digest(body)))?,
        field: mean_time(rt, seconds, || Ok(decode(alloc, &gathered)?))?,
    };
    Ok((read, decode))
}

// The k archives from an index on.
fn k_from(archives: &[Bytes], code: Code, first: u32) -> &[Bytes]
    requires count { length archives.now ≡ code.k + code.m }
    requires first { first ≤ code.m }
    ensures { result.now ≡ take code.k (drop first archives.now) }
{
    let behind = &archives[first as usize..];
    &behind[..code.k as usize]
}
