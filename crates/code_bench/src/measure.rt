//! How many bytes of a segment a code encodes and decodes in a second, and of how many a multiple is added.

use crate::parity::encode_parity;
use crate::plain::encode_plainly;
use crate::sums::add_often;
use anyhow::Result;
use measuring::{Rate, gather_from, mean_time, pattern};
use std::time::CpuClock;
use sw_cauchy::Code;

// The number of bytes of the segment.
const SEGMENT_LENGTH: u32 = 1 << 20;

// The number of bytes that a multiple is added of, and how often without a pause.
const PIECE_LENGTH: u32 = 1 << 16;

const TURNS: u32 = 256;

/// Measures adding a multiple of 64 KiB for about so many seconds. Prints a line of the rate.
pub fn measure_sums(rt: &(impl Print + CpuClock + AllocGlobal), seconds: u64) -> Result<()> {
    let alloc = rt.alloc();
    let piece = pattern(alloc, PIECE_LENGTH as usize)?;
    let turns = mean_time(rt, seconds, || Ok(add_often(alloc, &piece, 0x8e, TURNS)?))?;
    println!(rt; "mul_acc {} MB/s", Rate::of(PIECE_LENGTH * TURNS, turns))?;
    Ok(())
}

/// Measures encoding, the same without the data fragments, decoding from the last k fragments, and encoding by the
/// definition, each for about so many seconds, and for one segment at least. Prints a line of the rates.
pub fn measure(rt: &(impl Print + CpuClock + AllocGlobal), code: Code, seconds: u64) -> Result<()> {
    let alloc = rt.alloc();
    let segment = pattern(alloc, SEGMENT_LENGTH as usize)?;
    let fragments = code.encode_stripe(alloc, &segment)?;
    let gather = gather_from(alloc, code, &segment, &fragments, code.m)?;
    let encode = mean_time(rt, seconds, || Ok(code.encode_stripe(alloc, &segment)?))?;
    let parity = mean_time(rt, seconds, || Ok(encode_parity(alloc, code, &segment)?))?;
    let finish = mean_time(rt, seconds, || Ok(gather.finish(alloc, segment.len())?))?;
    let plain = mean_time(rt, seconds, || Ok(encode_plainly(alloc, code, &segment)?))?;
    println!(rt;
        "{} {} encode_stripe {} parity {} finish {} plain {} MB/s",
        code.k,
        code.m,
        Rate::of(SEGMENT_LENGTH, encode),
        Rate::of(SEGMENT_LENGTH, parity),
        Rate::of(SEGMENT_LENGTH, finish),
        Rate::of(SEGMENT_LENGTH, plain)
    )?;
    Ok(())
}
