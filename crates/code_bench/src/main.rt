//! Tries and measures the erasure code. With no arguments it encodes and decodes a short segment by each of three codes.
//! With `measure SECONDS` it prints how fast a multiple of bytes is added, how fast each code encodes and decodes, and how
//! fast it encodes the parity fragments alone, and by the definition of a fragment.
#![tactic(auto)]

mod measure;
mod parity;
mod plain;
mod sums;
mod trial;

use crate::measure::{measure, measure_sums};
use crate::trial::try_code;
use anyhow::Result;
use measuring::{Command, read_command};
use std::process::ExitCode;
use sw_cauchy::Code;

fn main(rt: HostRuntime) -> Result<ExitCode> {
    let Some(command) = read_command(&rt)? else {
        eprintln!(rt; "usage: code_bench [measure SECONDS]")?;
        return Ok(ExitCode::FAILURE);
    };
    if let Command::Measure { seconds } = command {
        measure_sums(&rt, seconds)?;
    }
    for code in [Code::new(2, 1), Code::new(4, 2), Code::new(10, 4)] {
        match command {
            Command::Try => try_code(&rt, code)?,
            Command::Measure { seconds } => measure(&rt, code, seconds)?,
        }
    }
    Ok(ExitCode::SUCCESS)
}
