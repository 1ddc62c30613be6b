//! Tries and measures the object server on a disk in memory. With no arguments each device call of some messages fails, and
//! it prints what is answered, what the folder then holds, and what the next message is answered. With `measure SECONDS` it
//! prints what storing and committing an archive cost on disks of few folders and many, and what a folder's listing costs.
#![tactic(auto)]

mod measure;
mod object;
mod server;
mod telling;
mod trial;

use crate::measure::measure;
use crate::trial::try_messages;
use anyhow::Result;
use measuring::{Command, read_command};
use std::process::ExitCode;

fn main(rt: HostRuntime) -> Result<ExitCode> {
    let Some(command) = read_command(&rt)? else {
        eprintln!(rt; "usage: node_bench [measure SECONDS]")?;
        return Ok(ExitCode::FAILURE);
    };
    match command {
        Command::Try => try_messages(&rt)?,
        Command::Measure { seconds } => measure(&rt, seconds)?,
    }
    Ok(ExitCode::SUCCESS)
}

#[cfg(test)]
mod tests;
