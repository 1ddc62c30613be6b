//! Tries and measures the files of archives on a disk in memory. With no arguments it stops each change of a folder after
//! each of its device calls, crashes the disk, and prints what the folder then holds. With `measure SECONDS` it prints what
//! storing and committing an archive cost, in folders of few files and many, on disks of few folders and many, and after
//! few changes and many.
#![tactic(auto)]

mod changes;
mod folder;
mod measure;
mod trial;

use crate::measure::measure;
use crate::trial::try_changes;
use anyhow::Result;
use measuring::{Command, read_command};
use std::process::ExitCode;

fn main(rt: HostRuntime) -> Result<ExitCode> {
    let Some(command) = read_command(&rt)? else {
        eprintln!(rt; "usage: disk_bench [measure SECONDS]")?;
        return Ok(ExitCode::FAILURE);
    };
    match command {
        Command::Try => try_changes(&rt)?,
        Command::Measure { seconds } => measure(&rt, seconds)?,
    }
    Ok(ExitCode::SUCCESS)
}

#[cfg(test)]
mod tests;
