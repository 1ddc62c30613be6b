//! Tries and measures archives. With no arguments it makes the archives of a small object in each of three codes, and reads
//! the object back from them. With `measure SECONDS` it prints what archives of larger objects cost, step by step, and how
//! much of it MD5 and the code's products take. With `put LENGTH` it makes the archives of one body as a put does, and prints
//! how long each is, so that what memory that takes can be measured.
#![tactic(auto)]

ghost use Rattle.std.specs.Prelude.{IfOk, IfSome};
ghost use Rattle.archive_bench.specs.Task.{IsWithin};

mod alone;
mod archives;
mod cost;
mod making;
mod measure;
mod put;
mod single;
mod task;
mod trial;

use crate::cost::print_header;
use crate::measure::measure;
use crate::single::print_lengths;
use crate::task::{Task, task_of};
use crate::trial::try_code;
use anyhow::Result;
use measuring::{Command, read_words};
use std::process::ExitCode;
use std::rt::Env;
use std::time::CpuClock;
use sw_cauchy::Code;

fn main(rt: HostRuntime) -> Result<ExitCode> {
    let Some(task) = read_task(&rt)? else {
        eprintln!(rt; "usage: archive_bench [measure SECONDS | put LENGTH]")?;
        return Ok(ExitCode::FAILURE);
    };
    match task {
        Task::Shared(command) => run(&rt, command)?,
        Task::Put { length } => print_lengths(&rt, Code::new(10, 4), length)?,
    }
    Ok(ExitCode::SUCCESS)
}

// The task of the command line: none where the line is faulty.
fn read_task(rt: &(impl Env + AllocGlobal)) -> Result<Option<Task>>
    ensures { IfOk result (λ found. IfSome found IsWithin) }
{
    let Some(words) = read_words(rt)? else {
        return Ok(None);
    };
    Ok(task_of(&words))
}

// Tries the codes, or measures them.
fn run(rt: &(impl Print + CpuClock + AllocGlobal), command: Command) -> Result<()> {
    let codes = [Code::new(2, 1), Code::new(4, 2), Code::new(10, 4)];
    match command {
        Command::Try => {
            for code in codes {
                try_code(rt, code)?;
            }
        }
        Command::Measure { seconds } => {
            print_header(rt)?;
            for code in codes {
                measure(rt, code, seconds)?;
            }
        }
    }
    Ok(())
}
