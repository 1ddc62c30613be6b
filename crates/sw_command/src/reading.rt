//! The words of a command line.

ghost use Rattle.std.specs.Prelude.{◌≡◌, ◌≤◌, Bool, true, map, option_map, IfOk, IfSome, is_some, string_bytes};
ghost use Rattle.clap.specs.Words.{app_of, fault_of, first_value, found_of, is_simple_and_free};
ghost use Rattle.clap.specs.Simple.{HasMatchesOf};
ghost use Rattle.sw_command.specs.Words.{IsInRange, are_matches, command_in, greatest_port, load_in, load_of, most_workers, number_in, number_of, play_in, serve_in, serve_of};

use crate::Command;
use clap::error::ErrorKind;
use clap::{Arg, ArgMatches};
use std::alloc::Global;
use sw_types::{NoMemory, read_decimal};

/// The greatest port.
const GREATEST_PORT: u32 = 65_535;

/// The greatest number of workers that serve connections.
const MOST_WORKERS: u32 = 16;

/// The greatest number of steps of a workload.
const MOST_STEPS: u32 = 100_000;

/// The command that the words of a command line ask for, the program's name first among them, if they ask for one.
pub fn read_command(alloc: Global, words: &[String]) -> Result<Option<Command>, NoMemory>
    ensures command { IfOk result (λ command. command ≡ command_in (map (λ word. string_bytes word) words.now)) }
    ensures range { IfOk result (λ command. IfSome command IsInRange) }
{
    if words.len() < 2 {
        return Ok(None);
    }
    match words[1].as_str() {
        "play" => read_play(alloc, &words[1..]),
        "serve" => read_serve(alloc, &words[1..]),
        "load" => read_load(alloc, &words[1..]),
        _ => Ok(None),
    }
}

// What `play`, first among the words, asks for.
fn read_play(alloc: Global, words: &[String]) -> Result<Option<Command>, NoMemory>
    ensures command { IfOk result (λ command. command ≡ play_in (map (λ word. string_bytes word) words.now)) }
    ensures range { IfOk result (λ command. IfSome command IsInRange) }
{
    let command = clap::Command::new(alloc, "play").disable_help_flag(true);
    match matches_in(command, words)? {
        Some(_) => Ok(Some(Command::Play)),
        None => Ok(None),
    }
}

// What `serve`, first among the words, asks for.
fn read_serve(alloc: Global, words: &[String]) -> Result<Option<Command>, NoMemory>
    ensures command { IfOk result (λ command. command ≡ serve_in (map (λ word. string_bytes word) words.now)) }
    ensures range { IfOk result (λ command. IfSome command IsInRange) }
{
    let port = Arg::new(alloc, "PORT").required(true);
    let workers = Arg::new(alloc, "WORKERS").required(true);
    let command = clap::Command::new(alloc, "serve")
        .disable_help_flag(true)
        .arg(port)?
        .arg(workers)?;
    let Some(matches) = matches_in(command, words)? else {
        return Ok(None);
    };
    let port = number_in(matches.get_str("PORT"), GREATEST_PORT);
    let workers = number_in(matches.get_str("WORKERS"), MOST_WORKERS);
    Ok(serve_of(port, workers))
}

// What `load`, first among the words, asks for.
fn read_load(alloc: Global, words: &[String]) -> Result<Option<Command>, NoMemory>
    ensures command { IfOk result (λ command. command ≡ load_in (map (λ word. string_bytes word) words.now)) }
    ensures range { IfOk result (λ command. IfSome command IsInRange) }
{
    let number = Arg::new(alloc, "N").required(true);
    let command = clap::Command::new(alloc, "load")
        .disable_help_flag(true)
        .arg(number)?;
    let Some(matches) = matches_in(command, words)? else {
        return Ok(None);
    };
    Ok(load_of(number_in(matches.get_str("N"), MOST_STEPS)))
}

// The matches of a command in words, if they are matches of it.
fn matches_in<'a>(
    command: clap::Command<'a>,
    words: &'a [String],
) -> Result<Option<ArgMatches<'a>>, NoMemory>
    requires { is_simple_and_free (app_of command) ≡ true }
    ensures are { IfOk result (λ found. is_some found ≡ are_matches (app_of command.entry) (map (λ word. string_bytes word) words.now)) }
    ensures matches { IfOk result (λ found. IfSome found (HasMatchesOf (app_of command.entry) (map (λ word. string_bytes word) words.now))) }
{
    match command.try_get_matches_from(words) {
        Ok(matches) => Ok(Some(matches)),
        Err(error) => match error.kind() {
            ErrorKind::OutOfMemory => Err(NoMemory),
            _ => Ok(None),
        },
    }
}

// The number from 1 up to the greatest one whose decimal a text is, where there is one.
fn number_in(text: Option<&str>, most: u32) -> Option<u32>
    ensures number { result ≡ number_in most (option_map (λ bytes. bytes.now) text.entry) }
    ensures range { IfSome result (λ number. (1 ≤ number) × (number ≤ most)) }
{
    number_of(text?.as_bytes(), most)
}

// The number from 1 up to the greatest one whose decimal a text is.
fn number_of(text: &[u8], most: u32) -> Option<u32>
    ensures number { result ≡ number_of most text.now }
    ensures range { IfSome result (λ number. (1 ≤ number) × (number ≤ most)) }
{
    let number = read_decimal(text)?;
    if number < 1 || number > u64::from(most) {
        return None;
    }
    u32::try_from(number).ok()
}

// Serving with these numbers, where there are both.
fn serve_of(port: Option<u32>, workers: Option<u32>) -> Option<Command>
    requires port { IfSome port (λ number. number ≤ greatest_port) }
    requires workers { IfSome workers (λ number. number ≤ most_workers) }
    ensures { result ≡ serve_of port workers }
{
    Some(Command::Serve {
        port: port? as u16,
        workers: workers? as u16,
    })
}

// A workload of this number of steps, where there is one.
fn load_of(steps: Option<u32>) -> Option<Command>
    ensures { result ≡ load_of steps }
{
    Some(Command::Load { steps: steps? })
}
