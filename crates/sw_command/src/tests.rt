//! Words of command lines.

use crate::{Command, read_command};
use std::alloc::{AllocError, Global};
use std::process::Abort;
use std::test::Fail;

// The words of a command line: the program's name, and these.
fn command_line(alloc: Global, words: &[&str]) -> Result<Vec<String>, AllocError> {
    let mut line = Vec::new(alloc);
    line.push(String::from_str(alloc, "swift_main")?)?;
    for word in words {
        line.push(String::from_str(alloc, word)?)?;
    }
    Ok(line)
}

fn expect(
    rt: &impl Abort,
    alloc: Global,
    words: &[&str],
    want: Option<Command>,
) -> Result<(), Fail> {
    let line = command_line(alloc, words)?;
    assert_eq!(rt; read_command(alloc, &line)?, want, "of {words:?}");
    Ok(())
}

#[test]
fn reads_commands(rt: HostRuntime) -> Result<(), Fail> {
    let alloc = rt.alloc();
    assert_eq!(rt; read_command(alloc, &[])?, None);
    expect(&rt, alloc, &["play"], Some(Command::Play))?;
    let serve = |port, workers| Some(Command::Serve { port, workers });
    expect(&rt, alloc, &["serve", "8080", "1"], serve(8080, 1))?;
    expect(&rt, alloc, &["serve", "65535", "16"], serve(65_535, 16))?;
    expect(&rt, alloc, &["serve", "1", "--", "1"], serve(1, 1))?;
    let load = |steps| Some(Command::Load { steps });
    expect(&rt, alloc, &["load", "1"], load(1))?;
    expect(&rt, alloc, &["load", "100000"], load(100_000))?;
    let others: [&[&str]; 20] = [
        &[],
        &[""],
        &["Play"],
        &["play", "x"],
        &["play", "--help"],
        &["play", "-h"],
        &["load"],
        &["load", "0"],
        &["load", "100001"],
        &["load", "1", "1"],
        &["serve"],
        &["serve", "8080"],
        &["serve", "8080", "1", "1"],
        &["serve", "8080", "17"],
        &["serve", "8080", "0"],
        &["serve", "0", "1"],
        &["serve", "65536", "1"],
        &["serve", "+80", "1"],
        &["serve", "080", "1"],
        &["serve", "-1", "1"],
    ];
    for words in others {
        expect(&rt, alloc, words, None)?;
    }
    Ok(())
}
