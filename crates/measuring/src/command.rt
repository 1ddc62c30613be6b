//! What the words of the command line ask for.

ghost use Rattle.std.specs.Prelude.{◌≡◌, ◌<◌, ◌^◌, ℕ, [], ◌∷◌, Some, IfSome, map, drop, string_bytes};
ghost use Rattle.measuring.specs.Command.{measure_words, words_of};

use anyhow::Result;
use std::env;
use std::rt::Env;
use sw_types::read_decimal;

/// A command: with no words to try what is measured, with `measure SECONDS` to measure them.
#[derive(Clone, Copy, Debug)]
pub enum Command {
    Try,
    Measure { seconds: u64 },
}

/// The command that these words ask for, if they do. The first word is the program's name.
pub fn command_of(words: &[String]) -> Option<Command>
    ensures found { IfSome result (λ command. drop 1 (map (λ word. string_bytes word) words.now) ≡ words_of command) }
    ensures tries { drop 1 (map (λ word. string_bytes word) words.now) ≡ [] → result ≡ Some Command.Try }
    ensures measures { (seconds : ℕ) → seconds < 2 ^ 64 →
        drop 1 (map (λ word. string_bytes word) words.now) ≡ measure_words seconds → result ≡ Some (Command.Measure seconds) }
{
    if words.len() <= 1 {
        return Some(Command::Try);
    }
    if words.len() == 3 && words[1].as_str() == "measure" {
        let seconds = read_decimal(words[2].as_bytes())?;
        return Some(Command::Measure { seconds });
    }
    None
}

/// The words of the command line, the program's name first: none where they are not UTF-8.
pub fn read_words(rt: &(impl Env + AllocGlobal)) -> Result<Option<Vec<String>>> {
    let Ok(words) = env::args(rt) else {
        return Ok(None);
    };
    Ok(Some(words.collect(rt.alloc())?))
}

/// The command of the command line: none where the line is faulty, as one is whose words are not UTF-8.
pub fn read_command(rt: &(impl Env + AllocGlobal)) -> Result<Option<Command>> {
    let Some(words) = read_words(rt)? else {
        return Ok(None);
    };
    Ok(command_of(&words))
}
