//! What the words of the command line ask for.

ghost use Rattle.std.specs.Prelude.{◌≡◌, ◌<◌, ◌≤◌, ◌^◌, ℕ, [], Some, IfSome, map, drop, string_bytes};
ghost use Rattle.std.specs.Fmt.{decimal};
ghost use Rattle.sw_types.specs.Object.{greatest_body};
ghost use Rattle.measuring.specs.Command.{measure_words};
ghost use Rattle.archive_bench.specs.Task.{IsWithin, put_words, task_words};

use measuring::{Command, command_of};
use sw_types::{Object, read_decimal};

/// A task: a command that all programs that measure have, or with `put LENGTH` to make the archives of one body of so many
/// bytes as a put does.
#[derive(Clone, Copy, Debug)]
pub enum Task {
    Shared(Command),
    Put { length: usize },
}

/// The task that these words ask for, if they do. The first word is the program's name.
pub fn task_of(words: &[String]) -> Option<Task>
    ensures found { IfSome result (λ task. drop 1 (map (λ word. string_bytes word) words.now) ≡ task_words task) }
    ensures within { IfSome result IsWithin }
    ensures tries { drop 1 (map (λ word. string_bytes word) words.now) ≡ [] → result ≡ Some (Task.Shared Command.Try) }
    ensures measures { (seconds : ℕ) → seconds < 2 ^ 64 →
        drop 1 (map (λ word. string_bytes word) words.now) ≡ measure_words seconds → result ≡ Some (Task.Shared (Command.Measure seconds)) }
    ensures puts { (length : ℕ) → length ≤ greatest_body →
        drop 1 (map (λ word. string_bytes word) words.now) ≡ put_words length → result ≡ Some (Task.Put length) }
{
    if let Some(length) = length_to_put(words) {
        return Some(Task::Put { length });
    }
    let command = command_of(words)?;
    Some(Task::Shared(command))
}

// The length of the body whose archives are to be made, if these words ask for that.
fn length_to_put(words: &[String]) -> Option<usize>
    ensures found { IfSome result (λ length. drop 1 (map (λ word. string_bytes word) words.now) ≡ put_words length) }
    ensures within { IfSome result (λ length. length ≤ greatest_body) }
    ensures puts { (length : ℕ) → length ≤ greatest_body →
        drop 1 (map (λ word. string_bytes word) words.now) ≡ put_words length → result ≡ Some length }
{
    if words.len() == 3 && words[1].as_str() == "put" {
        let length = body_length(words[2].as_bytes())?;
        return Some(length);
    }
    None
}

// The length of a body that this text spells, if it spells one.
fn body_length(text: &[u8]) -> Option<usize>
    ensures found { IfSome result (λ length. text.now ≡ decimal length) }
    ensures within { IfSome result (λ length. length ≤ greatest_body) }
    ensures reads { (length : ℕ) → length ≤ greatest_body → text.now ≡ decimal length → result ≡ Some length }
{
    let number = read_decimal(text)?;
    if number <= Object::GREATEST_BODY as u64 {
        Some(number as usize)
    } else {
        None
    }
}
