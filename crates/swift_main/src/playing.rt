//! `play`: scripts are run over nodes in memory.

ghost use Rattle.std.specs.Prelude.{◌≡◌, ◌≤◌, ◌++◌, Err, IfErr, IfOk, length};
ghost use Rattle.sw_words.specs.Memory.{UnlessMemory};
ghost use Rattle.sw_play.specs.Play.{greatest_script};
ghost use Rattle.sw_sim_world.specs.Standing.{StandsFor};
ghost use Rattle.sw_sim_world.specs.ScriptedWorld.{empty_script};
ghost use Rattle.sw_ring.specs.Cluster.{ring_of};
ghost use Rattle.swift_main.specs.Answer.{IsAnswer, IsAnswerBy, IsLastLine};
ghost use Rattle.swift_main.specs.Input.{ring_text};
ghost use Rattle.swift_main.specs.Outcome.{RingGives, ScriptGives, last_line};
ghost use Rattle.swift_main.specs.Playing.{Plays};

use crate::input::{GREATEST_INPUT, at_empty_line, read_input, read_ring};
use crate::status::Status;
use crate::writing::write_text;
use std::alloc::Global;
use sw_io::{Sink, Source};
use sw_play::{PlayEnd, play};
use sw_ring::RingFault;
use sw_sim_world::World;
use sw_types::{Bytes, NoMemory};

/// A status and all that is to be written.
#[derive(Debug, Drop)]
pub struct Answer {
    pub status: Status,
    pub text: Bytes,
}

/// Plays: reads the whole input, runs its script over the nodes of its ring, and writes what is told.
pub(crate) fn play_from<S: Source, O: Sink>(alloc: Global, input: &mut S, output: &mut O) -> Status
    ensures { Plays (record { left = S.remaining input.old; faults = S.faults input.old }) (record { left = S.remaining input.new; faults = S.faults input.new })
        (record { written = O.written output.old; faults = O.faults output.old }) (record { written = O.written output.new; faults = O.faults output.new }) result }
{
    match read_input(alloc, input) {
        Ok(whole) => {
            let answer = answer_input(alloc, &whole);
            write_text(output, answer.status, answer.text.as_slice())
        }
        Err(status) => status,
    }
}

// The answer to a whole input. Where memory was refused, its text is what is told of some first events, each whole.
fn answer_input(alloc: Global, input: &[u8]) -> Answer
    ensures { IsAnswer input.now result }
{
    if input.len() > GREATEST_INPUT {
        return last_line_alone(alloc, Status::TooLong);
    }
    let (ring, script) = at_empty_line(input);
    match run_input(alloc, ring, script) {
        Ok(answer) => answer,
        Err(RingFault::NoMemory) => last_line_alone(alloc, Status::NoMemory),
        Err(fault) => last_line_alone(alloc, Status::Ring(fault)),
    }
}

// The answer to a script over a fresh world of the ring before it.
fn run_input(alloc: Global, ring: &[u8], script: &[u8]) -> Result<Answer, RingFault>
    requires { length script.now ≤ greatest_script }
    ensures answer { IfOk result (IsAnswerBy (RingGives (ring_of (ring_text ring.now)) script.now)) }
    ensures fault { IfErr result (λ fault. UnlessMemory RingFault.NoMemory fault (ring_of (ring_text ring.now) ≡ Err fault)) }
{
    let cluster = read_ring(alloc, ring)?;
    let mut world = World::new(alloc, &cluster)?;
    Ok(run_script(alloc, script, &mut world))
}

// The answer of a status that nothing is told with.
fn last_line_alone(alloc: Global, status: Status) -> Answer
    ensures { IsLastLine status result }
{
    finish(alloc, status, Bytes::new(alloc))
}

// The answer to a script over a fresh world.
fn run_script(alloc: Global, script: &[u8], world: &mut World<'_>) -> Answer
    requires { length script.now ≤ greatest_script }
    ensures { StandsFor world.old (empty_script world.old.cluster) → IsAnswerBy (ScriptGives world.old.cluster script.now) result }
{
    let mut text = Bytes::new(alloc);
    match play(alloc, script, world, &mut text) {
        PlayEnd::Done => finish(alloc, Status::Done, text),
        PlayEnd::Line { line, fault } => finish(alloc, Status::Line { line, fault }, text),
        PlayEnd::Spent { line } => finish(alloc, Status::Spent { line }, text),
        PlayEnd::NoMemory => finish(alloc, Status::NoMemory, text),
    }
}

// The answer of a status and the text before its last line.
fn finish(alloc: Global, status: Status, text: Bytes) -> Answer
    ensures done { UnlessMemory Status.NoMemory result.status ((result.status ≡ status) × (result.text ≡ text ++ last_line status)) }
    ensures no_memory { result.status ≡ Status.NoMemory → result.text ≡ text }
{
    let mut text = text;
    match status.print(alloc, &mut text) {
        Ok(()) => Answer { status, text },
        Err(NoMemory) => Answer {
            status: Status::NoMemory,
            text,
        },
    }
}
