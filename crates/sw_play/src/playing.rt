//! A whole script over a world.

ghost use Rattle.std.specs.Prelude.{◌≡◌, ◌≤◌, ◌⊎◌, true, IfErr, OnErr, OnOk, length};
ghost use Rattle.sw_play.specs.Lines.{DoesLine, StopsEvent, StopsLine, TellsEvent, stop_of};
ghost use Rattle.sw_play.specs.Play.{Played, greatest_script};
ghost use Rattle.sw_sim_world.specs.ScriptedWorld.{ScriptedWorld};
ghost use Rattle.sw_sim_world.specs.Standing.{StandsFor};
ghost use Rattle.sw_script.specs.Line.{lines_of};

use std::alloc::Global;
use sw_script::{Event, LineFault, cut_at};
use sw_sim_text::print_told;
use sw_sim_world::{StepFault, World};
use sw_types::{Bytes, NoMemory};

/// The greatest number of bytes of a script.
pub const GREATEST_SCRIPT: usize = 67_108_864;

/// How a script ended.
#[derive(Clone, Copy, Debug, PartialEq, Eq)]
pub enum PlayEnd {
    /// Each line was done.
    Done,
    /// This line is faulty, counted from 1. The lines before it were done, and none after it.
    Line { line: u64, fault: LineFault },
    /// This line was to draw a stamp when the last one there is was drawn. The lines before it were done, and none after it.
    Spent { line: u64 },
    NoMemory,
}

/// Does the events of a script's lines, up to the first faulty one, and adds to the text what is told of them.
///
/// From a world that stands for one, there is a story of what was done: the basic events of each line, and the worlds that they led to.
/// The text that was added is that of the story, each found object in it is one put's, what was acknowledged is kept (`KeepsWord`),
/// and operations beside which nothing steps end in full (`EndsInFull`). After want of memory the world answers so from then on.
pub fn play(alloc: Global, input: &[u8], world: &mut World<'_>, text: &mut Bytes) -> PlayEnd
    requires { length input.now ≤ greatest_script }
    ensures played { (before : ScriptedWorld) → StandsFor world.old before → Played before (lines_of input.now) result world.new text.old text.new }
    ensures wanted { world.old.is_wanting ≡ true → (result ≡ PlayEnd.NoMemory) × (world.new.is_wanting ≡ true) × (text.new ≡ text.old) }
    ensures cluster { world.new.cluster ≡ world.old.cluster }
{
    if world.is_wanting() {
        return PlayEnd::NoMemory;
    }
    let mut left = Some(input);
    let mut number = 0;
    'lines: while let Some(script) = left {
        let (line, rest) = cut_at(b'\n', script);
        number += 1;
        match do_line(alloc, line, world, text) {
            Ok(()) => left = rest,
            Err(LineStop::Fault(fault)) => {
                return PlayEnd::Line {
                    line: number,
                    fault,
                };
            }
            Err(LineStop::Spent) => return PlayEnd::Spent { line: number },
            Err(LineStop::NoMemory) => return PlayEnd::NoMemory,
        }
    }
    PlayEnd::Done
}

// Why a script stops at a line.
#[derive(Clone, Copy, Debug, PartialEq, Eq)]
enum LineStop {
    Fault(LineFault),
    Spent,
    NoMemory,
}

impl From<StepFault> for LineStop {
    ghost from_gives = { λ fault stop. stop ≡ stop_of fault };

    fn from(fault: StepFault) -> LineStop {
        match fault {
            StepFault::NoSuchMessage => LineStop::Fault(LineFault::NoMessage),
            StepFault::NoSuchDevice => LineStop::Fault(LineFault::NoDevice),
            StepFault::NoSuchOperation => LineStop::Fault(LineFault::NoOperation),
            StepFault::StampsSpent => LineStop::Spent,
            StepFault::NoMemory => LineStop::NoMemory,
        }
    }
}

// Does the event of a line, if it tells one, and adds what is told of it to the text.
fn do_line(
    alloc: Global,
    line: &[u8],
    world: &mut World<'_>,
    text: &mut Bytes,
) -> Result<(), LineStop>
    ensures ok { (before : ScriptedWorld) → StandsFor world.old before → OnOk result (DoesLine before line.now world.new text.old text.new) }
    ensures stops { (before : ScriptedWorld) → StandsFor world.old before → IfErr result (λ stop. StopsLine before line.now stop world.old world.new) }
    ensures wants { IfErr result (λ stop. stop ≡ LineStop.NoMemory → world.new.is_wanting ≡ true) }
    ensures text { OnErr result (text.new ≡ text.old) }
    ensures cluster { world.new.cluster ≡ world.old.cluster }
{
    match Event::read(alloc, line) {
        Ok(Some(event)) => do_event(alloc, &event, world, text),
        Ok(None) => Ok(()),
        Err(LineFault::NoMemory) => {
            world.give_up();
            Err(LineStop::NoMemory)
        }
        Err(fault) => Err(LineStop::Fault(fault)),
    }
}

// Does an event, and adds what is told of it to the text.
fn do_event(
    alloc: Global,
    event: &Event,
    world: &mut World<'_>,
    text: &mut Bytes,
) -> Result<(), LineStop>
    ensures ok { (before : ScriptedWorld) → StandsFor world.old before → OnOk result (TellsEvent before event.now world.new text.old text.new) }
    ensures stops { (before : ScriptedWorld) → StandsFor world.old before → IfErr result (λ stop. StopsEvent before event.now stop world.old world.new) }
    ensures wants { IfErr result (λ stop. stop ≡ LineStop.NoMemory → world.new.is_wanting ≡ true) }
    ensures text { OnErr result (text.new ≡ text.old) }
    ensures cluster { world.new.cluster ≡ world.old.cluster }
{
    let told = world.step(event)?;
    match print_told(alloc, &told, text) {
        Ok(()) => Ok(()),
        Err(NoMemory) => {
            world.give_up();
            Err(LineStop::NoMemory)
        }
    }
}
