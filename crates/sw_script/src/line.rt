//! The reader of a line.

ghost use Rattle.std.specs.Prelude.{◌≡◌, ◌≤◌, Ok, Err, IfErr, IfOk, IsOk, Some, length};
ghost use Rattle.sw_words.specs.Memory.{UnlessMemory};
ghost use Rattle.sw_script.specs.Line.{crash_event, device_event, event_by, event_of, greatest_line, is_blank, job_by, lone_event, longer_event, longer_job, named_job, other_event, put_of, short_event, words_of};
ghost use Rattle.sw_script.specs.declared.event.Event.{Event as AnEvent};

use crate::name::read_name;
use crate::word::{object_fault, read_number, read_object, read_stamp};
use crate::words::{Words, words_in};
use crate::{Event, Job, LineFault, cut_at};
use std::alloc::Global;

/// The greatest number of bytes of a line, without its end.
pub const GREATEST_LINE: usize = 65_536;

impl Event {
    /// The event that a line tells, without the line's end: none where it is empty or begins with `#`. It takes memory, and may
    /// answer `NoMemory`, only where the line tells an event: a fault of its own is found without.
    pub fn read(alloc: Global, line: &[u8]) -> Result<Option<Event>, LineFault>
        ensures read { IfOk result (λ event. event_of line.now ≡ Ok event) }
        ensures fault { IfErr result (λ fault. UnlessMemory LineFault.NoMemory fault (event_of line.now ≡ Err fault)) }
        ensures memory { IfErr result (λ fault. fault ≡ LineFault.NoMemory → (event : AnEvent) × (event_of line.now ≡ Ok (Some event))) }
    {
        if line.len() > GREATEST_LINE {
            return Err(LineFault::TooLong);
        }
        if is_blank(line) {
            return Ok(None);
        }
        let event = read_event(alloc, line)?;
        Ok(Some(event))
    }
}

// Whether a line is empty or a comment.
fn is_blank(line: &[u8]) -> bool
    ensures { result ≡ is_blank line.now }
{
    match line.first() {
        Some(first) => *first == b'#',
        None => true,
    }
}

// The event of a line that is neither empty nor a comment.
fn read_event(alloc: Global, line: &[u8]) -> Result<Event, LineFault>
    requires { length line.now ≤ greatest_line }
    ensures read { IfOk result (λ event. event_by (words_of line.now) ≡ Ok event) }
    ensures fault { IfErr result (λ fault. UnlessMemory LineFault.NoMemory fault (event_by (words_of line.now) ≡ Err fault)) }
    ensures memory { IfErr result (λ fault. fault ≡ LineFault.NoMemory → IsOk (event_by (words_of line.now))) }
{
    let (verb, rest) = cut_at(b' ', line);
    if verb == b"start".as_slice() {
        return match rest {
            Some(rest) => Ok(Event::Start(read_job(alloc, rest)?)),
            None => Err(LineFault::Form),
        };
    }
    read_other_event(alloc, line)
}

// The event of a line that does not begin with `start`.
fn read_other_event(alloc: Global, line: &[u8]) -> Result<Event, LineFault>
    requires { length line.now ≤ greatest_line }
    ensures read { IfOk result (λ event. other_event (words_of line.now) ≡ Ok event) }
    ensures fault { IfErr result (λ fault. UnlessMemory LineFault.NoMemory fault (other_event (words_of line.now) ≡ Err fault)) }
    ensures memory { IfErr result (λ fault. fault ≡ LineFault.NoMemory → IsOk (other_event (words_of line.now))) }
{
    match words_in(line) {
        Words::One(word) => read_lone_word(word),
        Words::Two(verb, word) => read_short_event(alloc, verb, word),
        Words::Three(verb, first, second) => read_longer_event(alloc, verb, first, second),
        Words::Four(verb, message, calls, pick) => read_crash(verb, message, calls, pick),
        Words::More => Err(LineFault::Form),
    }
}

fn read_lone_word(word: &[u8]) -> Result<Event, LineFault>
    ensures { result ≡ lone_event word.now }
{
    if word == b"all".as_slice() {
        Ok(Event::All)
    } else {
        Err(LineFault::Form)
    }
}

fn read_short_event(alloc: Global, verb: &[u8], word: &[u8]) -> Result<Event, LineFault>
    ensures read { IfOk result (λ event. short_event verb.now word.now ≡ Ok event) }
    ensures fault { IfErr result (λ fault. UnlessMemory LineFault.NoMemory fault (short_event verb.now word.now ≡ Err fault)) }
    ensures memory { IfErr result (λ fault. fault ≡ LineFault.NoMemory → IsOk (short_event verb.now word.now)) }
{
    if verb == b"msg".as_slice() {
        return Ok(Event::Deliver(read_number(word)?));
    }
    if verb == b"giveup".as_slice() {
        return Ok(Event::GiveUp(read_number(word)?));
    }
    if verb == b"clock".as_slice() {
        return Ok(Event::SetClock(read_stamp(word)?));
    }
    read_device_event(alloc, verb, word)
}

fn read_device_event(alloc: Global, verb: &[u8], word: &[u8]) -> Result<Event, LineFault>
    ensures read { IfOk result (λ event. device_event verb.now word.now ≡ Ok event) }
    ensures fault { IfErr result (λ fault. UnlessMemory LineFault.NoMemory fault (device_event verb.now word.now ≡ Err fault)) }
    ensures memory { IfErr result (λ fault. fault ≡ LineFault.NoMemory → IsOk (device_event verb.now word.now)) }
{
    if verb == b"stop".as_slice() {
        return Ok(Event::Stop(read_number(word)?));
    }
    if verb == b"restart".as_slice() {
        return Ok(Event::Restart(read_number(word)?));
    }
    if verb == b"lose".as_slice() {
        return Ok(Event::Lose(read_number(word)?));
    }
    Ok(Event::Run(read_named_job(alloc, verb, word)?))
}

fn read_longer_event(
    alloc: Global,
    verb: &[u8],
    first: &[u8],
    second: &[u8],
) -> Result<Event, LineFault>
    requires { length second.now ≤ greatest_line }
    ensures read { IfOk result (λ event. longer_event verb.now first.now second.now ≡ Ok event) }
    ensures fault { IfErr result (λ fault. UnlessMemory LineFault.NoMemory fault (longer_event verb.now first.now second.now ≡ Err fault)) }
    ensures memory { IfErr result (λ fault. fault ≡ LineFault.NoMemory → IsOk (longer_event verb.now first.now second.now)) }
{
    if verb == b"show".as_slice() {
        let device = read_number(first)?;
        let name = read_name(alloc, second)?;
        return Ok(Event::Show { device, name });
    }
    Ok(Event::Run(read_longer_job(alloc, verb, first, second)?))
}

fn read_crash(verb: &[u8], message: &[u8], calls: &[u8], pick: &[u8]) -> Result<Event, LineFault>
    ensures read { IfOk result (λ event. crash_event verb.now message.now calls.now pick.now ≡ Ok event) }
    ensures fault { IfErr result (λ fault. crash_event verb.now message.now calls.now pick.now ≡ Err fault) }
{
    if verb != b"crash".as_slice() {
        return Err(LineFault::Form);
    }
    let message = read_number(message)?;
    let calls = read_number(calls)?;
    let pick = read_number(pick)?;
    Ok(Event::Crash {
        message,
        calls,
        pick,
    })
}

// The job of what stands behind `start`.
fn read_job(alloc: Global, text: &[u8]) -> Result<Job, LineFault>
    requires { length text.now ≤ greatest_line }
    ensures read { IfOk result (λ job. job_by (words_of text.now) ≡ Ok job) }
    ensures fault { IfErr result (λ fault. UnlessMemory LineFault.NoMemory fault (job_by (words_of text.now) ≡ Err fault)) }
    ensures memory { IfErr result (λ fault. fault ≡ LineFault.NoMemory → IsOk (job_by (words_of text.now))) }
{
    match words_in(text) {
        Words::Two(verb, word) => read_named_job(alloc, verb, word),
        Words::Three(verb, first, second) => read_longer_job(alloc, verb, first, second),
        Words::One(_) | Words::Four(_, _, _, _) | Words::More => Err(LineFault::Form),
    }
}

fn read_named_job(alloc: Global, verb: &[u8], word: &[u8]) -> Result<Job, LineFault>
    ensures read { IfOk result (λ job. named_job verb.now word.now ≡ Ok job) }
    ensures fault { IfErr result (λ fault. UnlessMemory LineFault.NoMemory fault (named_job verb.now word.now ≡ Err fault)) }
    ensures memory { IfErr result (λ fault. fault ≡ LineFault.NoMemory → IsOk (named_job verb.now word.now)) }
{
    if verb == b"get".as_slice() {
        return Ok(Job::Get(read_name(alloc, word)?));
    }
    if verb == b"head".as_slice() {
        return Ok(Job::Head(read_name(alloc, word)?));
    }
    if verb == b"del".as_slice() {
        return Ok(Job::Delete(read_name(alloc, word)?));
    }
    Err(LineFault::Form)
}

fn read_longer_job(
    alloc: Global,
    verb: &[u8],
    first: &[u8],
    second: &[u8],
) -> Result<Job, LineFault>
    requires { length second.now ≤ greatest_line }
    ensures read { IfOk result (λ job. longer_job verb.now first.now second.now ≡ Ok job) }
    ensures fault { IfErr result (λ fault. UnlessMemory LineFault.NoMemory fault (longer_job verb.now first.now second.now ≡ Err fault)) }
    ensures memory { IfErr result (λ fault. fault ≡ LineFault.NoMemory → IsOk (longer_job verb.now first.now second.now)) }
{
    if verb == b"put".as_slice() {
        return read_put(alloc, first, second);
    }
    if verb == b"recon".as_slice() {
        let device = read_number(first)?;
        let name = read_name(alloc, second)?;
        return Ok(Job::Recon { device, name });
    }
    Err(LineFault::Form)
}

// A put of a name and a body. Where memory is wanted for the name, the body's digits are still looked at.
fn read_put(alloc: Global, name: &[u8], body: &[u8]) -> Result<Job, LineFault>
    requires { length body.now ≤ greatest_line }
    ensures read { IfOk result (λ job. put_of name.now body.now ≡ Ok job) }
    ensures fault { IfErr result (λ fault. UnlessMemory LineFault.NoMemory fault (put_of name.now body.now ≡ Err fault)) }
    ensures memory { IfErr result (λ fault. fault ≡ LineFault.NoMemory → IsOk (put_of name.now body.now)) }
{
    match read_name(alloc, name) {
        Ok(name) => {
            let object = read_object(alloc, body)?;
            Ok(Job::Put { name, object })
        }
        Err(LineFault::NoMemory) => Err(object_fault(body)),
        Err(fault) => Err(fault),
    }
}
