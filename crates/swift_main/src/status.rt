//! How the program ends.

ghost use Rattle.std.specs.Prelude.{◌≡◌, ◌++◌, OnOk, OnErr};
ghost use Rattle.swift_main.specs.Outcome.{last_line, status_code};
ghost use Rattle.swift_main.specs.Serving.{status_of_end};

use std::alloc::Global;
use sw_ring::RingFault;
use sw_script::LineFault;
use sw_server::ServeEnd;
use sw_types::{Bytes, NoMemory};

/// How the program ends, with its exit status and its last line.
#[derive(Clone, Copy, Debug, PartialEq, Eq)]
pub enum Status {
    /// 0: the input was read to its end, and each line was done.
    Done,
    /// 1, and the usage: the words are not a command.
    Usage,
    /// 2, and `ring: R`: the ring breaks the rule of this number, and none that is tried before it.
    Ring(RingFault),
    /// 3, and `line L: F`: this line of the script has this fault.
    Line { line: u64, fault: LineFault },
    /// 4: memory was refused.
    NoMemory,
    /// 5: the input failed.
    ReadFault,
    /// 6: the output failed.
    WriteFault,
    /// 7: the shelf failed, before `ready`.
    ShelfFault,
    /// 8: the doors failed.
    DoorFault,
    /// 9, and `line L: stamps spent`: this line of the script was to draw a stamp after the last one there is.
    Spent { line: u64 },
    /// 10, and `input too long`: the input has more than 67,108,864 bytes.
    TooLong,
}

impl Status {
    /// The exit status.
    pub fn code(self) -> u8
        ensures { result ≡ status_code self }
    {
        match self {
            Status::Done => 0,
            Status::Usage => 1,
            Status::Ring(_) => 2,
            Status::Line { .. } => 3,
            Status::NoMemory => 4,
            Status::ReadFault => 5,
            Status::WriteFault => 6,
            Status::ShelfFault => 7,
            Status::DoorFault => 8,
            Status::Spent { .. } => 9,
            Status::TooLong => 10,
        }
    }

    /// The status of a server's end.
    pub fn of_end(end: ServeEnd) -> Status
        ensures { result ≡ status_of_end end }
    {
        match end {
            ServeEnd::Closed { .. } => Status::Done,
            ServeEnd::NoMemory => Status::NoMemory,
            ServeEnd::WriteFault => Status::WriteFault,
            ServeEnd::ShelfFault => Status::ShelfFault,
            ServeEnd::DoorFault => Status::DoorFault,
        }
    }

    /// Adds the last line to the text, where there is one. After an `Err` the text is as before.
    pub fn print(self, alloc: Global, text: &mut Bytes) -> Result<(), NoMemory>
        ensures ok { OnOk result (text.new ≡ text.old ++ last_line self) }
        ensures err { OnErr result (text.new ≡ text.old) }
    {
        match self {
            Status::Usage => {
                text.extend_from_slice(b"usage: play | serve PORT WORKERS | load N\n")
            }
            Status::Ring(fault) => print_ring_fault(alloc, fault, text),
            Status::Line { line, fault } => print_fault(alloc, line, fault, text),
            Status::Spent { line } => print_spent(alloc, line, text),
            Status::TooLong => text.extend_from_slice(b"input too long\n"),
            Status::Done
            | Status::NoMemory
            | Status::ReadFault
            | Status::WriteFault
            | Status::ShelfFault
            | Status::DoorFault => Ok(()),
        }
    }
}

// Adds the line of a faulty ring to the text.
fn print_ring_fault(alloc: Global, fault: RingFault, text: &mut Bytes) -> Result<(), NoMemory>
    ensures ok { OnOk result (text.new ≡ text.old ++ last_line (Status.Ring fault)) }
    ensures err { OnErr result (text.new ≡ text.old) }
{
    let number = fault.number();
    let last = format!(in alloc; "ring: {number}\n")?;
    text.extend_from_slice(last.as_bytes())
}

// Adds the line of a faulty line to the text.
fn print_fault(alloc: Global, line: u64, fault: LineFault, text: &mut Bytes) -> Result<(), NoMemory>
    ensures ok { OnOk result (text.new ≡ text.old ++ last_line (Status.Line line fault)) }
    ensures err { OnErr result (text.new ≡ text.old) }
{
    let number = fault.number();
    let last = format!(in alloc; "line {line}: {number}\n")?;
    text.extend_from_slice(last.as_bytes())
}

// Adds the line of a line that found the stamps spent to the text.
fn print_spent(alloc: Global, line: u64, text: &mut Bytes) -> Result<(), NoMemory>
    ensures ok { OnOk result (text.new ≡ text.old ++ last_line (Status.Spent line)) }
    ensures err { OnErr result (text.new ≡ text.old) }
{
    let last = format!(in alloc; "line {line}: stamps spent\n")?;
    text.extend_from_slice(last.as_bytes())
}
