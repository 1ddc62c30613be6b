//! What is written at the end of a run.

ghost use Rattle.std.specs.Prelude.{◌≡◌};
ghost use Rattle.swift_main.specs.Writing.{Tells, Writes};

use crate::status::Status;
use std::alloc::Global;
use sw_io::{Sink, write_all};
use sw_types::{Bytes, NoMemory};

/// Writes the text of an answer, and answers its status, or that writing failed.
pub(crate) fn write_text<O: Sink>(output: &mut O, answer: Status, text: &[u8]) -> Status
    ensures { Writes answer text.now (record { written = O.written output.old; faults = O.faults output.old }) (record { written = O.written output.new; faults = O.faults output.new }) result }
{
    match write_all(output, text) {
        Ok(()) => answer,
        Err(_) => Status::WriteFault,
    }
}

/// Writes the last line of an answer that nothing else is told with.
pub(crate) fn tell<O: Sink>(alloc: Global, output: &mut O, answer: Status) -> Status
    ensures { Tells answer (record { written = O.written output.old; faults = O.faults output.old }) (record { written = O.written output.new; faults = O.faults output.new }) result }
{
    let mut text = Bytes::new(alloc);
    match answer.print(alloc, &mut text) {
        Ok(()) => write_text(output, answer, text.as_slice()),
        Err(NoMemory) => Status::NoMemory,
    }
}
