//! `load`: a workload runs over nodes in memory.

ghost use Rattle.std.specs.Prelude.{◌≡◌, Err, IfErr, IfOk, length, nat_lt};
ghost use Rattle.sw_words.specs.Memory.{UnlessMemory};
ghost use Rattle.sw_ring.specs.Cluster.{ring_of};
ghost use Rattle.swift_main.specs.Input.{ring_text};
ghost use Rattle.swift_main.specs.Loading.{InputLoaded, Loads, SummarizesRing};
ghost use Rattle.swift_main.specs.Outcome.{greatest_input};

use crate::input::{GREATEST_INPUT, read_input, read_ring};
use crate::status::Status;
use crate::writing::{tell, write_text};
use std::alloc::Global;
use sw_io::{Sink, Source};
use sw_load::load;
use sw_ring::RingFault;
use sw_types::Bytes;

/// Loads: reads the ring, which is the whole input, runs the workload of so many steps over its nodes, and writes how its operations ended.
pub(crate) fn load_from<S: Source, O: Sink>(
    alloc: Global,
    steps: u32,
    input: &mut S,
    output: &mut O,
) -> Status
    ensures { Loads steps (record { written = O.written output.old; faults = O.faults output.old }) (record { written = O.written output.new; faults = O.faults output.new })
        (record { left = S.remaining input.old; faults = S.faults input.old }) (record { left = S.remaining input.new; faults = S.faults input.new }) result }
{
    match read_input(alloc, input) {
        Ok(ring) => load_ring(alloc, steps, &ring, output),
        Err(status) => status,
    }
}

// Runs it over the nodes of a ring's text.
fn load_ring<O: Sink>(alloc: Global, steps: u32, ring: &[u8], output: &mut O) -> Status
    ensures { InputLoaded steps (record { written = O.written output.old; faults = O.faults output.old }) (record { written = O.written output.new; faults = O.faults output.new })
        (nat_lt greatest_input (length ring.now)) ring.now result }
{
    if ring.len() > GREATEST_INPUT {
        return tell(alloc, output, Status::TooLong);
    }
    match summarize(alloc, steps, ring) {
        Ok(text) => write_text(output, Status::Done, text.as_slice()),
        Err(RingFault::NoMemory) => Status::NoMemory,
        Err(fault) => tell(alloc, output, Status::Ring(fault)),
    }
}

// The text of the summary of a run over the nodes of a ring's text.
fn summarize(alloc: Global, steps: u32, ring: &[u8]) -> Result<Bytes, RingFault>
    ensures text { IfOk result (SummarizesRing steps (ring_of (ring_text ring.now))) }
    ensures fault { IfErr result (λ fault. UnlessMemory RingFault.NoMemory fault (ring_of (ring_text ring.now) ≡ Err fault)) }
{
    let cluster = read_ring(alloc, ring)?;
    let summary = load(alloc, &cluster, steps)?;
    Ok(summary.print(alloc)?)
}
