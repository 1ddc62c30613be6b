//! The whole input, and its parts.

ghost use Rattle.std.specs.Prelude.{◌≡◌, ◌+◌, true, Ok, Err, IfErr, IfOk};
ghost use Rattle.sw_words.specs.Memory.{UnlessMemory};
ghost use Rattle.sw_ring.specs.Cluster.{IsCluster, KeepsRules, ring_of};
ghost use Rattle.sw_ring.specs.Members.{RingMembers};
ghost use Rattle.swift_main.specs.Input.{after_empty, before_empty, ring_text};
ghost use Rattle.swift_main.specs.Reading.{IsInput, IsUnread};

use crate::status::Status;
use memchr::memmem;
use std::alloc::Global;
use sw_io::{ReadError, Source, read_up_to};
use sw_play::GREATEST_SCRIPT;
use sw_ring::{Cluster, RingFault, built_in};

/// The greatest number of bytes of the input: its script may be as long.
pub const GREATEST_INPUT: usize = GREATEST_SCRIPT;

/// Reads all of the input, or one byte more than it may have; or answers with which status it could not be read.
pub(crate) fn read_input<S: Source>(alloc: Global, input: &mut S) -> Result<Vec<u8>, Status>
    ensures read { IfOk result (λ bytes. IsInput (record { left = S.remaining input.old; faults = S.faults input.old }) (record { left = S.remaining input.new; faults = S.faults input.new }) bytes.items) }
    ensures unread { IfErr result (IsUnread (record { left = S.remaining input.old; faults = S.faults input.old }) (record { left = S.remaining input.new; faults = S.faults input.new })) }
{
    match read_up_to(alloc, input, GREATEST_INPUT + 1) {
        Ok(bytes) => Ok(bytes),
        Err(ReadError::Failed) => Err(Status::ReadFault),
        Err(ReadError::NoMemory) => Err(Status::NoMemory),
    }
}

/// What stands before the first empty line, and what after it: all, and nothing, where there is none.
pub fn at_empty_line(input: &[u8]) -> (&[u8], &[u8])
    ensures before { result.0.now ≡ before_empty true input.now }
    ensures after { result.1.now ≡ after_empty true input.now }
{
    if let Some(rest) = input.strip_prefix(b"\n") {
        return (&[], rest);
    }
    match memmem::find(input, b"\n\n") {
        Some(place) => (&input[..place + 1], &input[place + 2..]),
        None => (input, &[]),
    }
}

/// The cluster of a ring's text, or of the built-in one where the text is empty; or the first rule that it breaks.
pub fn read_ring(alloc: Global, text: &[u8]) -> Result<Cluster, RingFault>
    ensures read { IfOk result (λ cluster. (members : RingMembers) × (ring_of (ring_text text.now) ≡ Ok members) × IsCluster members cluster) }
    ensures rules { IfOk result KeepsRules }
    ensures fault { IfErr result (λ fault. UnlessMemory RingFault.NoMemory fault (ring_of (ring_text text.now) ≡ Err fault)) }
{
    if text.is_empty() {
        Cluster::read(alloc, built_in())
    } else {
        Cluster::read(alloc, text)
    }
}
