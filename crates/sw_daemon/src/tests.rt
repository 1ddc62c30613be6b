//! Passes driven by hand.

ghost use Rattle.std.specs.Prelude.{IfSome};
ghost use Rattle.sw_message.specs.Message.{IsMember};

use crate::tests::Answer::{Fault, Held, Parts, Places, Silence, Suffixes};
use crate::{PassOp, PassReport};
use std::alloc::Global;
use std::test::Fail;
use sw_hashdir::{HashDir, Listing};
use sw_hashpath::Place;
use sw_message::{Msg, Operation, Reply, Sent};
use sw_ring::Cluster;
use sw_types::Items;

// Two partitions, of which the devices 0 to 2 are the primaries.
const RING: &[u8] =
    br#"{"part_power":1,"k":2,"m":1,"c":2,"segment":4096,"devices":[{"id":0},{"id":1},{"id":2},{"id":3}],"rows":[[0,0],[1,1],[2,2]]}"#;

const NOTHING: Answer = Held(&[]);

const PLAIN: Answer = Held(&["0000000000.00007#1.data"]);

// What a device answers. A place is told by its partition, and by the first and the last byte of its hash; the other bytes are 0. A
// suffix is told with the first byte of its hash.
#[derive(Clone, Copy, Debug)]
enum Answer {
    Parts(&'static [u32]),
    Places(&'static [(u32, u8, u8)]),
    Suffixes(&'static [(u16, u8)]),
    Held(&'static [&'static str]),
    Fault,
    Silence,
}

fn place(part: u32, first: u8, last: u8) -> Place {
    let mut hash = [0; 16];
    hash[0] = first;
    hash[15] = last;
    Place::new(part, hash)
}

fn listing(alloc: Global, files: &[&str]) -> Result<Listing, Fail> {
    let mut names = Vec::new(alloc);
    for file in files {
        names.push(format!(in alloc; "{file}")?)?;
    }
    Ok(HashDir::of(alloc, &names)?.listing(alloc)?)
}

fn places(alloc: Global, these: &[(u32, u8, u8)]) -> Result<Vec<Place>, Fail> {
    let mut places = Vec::new(alloc);
    for (part, first, last) in these {
        places.push(place(*part, *first, *last))?;
    }
    Ok(places)
}

fn hashes(alloc: Global, these: &[(u16, u8)]) -> Result<Vec<(u16, [u8; 16])>, Fail> {
    let mut hashes = Vec::new(alloc);
    for (suffix, first) in these {
        let mut hash = [0; 16];
        hash[0] = *first;
        hashes.push((*suffix, hash))?;
    }
    Ok(hashes)
}

impl Answer {
    fn reply(self, alloc: Global) -> Result<Option<Reply>, Fail> {
        Ok(match self {
            Parts(parts) => Some(Reply::PartList(Items::from(Vec::from_slice(alloc, parts)?))),
            Places(these) => Some(Reply::PlaceList(Items::from(places(alloc, these)?))),
            Suffixes(these) => Some(Reply::SuffixList(Items::from(hashes(alloc, these)?))),
            Held(files) => Some(Reply::Held(listing(alloc, files)?)),
            Fault => Some(Reply::DiskFault),
            Silence => None,
        })
    }
}

// A message, by the device that it goes to and its kind, with the partition or the last byte of the place's hash.
fn is_sent(device: u16, msg: &Msg, want: (u16, &str)) -> bool {
    let kind = match msg {
        Msg::Parts => "parts",
        Msg::Places { part: 0 } => "places 0",
        Msg::Places { .. } => "places 1",
        Msg::Suffixes { part: 0 } => "suffixes 0",
        Msg::Suffixes { .. } => "suffixes 1",
        Msg::Ask { place } => match place.hash()[15] {
            5 => "ask 5",
            6 => "ask 6",
            _ => "ask 7",
        },
        _ => "other",
    };
    device == want.0 && kind == want.1
}

// A message that is to come next, and what is answered.
type Turn = (u16, &'static str, Answer);

// The calls of a pass. Nothing is promised of these functions, which keeps the proofs of the tests short.
fn sent(op: &mut PassOp) -> Result<Sent, Fail> {
    Ok(op.next()?.ok_or("no message")?)
}

fn waits(op: &mut PassOp) -> Result<bool, Fail> {
    Ok(op.next()?.is_none())
}

fn hear(op: &mut PassOp, ticket: u64, reply: Reply) {
    op.take(ticket, reply);
}

fn give(op: &mut PassOp, ticket: u64, reply: Option<Reply>) {
    match reply {
        Some(reply) => hear(op, ticket, reply),
        None => op.give_up(ticket),
    }
}

fn has_ended(op: &PassOp) -> bool {
    op.end().is_some()
}

// Answers each message before the next one is handed out; its ticket is the number of those before it.
fn driven(alloc: Global, op: &mut PassOp, turns: &[Turn]) -> Result<(), Fail> {
    for (ticket, (device, kind, answer)) in turns.iter().enumerate() {
        let sent = sent(op)?;
        if sent.ticket != ticket as u64 || !is_sent(sent.device, &sent.msg, (*device, *kind)) {
            return Err("another message".into());
        }
        give(op, sent.ticket, answer.reply(alloc)?);
    }
    if waits(op)? {
        Ok(())
    } else {
        Err("more messages than answers".into())
    }
}

// The device at a slot of a ring.
fn device_at(cluster: &Cluster, slot: usize) -> Option<u16>
    ensures { IfSome result (IsMember cluster.now) }
{
    let devices = cluster.devices();
    if slot >= devices.len() {
        return None;
    }
    Some(devices[slot].id)
}

// What a pass of the device at this slot reports by these turns, its counts in the order of the report's.
fn reports(alloc: Global, slot: usize, turns: &[Turn], want: [u64; 5]) -> Result<bool, Fail> {
    let cluster = Cluster::read(alloc, RING)?;
    let own = device_at(&cluster, slot).ok_or("no device")?;
    let mut op = PassOp::begin(alloc, &cluster, own);
    driven(alloc, &mut op, turns)?;
    let [synced, rebuilt, removed, kept, missed] = want;
    let report = PassReport {
        synced,
        rebuilt,
        removed,
        kept,
        missed,
    };
    Ok(op.end() == Some(&report))
}

// A primary runs jobs only on places at whose suffixes another primary missed or differs.
#[test]
fn syncs_what_differs(rt: HostRuntime) -> Result<(), Fail> {
    let cases: [(&[Turn], [u64; 5]); 4] = [
        // Primaries that agree: no job; a partition that the ring hasn't, and a place under a wrong one, are passed over.
        (
            &[
                (0, "parts", Parts(&[0, 7])),
                (0, "places 0", Places(&[(0, 0, 5), (0, 128, 5)])),
                (0, "suffixes 0", Suffixes(&[(5, 1)])),
                (1, "suffixes 0", Suffixes(&[(5, 1)])),
                (2, "suffixes 0", Suffixes(&[(5, 1)])),
            ],
            [0, 0, 0, 0, 0],
        ),
        // One has another hash at one suffix, another lists one more, and a third place agrees: the job of each asks all devices.
        (
            &[
                (0, "parts", Parts(&[1])),
                (
                    0,
                    "places 1",
                    Places(&[(1, 128, 5), (1, 128, 6), (1, 129, 7), (1, 130, 5)]),
                ),
                (0, "suffixes 1", Suffixes(&[(5, 1), (6, 1)])),
                (1, "suffixes 1", Suffixes(&[(5, 1), (6, 1), (7, 1)])),
                (2, "suffixes 1", Suffixes(&[(5, 2), (6, 1)])),
                (3, "ask 5", NOTHING),
                (0, "ask 5", NOTHING),
                (1, "ask 5", NOTHING),
                (2, "ask 5", NOTHING),
                (3, "ask 7", NOTHING),
                (0, "ask 7", Silence),
                (1, "ask 7", NOTHING),
                (2, "ask 7", NOTHING),
                (3, "ask 5", NOTHING),
                (0, "ask 5", NOTHING),
                (1, "ask 5", NOTHING),
                (2, "ask 5", NOTHING),
            ],
            [2, 0, 0, 0, 1],
        ),
        // One missed: each place is synced.
        (
            &[
                (0, "parts", Parts(&[0])),
                (0, "places 0", Places(&[(0, 0, 5)])),
                (0, "suffixes 0", Suffixes(&[(5, 1)])),
                (1, "suffixes 0", Silence),
                (2, "suffixes 0", Suffixes(&[(5, 1)])),
                (3, "ask 5", NOTHING),
                (0, "ask 5", NOTHING),
                (1, "ask 5", Silence),
                (2, "ask 5", NOTHING),
            ],
            [1, 0, 0, 0, 1],
        ),
        // The own device misses: its partition is passed over.
        (
            &[
                (0, "parts", Parts(&[0, 1])),
                (0, "places 0", Fault),
                (0, "places 1", Places(&[(1, 128, 5)])),
                (0, "suffixes 1", Parts(&[])),
            ],
            [0, 0, 0, 0, 2],
        ),
    ];
    for (turns, report) in cases {
        assert!(rt; reports(rt.alloc(), 0, turns, report)?);
    }
    Ok(())
}

// A handoff reverts each place.
#[test]
fn reverts_what_is_held(rt: HostRuntime) -> Result<(), Fail> {
    let cases: [(&[Turn], [u64; 5]); 3] = [
        (&[(3, "parts", Silence)], [0, 0, 0, 0, 1]),
        (&[(3, "parts", Parts(&[]))], [0, 0, 0, 0, 0]),
        (
            &[
                (3, "parts", Parts(&[0, 1])),
                (3, "places 0", Places(&[(0, 0, 5), (0, 1, 6), (0, 2, 7)])),
                (3, "ask 5", PLAIN),
                (1, "ask 5", NOTHING),
                (3, "ask 6", Silence),
                (3, "ask 7", PLAIN),
                (1, "ask 7", NOTHING),
                (3, "places 1", Places(&[])),
            ],
            [0, 0, 0, 2, 1],
        ),
    ];
    for (turns, report) in cases {
        assert!(rt; reports(rt.alloc(), 3, turns, report)?);
    }
    Ok(())
}

// However many partitions are listed, the first 65,536 are treated, and the pass ends.
#[test]
fn treats_so_many_partitions(rt: HostRuntime) -> Result<(), Fail> {
    let alloc = rt.alloc();
    let cluster = Cluster::read(alloc, RING)?;
    let own = device_at(&cluster, 3).ok_or("no device")?;
    let mut op = PassOp::begin(alloc, &cluster, own);
    let first = sent(&mut op)?;
    let mut listed = Vec::new(alloc);
    for _ in 0..65_537u32 {
        listed.push(1)?;
    }
    give(
        &mut op,
        first.ticket,
        Some(Reply::PartList(Items::from(listed))),
    );
    for _ in 0..65_536u32 {
        let sent = sent(&mut op)?;
        if !is_sent(sent.device, &sent.msg, (3, "places 1")) {
            return Err("another message".into());
        }
        give(
            &mut op,
            sent.ticket,
            Some(Reply::PlaceList(Items::from(Vec::new(alloc)))),
        );
    }
    assert!(rt; waits(&mut op)? && has_ended(&op));
    Ok(())
}
