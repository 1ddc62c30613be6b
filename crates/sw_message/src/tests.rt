//! Archives that are asked for and refused, what messages and replies tell, tickets, and targets in order.

use crate::Foreign::{Code, Index, Name as OfName, Object as OfObject, Stamp as OfStamp};
use crate::{
    Foreign, Miss, Msg, Reply, Spoil, Target, Tickets, check_asked, primaries, sort_targets,
};
use std::alloc::Global;
use std::test::Fail;
use sw_archive::{ArchiveBytes, ArchiveFault, Spelled, make_archive};
use sw_hashpath::Place;
use sw_ring::{Cluster, built_in};
use sw_types::{Bytes, Head, Name, Object, Policy, Stamp};

// Archive 1 of `abc`, put as a/c/o under the policy of the built-in ring but for its segment.
fn made(alloc: Global, stamp: Stamp, segment: u32) -> Result<ArchiveBytes, Fail> {
    let policy = Policy::make(2, 1, 3, 2, segment)?;
    let head = Head::make(alloc, b"text/plain", &[])?;
    let body = Bytes::from_slice(alloc, b"abc")?;
    let object = Object::make(head, body).ok().ok_or("too long")?;
    Ok(make_archive(alloc, &policy, stamp, &a_c_o(alloc)?, &object, 1)?)
}

fn a_c_o(alloc: Global) -> Result<Name, Fail> {
    Ok(Name::make(alloc, b"a", b"c", b"o")?)
}

// What stands in the bytes. Nothing is promised of it, which keeps the proofs of the tests short.
fn asked<'a>(
    cluster: &Cluster,
    place: &Place,
    stamp: Stamp,
    index: u32,
    bytes: &'a ArchiveBytes,
) -> Result<Spelled<'a>, Spoil> {
    check_asked(cluster, place, stamp, index, bytes)
}

#[test]
fn reads_what_was_asked_for(rt: HostRuntime) -> Result<(), Fail> {
    let alloc = rt.alloc();
    let cluster = Cluster::read(alloc, built_in())?;
    let place = cluster.place(alloc, &a_c_o(alloc)?)?;
    let stamp = Stamp::make(7).ok_or("stamp")?;
    let bytes = made(alloc, stamp, 1_048_576)?;
    let spelled = asked(&cluster, &place, stamp, 1, &bytes);
    let archive = spelled.ok().ok_or("spoiled")?.archive(alloc)?;
    assert_eq!(rt; archive.index(), 1);
    assert_eq!(rt; archive.payload(), b"c\x00".as_slice());
    Ok(())
}

#[test]
fn tells_the_first_difference(rt: HostRuntime) -> Result<(), Fail> {
    let alloc = rt.alloc();
    let cluster = Cluster::read(alloc, built_in())?;
    let place = cluster.place(alloc, &a_c_o(alloc)?)?;
    let elsewhere = Place::new(place.part(), [0; 16]);
    let stamp = Stamp::make(7).ok_or("stamp")?;
    let later = Stamp::make(8).ok_or("stamp")?;
    let cases = [
        (elsewhere, stamp, 1, 1_048_576, OfName),
        (elsewhere, later, 0, 4096, OfName),
        (place, later, 1, 1_048_576, OfStamp),
        (place, later, 0, 4096, OfStamp),
        (place, stamp, 0, 1_048_576, Index),
        (place, stamp, 2, 4096, Index),
        (place, stamp, 1, 4096, Code),
    ];
    for (place, asked_for, index, segment, foreign) in cases {
        let bytes = made(alloc, stamp, segment)?;
        let spelled = asked(&cluster, &place, asked_for, index, &bytes);
        assert_eq!(rt; spelled.err(), Some(Spoil::Foreign(foreign)));
    }
    Ok(())
}

#[test]
fn tells_the_fault(rt: HostRuntime) -> Result<(), Fail> {
    let alloc = rt.alloc();
    let cluster = Cluster::read(alloc, built_in())?;
    let place = cluster.place(alloc, &a_c_o(alloc)?)?;
    let stamp = Stamp::make(7).ok_or("stamp")?;
    let bytes = made(alloc, stamp, 1_048_576)?;
    let mut damaged = Vec::from_slice(alloc, bytes.as_slice())?;
    let (_, last) = damaged.split_last_chunk_mut::<16>().ok_or("length")?;
    let computed = *last;
    last[0] ^= 1;
    let stored = *last;
    let short = bytes.as_slice().get(..67).ok_or("length")?;
    let cases = [
        (
            damaged.as_slice(),
            ArchiveFault::Damaged { stored, computed },
        ),
        (short, ArchiveFault::Short { found: 67 }),
    ];
    for (bytes, fault) in cases {
        let bytes = ArchiveBytes::new(Bytes::from_slice(alloc, bytes)?);
        let spelled = asked(&cluster, &place, stamp, 1, &bytes);
        assert_eq!(rt; spelled.err(), Some(Spoil::Fault(fault)));
    }
    Ok(())
}

#[test]
fn tells_the_place_of_a_message(rt: HostRuntime) -> Result<(), Fail> {
    let place = Place::new(3, [7; 16]);
    let stamp = Stamp::make(7).ok_or("stamp")?;
    let index = 1;
    let about = [
        Msg::PutFrag {
            place,
            stamp,
            index,
            bytes: ArchiveBytes::new(Bytes::new(rt.alloc())),
        },
        Msg::Commit {
            place,
            stamp,
            index,
        },
        Msg::Delete { place, stamp },
        Msg::Ask { place },
        Msg::Fetch {
            place,
            stamp,
            index,
        },
        Msg::Remove {
            place,
            stamp,
            index,
        },
    ];
    for message in &about {
        assert_eq!(rt; message.place(), Some(place));
    }
    let others = [
        Msg::Parts,
        Msg::Suffixes { part: 3 },
        Msg::Places { part: 3 },
    ];
    for message in &others {
        assert_eq!(rt; message.place(), None);
    }
    Ok(())
}

#[test]
fn numbers_the_differences(rt: HostRuntime) {
    let all: [Foreign; 5] = [OfName, OfStamp, Index, Code, OfObject];
    for (foreign, number) in all.into_iter().zip(1u8..) {
        assert_eq!(rt; foreign.number(), number);
    }
}

#[test]
fn closes_each_ticket_once(rt: HostRuntime) -> Result<(), Fail> {
    let mut tickets = Tickets::new(rt.alloc());
    assert_eq!(rt; tickets.is_waiting(), false);
    assert_eq!(rt; tickets.hand_out()?, 0);
    assert_eq!(rt; tickets.hand_out()?, 1);
    let cases = [
        (1, true, true),
        (1, false, true),
        (2, false, true),
        (0, true, false),
        (0, false, false),
    ];
    for (ticket, was_open, is_waiting) in cases {
        assert_eq!(rt; tickets.close(ticket), was_open);
        assert_eq!(rt; tickets.is_waiting(), is_waiting);
    }
    assert_eq!(rt; tickets.count(), 2);
    Ok(())
}

#[test]
fn puts_targets_in_order(rt: HostRuntime) {
    let mut targets = [(2, 0), (0, 3), (1, 7), (0, 1)].map(|(index, device)| Target {
        index,
        device,
    });
    sort_targets(&mut targets);
    let sorted = [(0, 1), (0, 3), (1, 7), (2, 0)].map(|(index, device)| Target { index, device });
    assert_eq!(rt; targets, sorted);
}

#[test]
fn tells_primaries(rt: HostRuntime) -> Result<(), Fail> {
    let cluster = Cluster::read(rt.alloc(), built_in())?;
    assert_eq!(rt;
        primaries(rt.alloc(), &cluster, 0)?.as_slice(),
        [0, 1, 2].as_slice()
    );
    Ok(())
}

#[test]
fn tells_what_a_reply_is_a_miss_of(rt: HostRuntime) {
    let (need, free) = (103, 102);
    let spoil = Spoil::Foreign(OfStamp);
    let cases = [
        (Reply::DiskFault, Miss::DiskFault),
        (Reply::NoSpace { need, free }, Miss::NoSpace { need, free }),
        (Reply::NoMemory, Miss::NoMemory),
        (Reply::Spoiled(spoil), Miss::Spoiled(spoil)),
        (Reply::Missing, Miss::Odd),
        (Reply::Synced, Miss::Odd),
    ];
    for (reply, miss) in &cases {
        assert_eq!(rt; Miss::of(reply), *miss);
    }
}
