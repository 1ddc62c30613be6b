//! The work of small numbers, and the text of a summary.

use crate::{Summary, Workload};
use std::alloc::Global;
use std::process::Abort;
use std::test::Fail;
use sw_delete::DeleteEnd;
use sw_get::GetEnd;
use sw_put::PutEnd;
use sw_ring::{Cluster, built_in};
use sw_script::{Event, Job};
use sw_types::{Items, Stamp};

// What an event does, for comparison.
#[derive(Clone, Copy, Debug, PartialEq, Eq)]
enum Kind {
    Put(usize),
    Get,
    Delete,
    Recon(u64),
    Stop(u64),
    Restart(u64),
    Other,
}

fn kind_of(event: &Event) -> Kind {
    match event {
        Event::Run(Job::Put { object, .. }) => Kind::Put(object.body().len()),
        Event::Run(Job::Get(_)) => Kind::Get,
        Event::Run(Job::Delete(_)) => Kind::Delete,
        Event::Run(Job::Recon { device, .. }) => Kind::Recon(*device),
        Event::Stop(device) => Kind::Stop(*device),
        Event::Restart(device) => Kind::Restart(*device),
        _ => Kind::Other,
    }
}

// The events of a number, over the built-in ring.
fn events_of(alloc: Global, number: u32) -> Result<Vec<Event>, Fail> {
    let cluster = Cluster::read(alloc, built_in())?;
    let mut work = Workload::new(alloc, number, &cluster)?;
    let mut events = Vec::new(alloc);
    for _ in 0..10_000 {
        let Some(event) = work.next()? else {
            return Ok(events);
        };
        events.push(event)?;
    }
    Err(Fail::from("no end"))
}

// The name of an operation's object.
fn object_of(event: &Event) -> Option<&str> {
    match event {
        Event::Run(
            Job::Put { name, .. } | Job::Get(name) | Job::Delete(name) | Job::Recon { name, .. },
        ) => Some(name.object()),
        _ => None,
    }
}

fn expect<R: Abort>(rt: &R, event: Option<&Event>, kind: Kind, object: Option<&str>) {
    assert_eq!(rt; event.map(kind_of), Some(kind));
    assert_eq!(rt; event.and_then(object_of), object);
}

#[test]
fn draws_the_first_numbers(rt: HostRuntime) -> Result<(), Fail> {
    let none = events_of(rt.alloc(), 0)?;
    assert_eq!(&rt; none.len(), 0);
    let one = events_of(rt.alloc(), 1)?;
    assert_eq!(&rt; one.len(), 1);
    expect(&rt, one.first(), Kind::Delete, Some("obj44"));
    let two = events_of(rt.alloc(), 2)?;
    assert_eq!(&rt; two.len(), 2);
    expect(&rt, two.first(), Kind::Get, Some("obj38"));
    expect(&rt, two.last(), Kind::Put(1366), Some("obj35"));
    Ok(())
}

// The body's bytes count up from the last number of the step, 814711366, which is 70 above a multiple of 256.
#[test]
fn puts_bytes_that_count_up(rt: HostRuntime) -> Result<(), Fail> {
    let events = events_of(rt.alloc(), 2)?;
    let Some(Event::Run(Job::Put { name, object })) = events.last() else {
        return Err(Fail::from("no put"));
    };
    assert_eq!(&rt; name.account(), "load");
    assert_eq!(&rt; name.container(), "box");
    let body = object.body().as_slice();
    assert_eq!(&rt; body.get(..3), Some([70, 71, 72].as_slice()));
    assert_eq!(&rt; body.get(185..188), Some([255, 0, 1].as_slice()));
    Ok(())
}

// Over four devices: 1 stops before step 20 and comes back before step 30, 2 before steps 40 and 50.
#[test]
fn stops_devices_in_turn(rt: HostRuntime) -> Result<(), Fail> {
    let events = events_of(rt.alloc(), 50)?;
    assert_eq!(&rt; events.len(), 62);
    for (index, kind) in [
        (19, Kind::Stop(1)),
        (30, Kind::Restart(1)),
        (45, Kind::Stop(2)),
        (56, Kind::Restart(2)),
    ] {
        assert_eq!(&rt; events.get(index).map(kind_of), Some(kind));
    }
    for device in 0..4u16 {
        let event = events.get(31 + usize::from(device));
        assert_eq!(&rt; event.map(kind_of), Some(Kind::Recon(u64::from(device))));
        assert_eq!(&rt;
            event.and_then(object_of),
            events.get(35).and_then(object_of)
        );
    }
    Ok(())
}

// Of each kind of end that needs no object and no floor there is one.
#[test]
fn counts_each_end(rt: HostRuntime) -> Result<(), Fail> {
    let alloc = rt.alloc();
    let stamp = Stamp::make(7).ok_or("stamp")?;
    let have = 1;
    let mut summary = Summary::new();
    for put in [
        PutEnd::Created { stamp, commits: 3 },
        PutEnd::TooFewSynced {
            have,
            misses: Items::from(Vec::new(alloc)),
        },
        PutEnd::TooFewCommits {
            have,
            misses: Items::from(Vec::new(alloc)),
        },
    ] {
        summary.put(&put);
    }
    for get in [
        GetEnd::Absent,
        GetEnd::Buried { stamp },
        GetEnd::Unanswered {
            misses: Items::from(Vec::new(alloc)),
        },
        GetEnd::TooFew { stamp, have },
        GetEnd::Overtaken {
            events: Items::from(Vec::new(alloc)),
        },
    ] {
        summary.get(&get);
    }
    for delete in [
        DeleteEnd::Deleted {
            stamp,
            marks: 4,
            existed: true,
        },
        DeleteEnd::Deleted {
            stamp,
            marks: 4,
            existed: false,
        },
        DeleteEnd::TooFewMarks {
            have,
            misses: Items::from(Vec::new(alloc)),
        },
    ] {
        summary.delete(&delete);
    }
    summary.job();
    let want = Summary {
        created: 1,
        superseded: 0,
        too_few_synced: 1,
        too_few_commits: 1,
        found: 0,
        absent: 1,
        buried: 1,
        unanswered: 1,
        too_few: 1,
        overtaken: 1,
        deleted: 1,
        missing: 1,
        too_few_marks: 1,
        jobs: 1,
        bytes: 0,
    };
    assert_eq!(&rt; summary, want);
    Ok(())
}

// A line for each count, each of another number.
#[test]
fn prints_a_line_for_each_count(rt: HostRuntime) -> Result<(), Fail> {
    let summary = Summary {
        created: 1,
        superseded: 2,
        too_few_synced: 3,
        too_few_commits: 4,
        found: 5,
        absent: 6,
        buried: 7,
        unanswered: 8,
        too_few: 9,
        overtaken: 10,
        deleted: 11,
        missing: 12,
        too_few_marks: 13,
        jobs: 14,
        bytes: 15,
    };
    let text =
        "created 1\nsuperseded 2\ntoo-few-synced 3\ntoo-few-commits 4\nfound 5\nabsent 6\nburied 7\nunanswered 8\ntoo-few 9\novertaken 10\ndeleted 11\nmissing 12\ntoo-few-marks 13\njobs 14\nbytes 15\n";
    assert_eq!(&rt; summary.print(rt.alloc())?.as_slice(), text.as_bytes());
    Ok(())
}
