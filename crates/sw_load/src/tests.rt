//! Runs over the built-in ring, and over rings without a handoff.

use crate::load;
use std::alloc::Global;
use std::process::Abort;
use std::test::Fail;
use sw_lab::Summary;
use sw_ring::{Cluster, built_in};

fn expect(
    rt: &impl Abort,
    alloc: Global,
    ring: &[u8],
    number: u32,
    want: Summary,
) -> Result<(), Fail> {
    let cluster = Cluster::read(alloc, ring)?;
    let summary = load(alloc, &cluster, number)?;
    assert_eq!(rt; summary, want, "of {number}");
    Ok(())
}

// One device at a time is down, so that what is found is what was put last. A device that was down while an object was deleted still has it:
// a delete behind that finds one.
#[test]
fn counts_how_operations_ended(rt: HostRuntime) -> Result<(), Fail> {
    let alloc = rt.alloc();
    let none = Summary::new();
    expect(&rt, alloc, built_in(), 1, Summary { missing: 1, ..none })?;
    let two = Summary {
        created: 1,
        absent: 1,
        ..none
    };
    expect(&rt, alloc, built_in(), 2, two)?;
    let hundred = Summary {
        created: 44,
        found: 13,
        absent: 24,
        buried: 3,
        deleted: 4,
        missing: 12,
        jobs: 16,
        bytes: 41_236,
        ..none
    };
    expect(&rt, alloc, built_in(), 100, hundred)?;
    Ok(())
}

// Three devices without a handoff, each of which has a fragment: of a device that is down nobody takes the place.
const ALL_STORED: &[u8] =
    br#"{"part_power":0,"k":2,"m":1,"q":3,"c":1,"devices":[{"id":0},{"id":1},{"id":2}],"rows":[[0],[1],[2]]}"#;

// And each deletes.
const ALL_DELETE: &[u8] =
    br#"{"part_power":0,"k":2,"m":1,"q":3,"c":3,"devices":[{"id":0},{"id":1},{"id":2}],"rows":[[0],[1],[2]]}"#;

// The counts were computed apart.
#[test]
fn counts_what_fails_without_a_handoff(rt: HostRuntime) -> Result<(), Fail> {
    let none = Summary::new();
    let stored = Summary {
        created: 72,
        too_few_synced: 77,
        found: 49,
        absent: 29,
        buried: 15,
        unanswered: 25,
        deleted: 16,
        missing: 17,
        jobs: 42,
        bytes: 135_389,
        ..none
    };
    expect(&rt, rt.alloc(), ALL_STORED, 300, stored)?;
    let delete = Summary {
        created: 27,
        too_few_synced: 17,
        found: 7,
        absent: 30,
        buried: 3,
        deleted: 2,
        missing: 8,
        too_few_marks: 6,
        jobs: 12,
        bytes: 16_006,
        ..none
    };
    expect(&rt, rt.alloc(), ALL_DELETE, 100, delete)
}
