//! Rings' texts, and what is read from them.

use crate::RingFault::{
    DuplicateDevice, Field, NotJson, PartPower, Policy, RowCount, RowLength, SameDeviceTwice,
    TooManyDevices, UnknownDevice,
};
use crate::{Cluster, Device, Member, RingFault, built_in};
use std::alloc::{AllocError, Global};
use std::process::Abort;
use std::test::Fail;
use sw_types::{Name, PolicyFault};

#[test]
fn reads_the_built_in_text(rt: HostRuntime) -> Result<(), Fail> {
    let cluster = Cluster::read(rt.alloc(), built_in())?;
    let policy = cluster.policy();
    assert_eq!(rt;
        (policy.q(), policy.c(), policy.segment()),
        (3, 2, 1_048_576)
    );
    assert_eq!(rt; cluster.part_power(), 0);
    assert_eq!(rt; policy.k(), 2);
    assert_eq!(rt; policy.m(), 1);
    assert_eq!(rt; cluster.primary(0, 1), 1);
    assert_eq!(rt; cluster.handoffs(rt.alloc(), 0)?.as_slice(), [3].as_slice());
    assert_eq!(rt; cluster.index_of(0, 2), Some(2));
    assert_eq!(rt; cluster.index_of(0, 3), None);
    assert_eq!(rt; cluster.index_of(1, 2), None);
    let devices = [0, 1, 2, 3].map(|id| Device {
        id,
        capacity: 1_073_741_824,
    });
    assert_eq!(rt; cluster.devices(), devices.as_slice());
    Ok(())
}

#[test]
fn sorts_the_devices_and_takes_the_usual_numbers(rt: HostRuntime) -> Result<(), Fail> {
    let text =
        br#"{"part_power":0,"k":1,"m":1,"devices":[{"id":9},{"id":5,"capacity":7}],"rows":[[9],[5]]}"#;
    let cluster = Cluster::read(rt.alloc(), text)?;
    let small = Device { id: 5, capacity: 7 };
    let usual = Device {
        id: 9,
        capacity: 1_073_741_824,
    };
    assert_eq!(rt; cluster.devices(), [small, usual].as_slice());
    let policy = cluster.policy();
    assert_eq!(rt;
        (policy.q(), policy.c(), policy.segment()),
        (2, 2, 1_048_576)
    );
    assert_eq!(rt; cluster.index_of(0, 9), Some(0));
    Ok(())
}

#[test]
fn places_a_name(rt: HostRuntime) -> Result<(), Fail> {
    let text =
        br#"{"part_power":1,"hash_prefix":"ab","hash_suffix":"cd","k":1,"m":1,"devices":[{"id":9},{"id":5}],"rows":[[9,5],[5,9]]}"#;
    let cluster = Cluster::read(rt.alloc(), text)?;
    let name = Name::make(rt.alloc(), b"a", b"c", b"o")?;
    let place = cluster.place(rt.alloc(), &name)?;
    // The MD5 of "ab/a/c/ocd" is ec42575aef098d2559c828f34ed26dda.
    assert_eq!(rt; place.part(), 1);
    assert_eq!(rt; place.hash()[0], 0xec);
    assert_eq!(rt; cluster.place_of_path(b"/a/c/o"), place);
    Ok(())
}

fn refuses(rt: &impl Abort, alloc: Global, text: &str, want: RingFault) {
    let fault = Cluster::read(alloc, text.as_bytes()).err();
    assert_eq!(rt; fault, Some(want), "at {text}");
}

#[test]
fn names_the_first_faulty_member(rt: HostRuntime) {
    let cases = [
        (r#"[]"#, Member::Ring),
        (r#"7"#, Member::Ring),
        (
            r#"{"k":1,"m":1,"devices":[{"id":9},{"id":5}],"rows":[[9],[5]]}"#,
            Member::PartPower,
        ),
        (
            r#"{"part_power":"0","k":1,"m":1,"devices":[{"id":9},{"id":5}],"rows":[[9],[5]]}"#,
            Member::PartPower,
        ),
        (
            r#"{"part_power":18446744073709551616,"k":1,"m":1,"devices":[{"id":9},{"id":5}],"rows":[[9],[5]]}"#,
            Member::PartPower,
        ),
        (
            r#"{"part_power":0,"k":1,"m":1,"devices":[{"id":9},{"id":5}],"rows":[[9],[5]],"hash_prefix":0}"#,
            Member::HashPrefix,
        ),
        (
            r#"{"part_power":0,"k":1,"m":1,"devices":[{"id":9},{"id":5}],"rows":[[9],[5]],"hash_suffix":null}"#,
            Member::HashSuffix,
        ),
        (
            r#"{"part_power":0,"m":1,"devices":[{"id":9},{"id":5}],"rows":[[9],[5]]}"#,
            Member::K,
        ),
        (
            r#"{"part_power":0,"k":3.0,"m":1,"devices":[{"id":9},{"id":5}],"rows":[[9],[5]]}"#,
            Member::K,
        ),
        (
            r#"{"part_power":0,"k":-0,"m":1,"devices":[{"id":9},{"id":5}],"rows":[[9],[5]]}"#,
            Member::K,
        ),
        (
            r#"{"part_power":0,"k":4294967296,"m":1,"devices":[{"id":9},{"id":5}],"rows":[[9],[5]]}"#,
            Member::K,
        ),
        (
            r#"{"part_power":0,"k":1,"devices":[{"id":9},{"id":5}],"rows":[[9],[5]]}"#,
            Member::M,
        ),
        (
            r#"{"part_power":0,"k":1,"m":1e0,"devices":[{"id":9},{"id":5}],"rows":[[9],[5]]}"#,
            Member::M,
        ),
        (
            r#"{"part_power":0,"k":1,"m":1,"devices":[{"id":9},{"id":5}],"rows":[[9],[5]],"q":null}"#,
            Member::Q,
        ),
        (
            r#"{"part_power":0,"k":1,"m":1,"devices":[{"id":9},{"id":5}],"rows":[[9],[5]],"q":"2"}"#,
            Member::Q,
        ),
        (
            r#"{"part_power":0,"k":1,"m":1,"devices":[{"id":9},{"id":5}],"rows":[[9],[5]],"c":-1}"#,
            Member::C,
        ),
        (
            r#"{"part_power":0,"k":1,"m":1,"devices":[{"id":9},{"id":5}],"rows":[[9],[5]],"segment":[]}"#,
            Member::Segment,
        ),
        (
            r#"{"part_power":0,"k":1,"m":1,"rows":[[9],[5]]}"#,
            Member::Devices,
        ),
        (
            r#"{"part_power":0,"k":1,"m":1,"devices":{},"rows":[[9],[5]]}"#,
            Member::Devices,
        ),
        (
            r#"{"part_power":0,"k":1,"m":1,"devices":[],"rows":[[9],[5]]}"#,
            Member::Devices,
        ),
        (
            r#"{"part_power":0,"k":1,"m":1,"devices":[{"id":9},5],"rows":[[9],[5]]}"#,
            Member::Devices,
        ),
        (
            r#"{"part_power":0,"k":1,"m":1,"devices":[{"id":9},{"id":65536}],"rows":[[9],[5]]}"#,
            Member::Devices,
        ),
        (
            r#"{"part_power":0,"k":1,"m":1,"devices":[{"id":9},{"capacity":5}],"rows":[[9],[5]]}"#,
            Member::Devices,
        ),
        (
            r#"{"part_power":0,"k":1,"m":1,"devices":[{"id":9},{"id":5,"capacity":9223372036854775808}],"rows":[[9],[5]]}"#,
            Member::Devices,
        ),
        (
            r#"{"part_power":0,"k":1,"m":1,"devices":[{"id":9},{"id":5}]}"#,
            Member::Rows,
        ),
        (
            r#"{"part_power":0,"k":1,"m":1,"devices":[{"id":9},{"id":5}],"rows":[9,5]}"#,
            Member::Rows,
        ),
        (
            r#"{"part_power":0,"k":1,"m":1,"devices":[{"id":9},{"id":5}],"rows":[[9],[-5]]}"#,
            Member::Rows,
        ),
    ];
    for (text, member) in cases {
        refuses(&rt, rt.alloc(), text, Field(member));
    }
}

#[test]
fn names_the_first_broken_rule(rt: HostRuntime) {
    let cases = [
        (r#"{"#, NotJson),
        (
            r#"{"part_power":17,"k":1,"m":1,"devices":[{"id":9},{"id":5}],"rows":[[9],[5]]}"#,
            PartPower(17),
        ),
        (
            r#"{"part_power":0,"k":0,"m":1,"devices":[{"id":9},{"id":5}],"rows":[[9],[5]]}"#,
            Policy(PolicyFault::K(0)),
        ),
        (
            r#"{"part_power":0,"k":30,"m":3,"devices":[{"id":9},{"id":5}],"rows":[[9],[5]]}"#,
            Policy(PolicyFault::N(33)),
        ),
        (
            r#"{"part_power":0,"k":1,"m":1,"devices":[{"id":5},{"id":9},{"id":9}],"rows":[[9],[5]]}"#,
            DuplicateDevice(9),
        ),
        (
            r#"{"part_power":0,"k":1,"m":1,"devices":[{"id":9},{"id":5}],"rows":[[9]]}"#,
            RowCount(1),
        ),
        (
            r#"{"part_power":0,"k":1,"m":1,"devices":[{"id":9},{"id":5}],"rows":[[9],[5,9]]}"#,
            RowLength(1),
        ),
        (
            r#"{"part_power":0,"k":1,"m":1,"devices":[{"id":9},{"id":5}],"rows":[[9],[7]]}"#,
            UnknownDevice(7),
        ),
        (
            r#"{"part_power":0,"k":1,"m":1,"devices":[{"id":9},{"id":5}],"rows":[[9],[9]]}"#,
            SameDeviceTwice(0, 9),
        ),
        (
            r#"{"part_power":17,"k":0,"m":1,"devices":[{"id":9},{"id":5}],"rows":[]}"#,
            PartPower(17),
        ),
        (
            r#"{"part_power":0,"k":1,"m":1,"devices":[{"id":9},{"id":5}],"rows":[[7],[9,5]]}"#,
            RowLength(1),
        ),
        (
            r#"{"part_power":1,"k":1,"m":1,"devices":[{"id":9},{"id":5}],"rows":[[9,5],[9,7]]}"#,
            UnknownDevice(7),
        ),
        (
            r#"{"part_power":1,"k":1,"m":1,"devices":[{"id":9},{"id":5}],"rows":[[9,5],[5,5]]}"#,
            SameDeviceTwice(1, 5),
        ),
    ];
    for (text, fault) in cases {
        refuses(&rt, rt.alloc(), text, fault);
    }
    assert_eq!(rt; Cluster::read(rt.alloc(), b"\xff").err(), Some(NotJson));
}

#[test]
fn ignores_unknown_members_and_takes_the_last_of_a_name(rt: HostRuntime) -> Result<(), Fail> {
    let text =
        br#"{"k":7,"sort":[],"part_power":0,"k":1,"m":1,"devices":[{"id":9,"zone":2},{"id":5}],"rows":[[9],[5]]}"#;
    let cluster = Cluster::read(rt.alloc(), text)?;
    assert_eq!(rt; cluster.policy().k(), 1);
    Ok(())
}

// A text of so many devices.
fn crowd(alloc: Global, count: u16) -> Result<String, AllocError> {
    let front = r#"{"part_power":0,"k":1,"m":1,"rows":[[0],[1]],"devices":[{"id":0}"#;
    let mut text = String::from_str(alloc, front)?;
    for id in 1..count {
        let device = format!(in alloc; ",{{\"id\":{id}}}")?;
        text.push_str(device.as_str())?;
    }
    text.push_str("]}")?;
    Ok(text)
}

#[test]
fn takes_up_to_64_devices(rt: HostRuntime) -> Result<(), Fail> {
    let most = crowd(rt.alloc(), 64)?;
    let cluster = Cluster::read(rt.alloc(), most.as_bytes())?;
    assert_eq!(rt; cluster.devices().len(), 64);
    let more = crowd(rt.alloc(), 65)?;
    refuses(&rt, rt.alloc(), more.as_str(), TooManyDevices(65));
    Ok(())
}

// A text with an unknown member of so many lists, each in the one before it.
fn nested(alloc: Global, lists: usize) -> Result<String, AllocError> {
    let mut text = String::from_str(alloc, r#"{"x":"#)?;
    for _ in 0..lists {
        text.push('[')?;
    }
    for _ in 0..lists {
        text.push(']')?;
    }
    let back = r#","part_power":0,"k":1,"m":1,"devices":[{"id":9},{"id":5}],"rows":[[9],[5]]}"#;
    text.push_str(back)?;
    Ok(text)
}

#[test]
fn reads_127_values_within_each_other(rt: HostRuntime) -> Result<(), Fail> {
    let deep = nested(rt.alloc(), 126)?;
    let cluster = Cluster::read(rt.alloc(), deep.as_bytes())?;
    assert_eq!(rt; cluster.policy().k(), 1);
    let deeper = nested(rt.alloc(), 127)?;
    refuses(&rt, rt.alloc(), deeper.as_str(), NotJson);
    Ok(())
}

#[test]
fn numbers_the_faults(rt: HostRuntime) {
    let faults = [
        RingFault::NoMemory,
        NotJson,
        Field(Member::K),
        Policy(PolicyFault::K(0)),
        RowCount(0),
        RowLength(0),
        UnknownDevice(0),
        SameDeviceTwice(0, 0),
        PartPower(0),
        TooManyDevices(0),
        DuplicateDevice(0),
    ];
    for (number, fault) in faults.iter().enumerate() {
        assert_eq!(rt; usize::from(fault.number()), number);
    }
}
