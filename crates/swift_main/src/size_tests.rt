//! Rings, folders and gets that are larger than those of the other tests.

use crate::tests::expect_done;
use std::test::Fail;

// Ten of twenty fragments make a body, and each device has one.
const TWENTY: &str =
    r#"{"part_power":0,"k":10,"m":10,"devices":[{"id":0},{"id":1},{"id":2},{"id":3},{"id":4},{"id":5},{"id":6},{"id":7},{"id":8},{"id":9},{"id":10},{"id":11},{"id":12},{"id":13},{"id":14},{"id":15},{"id":16},{"id":17},{"id":18},{"id":19}],"rows":[[0],[1],[2],[3],[4],[5],[6],[7],[8],[9],[10],[11],[12],[13],[14],[15],[16],[17],[18],[19]]}
"#;

#[test]
fn serves_twenty_devices(rt: HostRuntime) -> Result<(), Fail> {
    let script =
        "put a/c/o 000102030405060708090a0b0c\nlose 3\nlose 12\nget a/c/o\ndel a/c/o\nget a/c/o\n";
    let text = "e 1 created 1000000000.00000 20\n\
                e 2 found 1000000000.00000 000102030405060708090a0b0c 0,1,2,4,5,6,7,8,9,10\n\
                e 3 deleted 1000000000.00001 20 yes\n\
                e 4 buried 1000000000.00001\n";
    expect_done(&rt, rt.alloc(), TWENTY, script, text)
}

// One fragment is enough to read, and two are to be stored.
const PAIR: &str =
    r#"{"part_power":0,"k":1,"m":1,"q":2,"c":2,"devices":[{"id":0},{"id":1}],"rows":[[0],[1]]}
"#;

// More than a thousand puts each leave a plain name at the device that is up, and one that is acknowledged then takes them away.
#[test]
fn keeps_a_thousand_names_in_a_folder(rt: HostRuntime) -> Result<(), Fail> {
    let alloc = rt.alloc();
    let mut script = String::from_str(alloc, "stop 1\n")?;
    let mut text = String::new(alloc);
    for i in 1..1101u32 {
        script.push_str("put a/c/o 61\n")?;
        text.push_str(&format!(in alloc; "e {i} too-few-synced 1\n")?)?;
    }
    script.push_str("restart 1\nput a/c/o 62\nget a/c/o\nshow 0 a/c/o\n")?;
    text.push_str("e 1101 created 1000000000.01100 2\n")?;
    text.push_str("e 1102 found 1000000000.01100 62 0\n")?;
    text.push_str("s 0 0 1000000000.01100 durable 62\n")?;
    expect_done(&rt, alloc, PAIR, &script, &text)
}
