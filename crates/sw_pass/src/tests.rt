//! Seats of tables of the built-in ring.

ghost use Rattle.std.specs.Prelude.{◌≡◌, ◌≤◌, IfOk, None};
ghost use Rattle.sw_types.specs.Name.{name_fault};
ghost use Rattle.sw_ring.specs.Cluster.{KeepsRules};
ghost use Rattle.sw_pass.specs.Known.{size_of};

use crate::{OfCluster, Pass, StampTable};
use std::alloc::Global;
use std::marker::Brand;
use std::process::Abort;
use std::test::Fail;
use sw_ring::{Cluster, built_in};
use sw_types::{Name, Stamp};

// How many devices the cluster has.
fn count_devices(cluster: &Cluster) -> Result<u16, Fail>
    ensures count { IfOk result (λ count. (3 ≤ count) × (count ≤ 64) × (count ≡ size_of cluster.now)) }
    ensures rules { KeepsRules cluster.now }
{
    let count = cluster.devices().len();
    if count < 3 {
        return Err("too few devices".into());
    }
    Ok(count as u16)
}

// Draws a stamp for a delete at this clock, and compares it; there is none where the stamps are spent.
fn expect_draw<C: OfCluster>(
    rt: &impl Abort,
    table: &StampTable<C>,
    pass: &mut Pass<C>,
    name: &Name,
    clock: u64,
    stamp: Option<u64>,
) -> Result<(), Fail>
    requires table { pass.old.table ≡ table.now }
    requires name { name_fault name.now ≡ None }
    ensures { pass.new.table ≡ pass.old.table }
{
    let clock = Stamp::make(clock).ok_or("stamp")?;
    let drawn = pass.draw(table, clock, name, None);
    assert_eq!(rt; drawn.ok().map(|stamp| stamp.units()), stamp);
    Ok(())
}

// A stamp is the clock, or the one behind the last.
fn draw_stamps<C: OfCluster>(rt: &impl Abort, alloc: Global, cluster: &Cluster) -> Result<(), Fail>
    requires { cluster.now ≡ C.cluster }
{
    let name = Name::make(alloc, b"a", b"c", b"o")?;
    let (table, mut pass) = StampTable::<C>::new(alloc, count_devices(cluster)?)?;
    let mut other = pass.split(&table, 1);
    expect_draw(rt, &table, &mut pass, &name, 5, Some(5))?;
    expect_draw(rt, &table, &mut other, &name, 3, Some(6))?;
    expect_draw(rt, &table, &mut pass, &name, 9, Some(9))
}

// Behind the last stamp there is none, for no pass.
fn spend_stamps<C: OfCluster>(rt: &impl Abort, alloc: Global, cluster: &Cluster) -> Result<(), Fail>
    requires { cluster.now ≡ C.cluster }
{
    let name = Name::make(alloc, b"a", b"c", b"o")?;
    let (table, mut pass) = StampTable::<C>::new(alloc, count_devices(cluster)?)?;
    let mut other = pass.split(&table, 1);
    let last = Stamp::GREATEST_UNITS;
    expect_draw(rt, &table, &mut pass, &name, last, Some(last))?;
    expect_draw(rt, &table, &mut other, &name, 5, None)?;
    expect_draw(rt, &table, &mut pass, &name, last, None)
}

// A slot has one node, and marks rise with losses.
fn claim_and_lose<C: OfCluster>(
    rt: &impl Abort,
    alloc: Global,
    cluster: &Cluster,
) -> Result<(), Fail>
    requires { cluster.now ≡ C.cluster }
{
    let (table, mut pass) = StampTable::<C>::new(alloc, count_devices(cluster)?)?;
    let Ok(mut node) = pass.note(&table).claim(&table, 2) else {
        return Err("it was claimed before".into());
    };
    assert_eq!(rt; node.position(), 2);
    assert!(rt; pass.note(&table).claim(&table, 2).is_err());
    assert!(rt; pass.note(&table).claim(&table, 1).is_ok());
    assert_eq!(rt; pass.loss_mark(&table), 0);
    node.join(&table, pass.note(&table));
    if !node.may_lose(&table) {
        return Err("there is no room for a loss".into());
    }
    assert_eq!(rt; node.loss(&table), 0);
    assert_eq!(rt; pass.loss_mark(&table), 1);
    pass.join(&table, node.note(&table));
    assert_eq!(rt; pass.loss_mark(&table), 1);
    Ok(())
}

fn on_cluster(rt: &impl Abort, alloc: Global, cluster: &Cluster) -> Result<(), Fail> {
    draw_stamps::<Brand>(rt, alloc, cluster)?;
    spend_stamps::<Brand>(rt, alloc, cluster)?;
    claim_and_lose::<Brand>(rt, alloc, cluster)
}

#[test]
fn draws_claims_and_loses(rt: HostRuntime) -> Result<(), Fail> {
    let cluster = Cluster::read(rt.alloc(), built_in())?;
    on_cluster(&rt, rt.alloc(), &cluster)
}
