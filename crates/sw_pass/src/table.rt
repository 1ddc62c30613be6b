//! The table of stamps, of what happened at each device, and of losses.

ghost use Rattle.std.specs.Prelude.{◌≡◌, ◌≤◌, ◌+◌, IfOk};
ghost use Rattle.sw_ring.specs.Cluster.{KeepsRules};
ghost use Rattle.sw_pass.specs.Known.{size_of};
ghost use Rattle.sw_pass.specs.Steps.{newcomer};

use crate::known::Known;
use crate::pass::Pass;
use crate::rule::{OfCluster, StampRule};
use atomic_table::Table;
use std::alloc::Global;
use std::marker::Model;
use sw_types::NoMemory;

/// The table of a cluster. Contracts see which one it is.
#[derive(Drop)]
pub struct StampTable<C: OfCluster> {
    pub(crate) table: Table<(), Known, u64, StampRule<C>, Global>,
    pub(crate) devices: u64,
}

impl<C: OfCluster> Model for StampTable<C> {
    ghost use Rattle.std.specs.Prelude.{◌≡◌, ◌+◌, ◌≤◌};
    ghost use Rattle.atomic_table.specs.Seated.{TableId};
    ghost use Rattle.sw_pass.specs.Known.{size_of};

    ghost Value = { TableId };

    ghost view = { λ t. t.table.shared.table_id };

    ghost invariant = { λ t. (t.table.shared.table_id.words ≡ t.devices + 2) × (t.devices ≡ size_of C.cluster) × (t.devices ≤ 64) };
}

impl<C: OfCluster> StampTable<C> {
    /// The table of a cluster with so many devices, 1 to 64, and its first seat. No stamp was drawn, nothing happened yet, and no disk was lost.
    pub fn new(alloc: Global, devices: u16) -> Result<(StampTable<C>, Pass<C>), NoMemory>
        requires rules { KeepsRules C.cluster }
        requires devices { (1 ≤ devices) × (devices ≤ 64) × (devices ≡ size_of C.cluster) }
        ensures table { IfOk result (λ made. made.0.words ≡ devices + 2) }
        ensures pass { IfOk result (λ made. (made.1.table ≡ made.0) × (made.1.known ≡ newcomer)) }
    {
        let devices = u64::from(devices);
        let words = [0u64; 66];
        let (table, seat) = Table::of_words(alloc, &words[..devices as usize + 2], &devices)?;
        Ok((StampTable { table, devices }, Pass::of(seat)))
    }
}
