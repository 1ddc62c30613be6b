//! The rule of the table, and what each step tells.

use crate::happening::{Cause, Happening, Share};
use crate::known::Known;
use atomic_table::{Join, Play, Split, TableRule};
use std::marker::{Brand, PhantomData};

/// Which cluster a table is for. Each call of a program picks it.
pub trait OfCluster {
    ghost use Rattle.sw_ring.specs.Cluster.{ClusterModel};

    ghost cluster: { ClusterModel };
}

impl OfCluster for Brand {
    ghost use Rattle.std.specs.Prelude.{[]};

    ghost cluster = { record { part_power = 0; policy = record { k = 0; m = 0; q = 0; c = 0; segment = 0 }; prefix = []; suffix = []; devices = []; rows = [] } };
}

pub struct StampRule<C: OfCluster> {
    of: PhantomData<C>,
}

impl<C: OfCluster> TableRule<(), Known, u64> for StampRule<C> {
    ghost use Rattle.sw_pass.specs.Rule.{IsKept};
    ghost use Rattle.sw_pass.specs.Steps.{newcomer};

    ghost holds = { λ devices table. IsKept C.cluster table };

    ghost first = { λ devices. newcomer };
}

/// Word 0 is raised to a clock.
pub(crate) struct Raise;

impl Play<(), Known> for Raise {
    ghost use Rattle.sw_pass.specs.Steps.{Raises};

    ghost then = { Raises };
}

/// A stamp is drawn.
pub(crate) struct Take<J: Cause> {
    cause: PhantomData<J>,
}

impl<J: Cause> Play<(), Known> for Take<J> {
    ghost use Rattle.sw_pass.specs.Steps.{Takes};

    ghost then = { Takes J.name J.object };
}

/// The losses are counted.
pub(crate) struct Read;

impl Play<(), Known> for Read {
    ghost use Rattle.sw_pass.specs.Steps.{Reads};

    ghost then = { Reads };
}

/// What a join gave is learnt.
pub(crate) struct Learn<C: OfCluster> {
    of: PhantomData<C>,
}

impl<C: OfCluster> Play<(), Known> for Learn<C> {
    ghost use Rattle.sw_pass.specs.Steps.{Learns};

    ghost then = { Learns C.cluster };
}

/// A node claims its slot.
pub(crate) struct Claim;

impl Play<(), Known> for Claim {
    ghost use Rattle.sw_pass.specs.Steps.{Claims};

    ghost then = { Claims };
}

/// A node adds an event.
pub(crate) struct Advance<J: Happening> {
    event: PhantomData<J>,
}

impl<J: Happening> Play<(), Known> for Advance<J> {
    ghost use Rattle.sw_pass.specs.Steps.{Advances};

    ghost then = { Advances J.event };
}

/// A node asks whether another loss can be counted.
pub(crate) struct Look;

impl Play<(), Known> for Look {
    ghost use Rattle.sw_pass.specs.Steps.{Looks};

    ghost then = { Looks };
}

/// A node draws the number of a loss.
pub(crate) struct Lose;

impl Play<(), Known> for Lose {
    ghost use Rattle.sw_pass.specs.Steps.{Loses};

    ghost then = { Loses };
}

/// A pass is split in two.
pub(crate) struct AsPass<J: Share> {
    share: PhantomData<J>,
}

impl<J: Share> Split<Known> for AsPass<J> {
    ghost use Rattle.sw_pass.specs.Steps.{parted, passed};

    ghost left = { parted J.passes };

    ghost right = { passed J.passes };
}

pub(crate) struct AsNote;

impl Split<Known> for AsNote {
    ghost use Rattle.sw_pass.specs.Steps.{noted};

    ghost left = { λ known. known };

    ghost right = { noted };
}

pub(crate) struct Both;

impl Join<Known> for Both {
    ghost use Rattle.sw_pass.specs.Steps.{joined, spent};

    ghost both = { joined };

    ghost spent = { spent };
}
