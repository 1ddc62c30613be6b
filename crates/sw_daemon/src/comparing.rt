//! The suffixes of a partition at its primaries.

use crate::differing::Differing;
use std::collections::VecDeque;
use std::marker::Model;
use sw_types::Items;

/// Another primary of a partition is asked for its suffixes: the own ones, those at which others differ that were asked before, and
/// those that are asked after it.
#[derive(Debug, Drop)]
pub(crate) struct Comparing {
    pub(crate) part: u32,
    pub(crate) own: Items<(u16, [u8; 16])>,
    pub(crate) differing: Differing,
    pub(crate) device: u16,
    pub(crate) others: VecDeque<u16>,
}

impl Model for Comparing {
    ghost use Rattle.sw_daemon.specs.Comparing.{Comparing};
    ghost use Rattle.sw_daemon.specs.ComparingInside.{comparing_seen};

    ghost Value = { Comparing };

    ghost view = { comparing_seen };
}
