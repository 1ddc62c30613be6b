//! Doors in memory, for tests: they tell all that goes out and comes back, and can be set to fail.

ghost use Rattle.std.specs.Prelude.{◌≡◌, ◌∷◌, ◌↔◌, ◌<◌, [], true, false, length, vec_len, All, IfOk, IfSome, IsErr, IsFalse, IsTrue, is_ok, vec_capacity};
ghost use Rattle.sw_words.specs.Counts.{CountsFailure, FailsByCount};
ghost use Rattle.sw_io.specs.Doors.{HandsOut, TakesBack, handed_after, with_done};
ghost use Rattle.sw_io.specs.Memory.{IsUnused, one_fewer};

use crate::fuse::Fuse;
use crate::{DoorFailed, Doors, MemConn};
use std::alloc::Global;
use std::collections::VecDeque;
use std::marker::Model;
use sw_types::NoMemory;

/// Doors through which the connections come that they were made with. Room for so many finished ones is made with them:
/// one more than that may be lost for want of memory, which is a fault. `open` and `accept` have one fuse.
#[derive(Debug, Drop)]
pub struct MemDoors {
    left: VecDeque<MemConn>,
    back: Vec<MemConn>,
    port: Option<u16>,
    is_open: bool,
    handed: u64,
    fuse: Fuse,
}

impl Model for MemDoors {
    ghost use Rattle.std.specs.Prelude.{All, option_to_list, vec_capacity};
    ghost use Rattle.sw_io.specs.Memory.{DoorsModel, IsUnused};

    ghost Value = { DoorsModel };

    ghost view = { λ d. record { left = d.left.items; back = d.back.items; room = vec_capacity d.back; ports = option_to_list d.port; is_open = d.is_open; handed = d.handed; calls_left = d.fuse.calls_left; faults = d.fuse.faults } };

    ghost invariant = { λ d. All IsUnused d.left.items };
}

impl MemDoors {
    /// Doors through which these connections come, in their order, and then no more.
    pub fn new(alloc: Global, conns: Vec<MemConn>) -> Result<Self, NoMemory>
        requires { All IsUnused conns.items }
        ensures { IfOk result (λ doors. doors ≡ record { left = conns.items; back = []; room = vec_len conns; ports = []; is_open = false; handed = 0; calls_left = None; faults = 0 }) }
    {
        let back = Vec::with_capacity(alloc, conns.len())?;
        Ok(MemDoors {
            left: VecDeque::from(conns),
            back,
            port: None,
            is_open: false,
            handed: 0,
            fuse: Fuse::new(),
        })
    }

    /// Lets `calls` further calls of `open` and `accept` go on. Each one after them fails: it hands out nothing, and is
    /// counted as a fault.
    pub fn fuse(&mut self, calls: u64)
        ensures { self.new ≡ record self.old { calls_left = Some calls } }
    {
        self.fuse.calls_left = Some(calls);
    }

    /// The connections that were taken back.
    pub fn back(&self) -> &[MemConn]
        ensures { result.now ≡ self.now.back }
    {
        &self.back
    }

    /// How many connections were handed out.
    pub fn handed(&self) -> u64
        ensures { result ≡ self.now.handed }
    {
        self.handed
    }
}

// Takes a connection back, if one is given, and tells whether there was memory for it.
fn take_back(back: &mut Vec<MemConn>, done: Option<MemConn>) -> bool
    ensures kept { IsTrue result → Some back.new.items ≡ with_done (Some back.old.items) done }
    ensures lost { IsFalse result → back.new.items ≡ back.old.items }
    ensures room { vec_len back.old < vec_capacity back.old → IsTrue result }
{
    match done {
        Some(conn) => back.push(conn).is_ok(),
        None => true,
    }
}

impl Doors for MemDoors {
    ghost use Rattle.std.specs.Prelude.{Some};

    type Conn = MemConn;

    ghost ports = { λ d. d.ports };

    ghost is_open = { λ d. d.is_open };

    ghost handed = { λ d. d.handed };

    ghost back = { λ d. Some d.back };

    ghost left = { λ d. Some d.left };

    ghost faults = { λ d. d.faults };

    fn open(&mut self, port: u16) -> Result<(), DoorFailed>
        requires { self.old.ports ≡ [] }
        ensures ports { self.new.ports ≡ port ∷ [] }
        ensures opened { self.new.is_open ≡ is_ok result }
        ensures handed { self.new.handed ≡ self.old.handed }
        ensures back { Some self.new.back ≡ Some self.old.back }
        ensures left { Some self.new.left ≡ Some self.old.left }
        ensures cause { FailsByCount self.old.faults self.new.faults result }
        ensures counted { CountsFailure self.old.faults self.new.faults result }
        ensures room { self.new.room ≡ self.old.room }
        ensures fails { IsErr result ↔ (self.old.calls_left ≡ Some 0) }
        ensures calls { self.new.calls_left ≡ one_fewer self.old.calls_left }
    {
        self.port = Some(port);
        self.is_open = self.fuse.passes();
        if self.is_open {
            Ok(())
        } else {
            Err(DoorFailed)
        }
    }

    fn accept(&mut self, done: Option<MemConn>) -> Result<Option<MemConn>, DoorFailed>
        requires { self.old.is_open ≡ true }
        ensures back { TakesBack (Some self.old.back) (Some self.new.back) done result }
        ensures left { HandsOut (Some self.old.left) (Some self.new.left) result }
        ensures handed { self.new.handed ≡ handed_after self.old.handed result }
        ensures no_fault { IfOk result (λ next. IfSome next (λ conn. conn.faults ≡ 0)) }
        ensures not_closed { IfOk result (λ next. IfSome next (λ conn. conn.is_closed ≡ false)) }
        ensures not_written { IfOk result (λ next. IfSome next (λ conn. IfSome (Some conn.written) (λ bytes. bytes ≡ []))) }
        ensures ports { self.new.ports ≡ self.old.ports }
        ensures is_open { self.new.is_open ≡ self.old.is_open }
        ensures cause { FailsByCount self.old.faults self.new.faults result }
        ensures counted { CountsFailure self.old.faults self.new.faults result }
        ensures none_lost { length self.old.back < self.old.room → Some self.new.back ≡ with_done (Some self.old.back) done }
        ensures fails { length self.old.back < self.old.room → IsErr result ↔ (self.old.calls_left ≡ Some 0) }
        ensures calls { self.new.calls_left ≡ one_fewer self.old.calls_left }
    {
        let is_back = take_back(&mut self.back, done);
        if !self.fuse.passes() {
            return Err(DoorFailed);
        }
        if !is_back {
            self.fuse.fail();
            return Err(DoorFailed);
        }
        let next = self.left.pop_front();
        if next.is_some() {
            self.handed = self.handed.saturating_add(1);
        }
        Ok(next)
    }
}
