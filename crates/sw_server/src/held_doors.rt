//! Doors that hold who asks for a connection, for tests.

ghost use Rattle.std.specs.Prelude.{◌≡◌, ◌∷◌, [], true, false, IfOk, IfSome, is_ok};
ghost use Rattle.sw_words.specs.Counts.{CountsFailure, FailsByCount};
ghost use Rattle.sw_io.specs.Doors.{HandsOut, TakesBack, handed_after};

use crate::gates::EndsGate;
use sw_io::{DoorFailed, Doors, MemConn, MemDoors};

/// Doors in memory at which a gate holds who asks for a connection.
#[derive(Drop)]
pub(crate) struct HeldDoors<'a> {
    pub(crate) doors: MemDoors,
    gate: &'a EndsGate,
    asked: u64,
}

impl<'a> HeldDoors<'a> {
    pub(crate) fn new(doors: MemDoors, gate: &'a EndsGate) -> HeldDoors<'a>
        ensures { result.doors ≡ doors }
    {
        HeldDoors {
            doors,
            gate,
            asked: 0,
        }
    }
}

impl<'a> Doors for HeldDoors<'a> {
    ghost use Rattle.std.specs.Prelude.{Some};

    type Conn = MemConn;

    ghost ports = { λ it. it.doors.ports };

    ghost is_open = { λ it. it.doors.is_open };

    ghost handed = { λ it. it.doors.handed };

    ghost back = { λ it. Some it.doors.back };

    ghost left = { λ it. Some it.doors.left };

    ghost faults = { λ it. it.doors.faults };

    fn open(&mut self, port: u16) -> Result<(), DoorFailed>
        requires { self.old.doors.ports ≡ [] }
        ensures ports { self.new.doors.ports ≡ port ∷ [] }
        ensures opened { self.new.doors.is_open ≡ is_ok result }
        ensures handed { self.new.doors.handed ≡ self.old.doors.handed }
        ensures back { Some self.new.doors.back ≡ Some self.old.doors.back }
        ensures left { Some self.new.doors.left ≡ Some self.old.doors.left }
        ensures cause { FailsByCount self.old.doors.faults self.new.doors.faults result }
        ensures counted { CountsFailure self.old.doors.faults self.new.doors.faults result }
    {
        self.doors.open(port)
    }

    fn accept(&mut self, done: Option<MemConn>) -> Result<Option<MemConn>, DoorFailed>
        requires { self.old.doors.is_open ≡ true }
        ensures back { TakesBack (Some self.old.doors.back) (Some self.new.doors.back) done result }
        ensures left { HandsOut (Some self.old.doors.left) (Some self.new.doors.left) result }
        ensures handed { self.new.doors.handed ≡ handed_after self.old.doors.handed result }
        ensures no_fault { IfOk result (λ next. IfSome next (λ conn. conn.faults ≡ 0)) }
        ensures not_closed { IfOk result (λ next. IfSome next (λ conn. conn.is_closed ≡ false)) }
        ensures not_written { IfOk result (λ next. IfSome next (λ conn. IfSome (Some conn.written) (λ bytes. bytes ≡ []))) }
        ensures ports { self.new.doors.ports ≡ self.old.doors.ports }
        ensures is_open { self.new.doors.is_open ≡ self.old.doors.is_open }
        ensures cause { FailsByCount self.old.doors.faults self.new.doors.faults result }
        ensures counted { CountsFailure self.old.doors.faults self.new.doors.faults result }
    {
        self.asked = self.asked.saturating_add(1);
        self.gate.hold(self.asked);
        self.doors.accept(done)
    }
}
