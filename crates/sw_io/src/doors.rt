//! Doors, through which connections come.

ghost use Rattle.std.specs.Prelude.{◌≡◌, ℕ, Bool, true, false, List, [], ◌∷◌, Option, IfOk, IfSome, is_ok};
ghost use Rattle.sw_words.specs.Counts.{CountsFailure, FailsByCount};
ghost use Rattle.sw_io.specs.Doors.{HandsOut, TakesBack, handed_after};

use crate::Conn;
use thiserror::Error;

/// The doors failed, and their count of faults rose.
#[derive(Clone, Copy, Debug, PartialEq, Eq, Error)]
#[error("the doors failed")]
pub struct DoorFailed;

/// Where connections come from, and where they go back to when they are finished.
pub trait Doors {
    type Conn: Conn + Send + Drop;

    /// The ports that `open` was given.
    ghost ports: { Self → List ℕ };

    /// Whether an `open` succeeded.
    ghost is_open: { Self → Bool };

    /// How many connections were handed out. The count stays at its type's last value.
    ghost handed: { Self → ℕ };

    /// The connections that were taken back, as they then were, where the doors tell.
    ghost back: { Self → Option (List Self.Conn) };

    /// The connections that are yet to come, where the doors tell.
    ghost left: { Self → Option (List Self.Conn) };

    /// How often `open` or `accept` has failed.
    ghost faults: { Self → ℕ };

    /// Opens the doors at a port.
    fn open(&mut self, port: u16) -> Result<(), DoorFailed>
        requires { ports self.old ≡ [] }
        ensures ports { ports self.new ≡ port ∷ [] }
        ensures opened { is_open self.new ≡ is_ok result }
        ensures handed { handed self.new ≡ handed self.old }
        ensures back { back self.new ≡ back self.old }
        ensures left { left self.new ≡ left self.old }
        ensures cause { FailsByCount (faults self.old) (faults self.new) result }
        ensures counted { CountsFailure (faults self.old) (faults self.new) result };

    /// Takes a finished connection back, if one is given, and answers the next one, or `None` where no connection will
    /// come any more. At `Err` none is handed out, and a finished one may be lost.
    fn accept(&mut self, done: Option<Self::Conn>) -> Result<Option<Self::Conn>, DoorFailed>
        requires { is_open self.old ≡ true }
        ensures back { TakesBack (back self.old) (back self.new) done result }
        ensures left { HandsOut (left self.old) (left self.new) result }
        ensures handed { handed self.new ≡ handed_after (handed self.old) result }
        ensures no_fault { IfOk result (λ next. IfSome next (λ conn. Self.Conn.faults conn ≡ 0)) }
        ensures not_closed { IfOk result (λ next. IfSome next (λ conn. Self.Conn.closed conn ≡ false)) }
        ensures not_written { IfOk result (λ next. IfSome next (λ conn. IfSome (Self.Conn.written conn) (λ bytes. bytes ≡ []))) }
        ensures ports { ports self.new ≡ ports self.old }
        ensures is_open { is_open self.new ≡ is_open self.old }
        ensures cause { FailsByCount (faults self.old) (faults self.new) result }
        ensures counted { CountsFailure (faults self.old) (faults self.new) result };
}
