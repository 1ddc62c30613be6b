//! Doors behind a lock, through which workers get connections.

ghost use Rattle.std.specs.Prelude.{◌≡◌, ◌↔◌, IfSome, IsTrue, true};
ghost use Rattle.sw_server.specs.Acceptor.{IsCounting};
ghost use Rattle.sw_server.specs.Ending.{IsStop};
ghost use Rattle.sw_server.specs.Served.{HasArrived, IsServed};
ghost use Rattle.sw_server.specs.Visits.{IsFresh, seen_of};

use crate::end::Stop;
use crate::opening::Opening;
use std::marker::{Model, PhantomData};
use sw_cell::Site;
use sw_io::{Clock, Doors};
use sw_pass::{OfCluster, Pass, StampTable};

/// How doors stand.
#[derive(Clone, Copy, Debug, PartialEq, Eq)]
pub(crate) enum DoorsState {
    /// Connections may come.
    Open,
    /// No other one comes.
    Ended,
    /// They failed, and their count of faults rose.
    Failed,
    /// As many connections came or went as can be counted.
    Full,
}

impl DoorsState {
    // Whether connections are counted.
    fn is_counting(self) -> bool
        ensures { IsTrue result ↔ IsCounting self }
    {
        matches!(self, DoorsState::Open | DoorsState::Ended)
    }
}

/// Doors that are lent.
#[derive(Drop)]
pub(crate) struct Lent<'a, A: Doors> {
    pub(crate) doors: &'a mut A,
}

/// Doors that come back, and why no other connection is served.
#[derive(Drop)]
pub(crate) struct Finished<'a, A: Doors> {
    pub(crate) doors: &'a mut A,
    pub(crate) stop: Stop,
}

/// Doors, with a seat of the stamp table that knows what each worker knew as it was finished with a connection: each connection that was taken
/// back was served, as the seat knows.
#[derive(Drop)]
pub(crate) struct Acceptor<'a, A: Doors, T: Clock, C: OfCluster, J: Site, B: Opening> {
    lent: Lent<'a, A>,
    seat: Pass<C>,
    state: DoorsState,
    // How many connections were handed out, and how many were taken back.
    handed: u64,
    back: u64,
    of: PhantomData<(T, J, B)>,
}

impl<'a, A: Doors, T: Clock, C: OfCluster, J: Site, B: Opening> Model
    for Acceptor<'a, A, T, C, J, B> {
    ghost use Rattle.sw_server.specs.Acceptor.{AcceptorModel, IsAcceptor};

    ghost Value = { AcceptorModel A };

    ghost view = { λ it. record { doors = it.lent.doors.now; borrow = it.lent.doors.ghost_name; table = it.seat.table; known = it.seat.known; state = it.state; handed = it.handed; back = it.back } };

    ghost invariant = { λ it. IsAcceptor
        (record { ports = A.ports; is_open = A.is_open; handed = A.handed; back = A.back; left = A.left; faults = A.faults })
        (record { conns = record { remaining = A.Conn.remaining; written = A.Conn.written; faults = A.Conn.faults; closed = A.Conn.closed }; shows = T.shows; cluster = C.cluster; tells = B.tells })
        B.times B.began B.borrow J.table
        (record { doors = it.lent.doors.now; borrow = it.lent.doors.ghost_name; table = it.seat.table; known = it.seat.known; state = it.state; handed = it.handed; back = it.back }) };
}

impl<'a, A: Doors, T: Clock, C: OfCluster, J: Site, B: Opening> Acceptor<'a, A, T, C, J, B> {
    /// Open doors, through which no connection came yet.
    pub(crate) fn new(lent: Lent<'a, A>, seat: Pass<C>) -> Acceptor<'a, A, T, C, J, B>
        requires borrow { lent.doors.ghost_name ≡ B.borrow }
        requires opened { A.is_open lent.doors.now ≡ true }
        requires began { B.began ≡ seen_of
            (record { ports = A.ports; is_open = A.is_open; handed = A.handed; back = A.back; left = A.left; faults = A.faults })
            (record { remaining = A.Conn.remaining; written = A.Conn.written; faults = A.Conn.faults; closed = A.Conn.closed })
            lent.doors.now }
        requires table { seat.table ≡ J.table }
    {
        Acceptor {
            lent,
            seat,
            state: DoorsState::Open,
            handed: 0,
            back: 0,
            of: PhantomData,
        }
    }

    /// Takes a finished connection back, if one is given, with all that its worker's pass knows, and answers the next one, or `None` where this
    /// worker gets no other one.
    pub(crate) fn accept(
        &mut self,
        table: &StampTable<C>,
        pass: &mut Pass<C>,
        done: Option<A::Conn>,
    ) -> Option<A::Conn>
        requires table { (table.now ≡ J.table) × (pass.old.table ≡ J.table) }
        requires served { IfSome done (IsServed
            (record { conns = record { remaining = A.Conn.remaining; written = A.Conn.written; faults = A.Conn.faults; closed = A.Conn.closed }; shows = T.shows; cluster = C.cluster; tells = B.tells })
            B.times B.began.left pass.old.known) }
        ensures pass { pass.new ≡ pass.old }
        ensures fresh { IfSome result (IsFresh (record { remaining = A.Conn.remaining; written = A.Conn.written; faults = A.Conn.faults; closed = A.Conn.closed })) }
        ensures arrived { IfSome result (λ conn. HasArrived B.began.left (A.Conn.remaining conn)) }
    {
        self.seat.join(table, pass.note(table));
        if !self.state.is_counting() {
            return None;
        }
        let Some(handed) = self.handed.checked_add(1) else {
            self.state = DoorsState::Full;
            return None;
        };
        let Some(back) = self.back.checked_add(u64::from(done.is_some())) else {
            self.state = DoorsState::Full;
            return None;
        };
        match self.lent.doors.accept(done) {
            Ok(Some(conn)) => {
                self.handed = handed;
                self.back = back;
                Some(conn)
            }
            Ok(None) => {
                self.state = DoorsState::Ended;
                self.back = back;
                None
            }
            Err(_) => {
                self.state = DoorsState::Failed;
                None
            }
        }
    }

    /// The doors, and why no other connection is served. The pass knows all that the seat does.
    pub(crate) fn close(self, table: &StampTable<C>, pass: &mut Pass<C>) -> Finished<'a, A>
        requires table { (table.now ≡ J.table) × (pass.old.table ≡ J.table) }
        ensures borrow { result.doors.ghost_name ≡ B.borrow }
        ensures table { pass.new.table ≡ J.table }
        ensures stop { IsStop
            (record { ports = A.ports; is_open = A.is_open; handed = A.handed; back = A.back; left = A.left; faults = A.faults })
            (record { conns = record { remaining = A.Conn.remaining; written = A.Conn.written; faults = A.Conn.faults; closed = A.Conn.closed }; shows = T.shows; cluster = C.cluster; tells = B.tells })
            B.times B.began result.stop result.doors.now pass.new.known }
    {
        let Acceptor {
            lent,
            mut seat,
            state,
            handed,
            back,
            ..
        } = self;
        pass.join(table, seat.note(table));
        let stop = match state {
            // So it always is. That each worker took back what it handed out no contract can say.
            DoorsState::Ended if back == handed => Stop::Ended { count: handed },
            DoorsState::Failed => Stop::Failed,
            _ => Stop::NoMemory,
        };
        let Lent { doors } = lent;
        Finished { doors, stop }
    }
}
