//! Gates that hold workers, for tests.

use std::sync::atomic::{AtomicBool, AtomicU64, Ordering};
use std::thread::yield_now;
use sw_io::{Gate, GatePoint};

// So long a worker is held at most.
const TURNS: u32 = 100_000_000;

// No worker has this number.
const NOBODY: u64 = u64::MAX;

/// A gate that counts what workers pass.
#[derive(Drop)]
pub(crate) struct NotingGate {
    pub(crate) accepted: AtomicU64,
    pub(crate) sent: AtomicU64,
    pub(crate) repairs: AtomicU64,
}

impl NotingGate {
    pub(crate) fn new() -> NotingGate {
        NotingGate {
            accepted: AtomicU64::new(0),
            sent: AtomicU64::new(0),
            repairs: AtomicU64::new(0),
        }
    }
}

impl Gate for NotingGate {
    fn at(&self, worker: u16, point: GatePoint) {
        let count = match (worker, point) {
            (0, GatePoint::Accepted) => &self.accepted,
            (0, GatePoint::BeforeMessage) => &self.sent,
            (1, GatePoint::BeforeMessage) => &self.repairs,
            _ => return,
        };
        count.fetch_add(1, Ordering::SeqCst);
    }
}

/// The answers that worker 1, which repairs, has: until so many are there others may wait.
#[derive(Drop)]
pub(crate) struct Repairs {
    least: u64,
    answers: AtomicU64,
    are_there: AtomicBool,
    pub(crate) gave_up: AtomicBool,
}

impl Repairs {
    pub(crate) fn new(least: u64) -> Repairs {
        Repairs {
            least,
            answers: AtomicU64::new(0),
            are_there: AtomicBool::new(false),
            gave_up: AtomicBool::new(false),
        }
    }

    // Waits until they are there.
    fn wait(&self) {
        wait_for(&self.are_there, &self.gave_up);
    }
}

impl Gate for Repairs {
    fn at(&self, worker: u16, point: GatePoint) {
        if worker != 1 || point != GatePoint::Answered {
            return;
        }
        let answers = self
            .answers
            .fetch_add(1, Ordering::SeqCst)
            .saturating_add(1);
        if answers == self.least {
            self.are_there.store(true, Ordering::SeqCst);
        }
    }
}

/// A gate that holds worker 0 at its second connection until worker 1, which repairs, has so many answers.
#[derive(Drop)]
pub(crate) struct RepairGate {
    pub(crate) repairs: Repairs,
    accepted: AtomicU64,
}

impl RepairGate {
    pub(crate) fn new(least: u64) -> RepairGate {
        RepairGate {
            repairs: Repairs::new(least),
            accepted: AtomicU64::new(0),
        }
    }
}

impl Gate for RepairGate {
    fn at(&self, worker: u16, point: GatePoint) {
        self.repairs.at(worker, point);
        if worker == 0 && point == GatePoint::Accepted {
            if self.accepted.fetch_add(1, Ordering::SeqCst) == 1 {
                self.repairs.wait();
            }
        }
    }
}

/// A gate that holds worker 1, which repairs, at its first message until two connections have ended, and lingers with worker 0.
#[derive(Drop)]
pub(crate) struct EndsGate {
    least: u64,
    served: AtomicU64,
    answers: AtomicU64,
    is_repairing: AtomicBool,
    have_ended: AtomicBool,
    are_there: AtomicBool,
    pub(crate) was_early: AtomicBool,
    pub(crate) gave_up: AtomicBool,
}

impl EndsGate {
    pub(crate) fn new(least: u64) -> EndsGate {
        EndsGate {
            least,
            served: AtomicU64::new(0),
            answers: AtomicU64::new(0),
            is_repairing: AtomicBool::new(false),
            have_ended: AtomicBool::new(false),
            are_there: AtomicBool::new(false),
            was_early: AtomicBool::new(false),
            gave_up: AtomicBool::new(false),
        }
    }

    /// Holds who asks for a second connection until worker 1 sends a message, and who asks for a third one until it has so many
    /// answers.
    pub(crate) fn hold(&self, asked: u64) {
        if asked == 2 {
            wait_for(&self.is_repairing, &self.gave_up);
        }
        if asked == 3 {
            self.have_ended.store(true, Ordering::SeqCst);
            wait_for(&self.are_there, &self.gave_up);
        }
    }

    /// How many answers worker 1 has.
    pub(crate) fn answers(&self) -> u64 {
        self.answers.load(Ordering::SeqCst)
    }

    // Worker 1 sends a message, too early where worker 0 has not yet the six answers of its first put.
    fn repair(&self) {
        if self.served.load(Ordering::SeqCst) < 6 {
            self.was_early.store(true, Ordering::SeqCst);
        }
        self.is_repairing.store(true, Ordering::SeqCst);
        wait_for(&self.have_ended, &self.gave_up);
    }

    // Worker 1 has an answer.
    fn answer(&self) {
        let before = self.answers.fetch_add(1, Ordering::SeqCst);
        if before.saturating_add(1) == self.least {
            self.are_there.store(true, Ordering::SeqCst);
        }
    }
}

impl Gate for EndsGate {
    fn at(&self, worker: u16, point: GatePoint) {
        match (worker, point) {
            (0, GatePoint::Accepted) | (0, GatePoint::BeforeMessage) => linger(),
            (0, GatePoint::Answered) => {
                self.served.fetch_add(1, Ordering::SeqCst);
            }
            (1, GatePoint::BeforeMessage) => self.repair(),
            (1, GatePoint::Answered) => self.answer(),
            _ => {}
        }
    }
}

/// A gate that holds each worker at its connection until so many have one.
#[derive(Drop)]
pub(crate) struct CrowdGate {
    workers: u64,
    accepted: AtomicU64,
    are_there: AtomicBool,
    pub(crate) gave_up: AtomicBool,
}

impl CrowdGate {
    pub(crate) fn new(workers: u64) -> CrowdGate {
        CrowdGate {
            workers,
            accepted: AtomicU64::new(0),
            are_there: AtomicBool::new(false),
            gave_up: AtomicBool::new(false),
        }
    }
}

impl Gate for CrowdGate {
    fn at(&self, _worker: u16, point: GatePoint) {
        if point != GatePoint::Accepted {
            return;
        }
        let accepted = self
            .accepted
            .fetch_add(1, Ordering::SeqCst)
            .saturating_add(1);
        if accepted == self.workers {
            self.are_there.store(true, Ordering::SeqCst);
        }
        wait_for(&self.are_there, &self.gave_up);
    }
}

/// A gate for two workers, with a put each. That which gets its connection first is held before its second message until the other one has the
/// answers to all six of its own; and that is held as it gets its connection until the first one is.
#[derive(Drop)]
pub(crate) struct RaceGate {
    first: AtomicU64,
    sent: AtomicU64,
    answers: AtomicU64,
    is_held: AtomicBool,
    is_answered: AtomicBool,
    pub(crate) gave_up: AtomicBool,
}

impl RaceGate {
    pub(crate) fn new() -> RaceGate {
        RaceGate {
            first: AtomicU64::new(NOBODY),
            sent: AtomicU64::new(0),
            answers: AtomicU64::new(0),
            is_held: AtomicBool::new(false),
            is_answered: AtomicBool::new(false),
            gave_up: AtomicBool::new(false),
        }
    }

    // The first worker sends a message.
    fn send(&self) {
        if self.sent.fetch_add(1, Ordering::SeqCst) == 1 {
            self.is_held.store(true, Ordering::SeqCst);
            wait_for(&self.is_answered, &self.gave_up);
        }
    }

    // The other one has an answer.
    fn answer(&self) {
        if self.answers.fetch_add(1, Ordering::SeqCst) == 5 {
            self.is_answered.store(true, Ordering::SeqCst);
        }
    }
}

impl Gate for RaceGate {
    fn at(&self, worker: u16, point: GatePoint) {
        if worker > 1 {
            return;
        }
        let me = u64::from(worker);
        let is_first = self.first.load(Ordering::SeqCst) == me;
        match point {
            GatePoint::Accepted => {
                let found = self
                    .first
                    .compare_exchange(NOBODY, me, Ordering::SeqCst, Ordering::SeqCst);
                if found.is_err() && !is_first {
                    wait_for(&self.is_held, &self.gave_up);
                }
            }
            GatePoint::BeforeMessage if is_first => self.send(),
            GatePoint::Answered if !is_first => self.answer(),
            _ => {}
        }
    }
}

// Lets others go on for a while.
fn linger() {
    for _ in 0..10_000 {
        yield_now();
    }
}

// Waits until this is so, for some turns at most.
fn wait_for(is_so: &AtomicBool, gave_up: &AtomicBool) {
    for _ in 0..TURNS {
        if is_so.load(Ordering::SeqCst) {
            return;
        }
        yield_now();
    }
    gave_up.store(true, Ordering::SeqCst);
}
