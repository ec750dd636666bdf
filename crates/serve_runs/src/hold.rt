//! What holds threads until others have come so far.

use std::sync::atomic::{AtomicBool, AtomicU64, Ordering};
use std::thread;
use std::time::{Clock, Duration};
use vector_lines::output::Output;
use worker_gate::gate::{Gate, Point};

/// How often a held thread sleeps at most.
const TURNS: u32 = 10_000;

/// For how many milliseconds it sleeps each time.
const TURN: u64 = 1;

/// How often something was done.
#[derive(Drop)]
pub struct Steps {
    count: AtomicU64,
}

impl Steps {
    /// Nothing was done.
    pub fn new() -> Steps {
        Steps {
            count: AtomicU64::new(0),
        }
    }

    /// Counts one more, and tells which it is, from 1.
    pub fn step(&self) -> u64 {
        self.count.fetch_add(1, Ordering::SeqCst).saturating_add(1)
    }

    /// Says whether it was done.
    pub fn came(&self) -> bool {
        self.count.load(Ordering::SeqCst) > 0
    }

    /// Holds a thread until it was done. It says whether that came in time.
    pub fn wait<R: Clock>(&self, rt: &R) -> bool {
        for _ in 0..TURNS {
            if self.came() {
                return true;
            }
            thread::sleep(rt, Duration::from_millis(TURN));
        }
        false
    }
}

/// Which of two workers is held, and until what.
#[derive(Clone, Copy)]
pub enum Hold {
    /// Nobody, while a message waits for an answer.
    Nobody,
    /// Nobody, while the history is full again and again.
    NobodyInRounds,
    /// Each at its first request, until the other is at its own first.
    AtFirst,
    /// One at its second request, until the other has written a piece.
    AtSecond {
        /// The one that is held.
        worker: u32,
    },
}

/// Adds what a run is for.
pub fn put_hold(out: &mut Output, hold: Hold) {
    match hold {
        Hold::Nobody => out.text("a message that waits for the handshake's answer"),
        Hold::NobodyInRounds => out.text("a history that has room for one connection"),
        Hold::AtFirst => out.text("each is held at its first request"),
        Hold::AtSecond { worker } => {
            out.text("worker ");
            out.shown(&worker);
            out.text(" is held at its second request");
        }
    }
}

/// How far a worker has come.
#[derive(Drop)]
struct Progress {
    requests: Steps,
    pieces: Steps,
}

impl Progress {
    fn new() -> Progress {
        Progress {
            requests: Steps::new(),
            pieces: Steps::new(),
        }
    }
}

/// A gate that holds two workers.
#[derive(Drop)]
pub struct HoldGate<'a, R: Clock> {
    rt: &'a R,
    hold: Hold,
    first: Progress,
    second: Progress,
    ran_out: AtomicBool,
}

impl<'a, R: Clock> HoldGate<'a, R> {
    /// A gate that no worker has come to.
    pub fn new(rt: &'a R, hold: Hold) -> HoldGate<'a, R> {
        HoldGate {
            rt,
            hold,
            first: Progress::new(),
            second: Progress::new(),
            ran_out: AtomicBool::new(false),
        }
    }

    /// Says whether a worker was held for as long as it may be.
    pub fn ran_out(&self) -> bool {
        self.ran_out.load(Ordering::SeqCst)
    }

    /// Holds a worker at its request of this number, where that is to be held.
    fn hold_back(&self, worker: u32, request: u64, other: &Progress) {
        let in_time = match self.hold {
            Hold::AtFirst if request == 1 => other.requests.wait(self.rt),
            Hold::AtSecond { worker: held } if worker == held && request == 2 => {
                other.pieces.wait(self.rt)
            }
            _ => true,
        };
        if !in_time {
            self.ran_out.store(true, Ordering::SeqCst);
        }
    }
}

impl<'a, R: Clock> Gate for HoldGate<'a, R> {
    fn at(&self, worker: u32, point: Point) {
        let (own, other) = if worker == 1 {
            (&self.first, &self.second)
        } else {
            (&self.second, &self.first)
        };
        match point {
            Point::Read => {
                let request = own.requests.step();
                self.hold_back(worker, request, other);
            }
            Point::Written => {
                own.pieces.step();
            }
        }
    }
}
