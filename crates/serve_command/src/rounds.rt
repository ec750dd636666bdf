//! The rounds of a service: what the history of one has cost, and how it ends.

use crate::spend::{REQUEST_COST, spending_request};
use std::sync::atomic::{AtomicBool, AtomicU64, Ordering};
use std::time::Duration;
use std::{io, thread};
use unix_links::Bell;

/// How many steps each post has at the end of a round before they are slowed down.
const STEPS_OF_POST: u64 = 256;

/// How long a step then takes, in milliseconds.
const PAUSE: u64 = 100;

/// How often a link that doesn't spend waits for one that does, at first for a millisecond,
/// and each time twice as long as before.
const WAITS: u32 = 36;

/// How long it waits at most each time, in milliseconds.
const LONGEST_WAIT: u64 = 16;

/// The rounds of a service.
///
/// A round ends where its history has no room. Then a bell rings until the history was renewed:
/// each connection ends, and each post gets links of the program's own, until one is refused
/// since the history is full. Where the history has some room left, links of the host's mount
/// spend that first, since else a connection would still be taken.
#[derive(Drop)]
pub(crate) struct Rounds<'a> {
    system: &'a HostRuntime,
    bell: io::Result<Bell>,
    limit: AtomicU64,
    posts: AtomicU64,
    number: AtomicU64,
    spent: AtomicU64,
    is_over: AtomicBool,
    steps: AtomicU64,
}

impl<'a> Rounds<'a> {
    /// The first round, without a limit so far.
    pub(crate) fn new(system: &'a HostRuntime) -> Rounds<'a> {
        Rounds {
            system,
            bell: Bell::new(system),
            limit: AtomicU64::new(u64::MAX),
            posts: AtomicU64::new(0),
            number: AtomicU64::new(1),
            spent: AtomicU64::new(0),
            is_over: AtomicBool::new(false),
            steps: AtomicU64::new(0),
        }
    }

    /// The bell, or why there is none.
    pub(crate) fn bell(&self) -> Result<&Bell, &io::Error> {
        self.bell.as_ref()
    }

    /// A history may cost so many bytes.
    pub(crate) fn limit(&self, limit: u64) {
        self.limit.store(limit, Ordering::SeqCst);
    }

    /// There are so many posts.
    pub(crate) fn expect(&self, posts: u64) {
        self.posts.store(posts, Ordering::SeqCst);
    }

    /// A request was answered that costs so much. Where no further one has room the round is over.
    pub(crate) fn spend(&self, cost: u64) {
        let limit = self.limit.load(Ordering::SeqCst);
        let before = self.spent.fetch_add(cost, Ordering::SeqCst);
        let after = before.saturating_add(cost);
        if !self.is_over.load(Ordering::SeqCst) {
            self.tell_use(limit, before, after);
        }
        if limit.saturating_sub(after) < REQUEST_COST {
            self.end();
        }
    }

    /// Tells where a request was the one by which half of the history is used, or nine tenths.
    fn tell_use(&self, limit: u64, before: u64, after: u64) {
        let half = limit / 2;
        let most = limit.saturating_sub(limit / 10);
        if before < half && half <= after {
            self.tell("half of the history is used");
        }
        if before < most && most <= after {
            self.tell("nine tenths of the history are used");
        }
    }

    /// The history has no room for a request: the round is over.
    pub(crate) fn end(&self) {
        if self.is_over.swap(true, Ordering::SeqCst) {
            return;
        }
        self.tell("the history is full, and each connection is closed");
        if let Ok(bell) = &self.bell {
            bell.ring();
        }
    }

    /// The history was renewed behind so many rounds.
    pub(crate) fn begin(&self, rounds: u64) {
        self.number
            .store(rounds.saturating_add(1), Ordering::SeqCst);
        self.spent.store(0, Ordering::SeqCst);
        self.steps.store(0, Ordering::SeqCst);
        self.tell("a new history begins");
        if !self.is_over.swap(false, Ordering::SeqCst) {
            return;
        }
        if let Ok(bell) = &self.bell {
            bell.still();
        }
    }

    /// A post is about to get a link of the program's own.
    pub(crate) fn give(&self, spends: bool) {
        self.step();
        if spends {
            return;
        }
        // The rest is spent within some milliseconds. Where nobody spends it this link's Enter
        // does its part.
        let mut pause = 1_u64;
        for _ in 0..WAITS {
            if self.room() < REQUEST_COST {
                return;
            }
            thread::sleep(self.system, Duration::from_millis(pause));
            pause = pause.saturating_mul(2).min(LONGEST_WAIT);
        }
    }

    /// Puts a request into a buffer that spends what the history has left: how long it is, which is
    /// 0 where nothing is left.
    pub(crate) fn fill(&self, buffer: &mut [u8]) -> usize {
        self.step();
        spending_request(self.room(), buffer)
    }

    /// What the history has left.
    fn room(&self) -> u64 {
        let spent = self.spent.load(Ordering::SeqCst);
        self.limit.load(Ordering::SeqCst).saturating_sub(spent)
    }

    /// A step at the end of a round. It takes a moment where there were many: so a history that
    /// can't be renewed for want of memory keeps no processor busy.
    fn step(&self) {
        let most = self
            .posts
            .load(Ordering::SeqCst)
            .saturating_mul(STEPS_OF_POST);
        if self.steps.fetch_add(1, Ordering::SeqCst) >= most {
            thread::sleep(self.system, Duration::from_millis(PAUSE));
        }
    }

    /// Tells something of this round on standard error.
    fn tell(&self, what: &str) {
        let number = self.number.load(Ordering::SeqCst);
        let limit = self.limit.load(Ordering::SeqCst);
        let _ = eprintln!(self.system;
            "docportal: round {number}: {what} ({limit} bytes of --history)"
        );
    }
}
