//! The clock of the system.

ghost use Rattle.std.specs.Prelude.{◌≡◌};

use portal_base::outside::Clock;
use std::marker::Model;
use std::time;

/// The clock of the system, which contracts see as its count of faults.
///
/// A clock that can't be read, or that is set before 1970, is a fault; then it
/// shows what it showed last, and 0 where it never showed anything.
#[derive(Drop)]
pub struct SystemClock<R> {
    clock: R,
    shown: u64,
    faults: u64,
}

impl<R> Model for SystemClock<R> {
    ghost use Rattle.std.specs.Prelude.{ℕ};

    ghost Value = { ℕ };

    ghost view = { λ c. c.faults };
}

impl<R> SystemClock<R> {
    /// A clock that shows what the runtime's does, without faults so far.
    pub fn new(clock: R) -> SystemClock<R>
        ensures { result ≡ 0 }
    {
        SystemClock {
            clock,
            shown: 0,
            faults: 0,
        }
    }

    /// How many times it couldn't be read.
    pub fn faults(&self) -> u64
        ensures { result ≡ self.now }
    {
        self.faults
    }
}

impl<R: time::Clock> Clock for SystemClock<R> {
    ghost use Rattle.std.specs.Prelude.{◌≡◌, ◌⊎◌};
    ghost use Rattle.portal_base.specs.Outside.{rises_by};

    ghost reads = { λ old _ new. (new ≡ old) ⊎ (new ≡ rises_by old 1) };

    fn now(&mut self) -> u64 {
        match self.clock.since_1970() {
            Ok(time) => self.shown = time.as_secs(),
            // `Clock` has no answer for a fault, so it shows what it showed last.
            Err(_) => self.faults = self.faults.saturating_add(1),
        }
        self.shown
    }
}
