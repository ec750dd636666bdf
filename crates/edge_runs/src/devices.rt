//! The clock and the words of the system.

use crate::links::put_refusal;
use portal_base::list::List;
use portal_base::outside::{Clock, Words};
use std::cell::Cell;
use std::io::ErrorKind;
use std::random::RandomSource;
use std::time::{Duration, SystemTime, UNIX_EPOCH};
use std::{io, time};
use system_devices::{SystemClock, SystemWords};
use vector_lines::error::{VectorError, given};
use vector_lines::notation::numbers;
use vector_lines::output::Output;

/// A clock that shows these seconds one after another, and fails at 0 and behind
/// the last.
#[derive(Drop)]
struct ListClock {
    seconds: List<u64>,
    at: Cell<usize>,
}

impl time::Clock for ListClock {
    fn monotonic(&self) -> io::Result<Duration> {
        self.since_1970()
    }

    fn since_1970(&self) -> io::Result<Duration> {
        let at = self.at.get();
        self.at.set(at.saturating_add(1));
        match self.seconds.get(at) {
            Some(seconds) if *seconds > 0 => Ok(Duration::from_secs(*seconds)),
            _ => Err(io::Error::from(ErrorKind::Other)),
        }
    }
}

/// A source of random bytes that has none.
#[derive(Drop)]
struct NoBytes;

impl RandomSource for NoBytes {
    fn fill_bytes(&self, _bytes: &mut [u8]) -> io::Result<()> {
        Err(io::Error::from(ErrorKind::Other))
    }
}

/// `clock SECONDS ..`: what the clock of the system shows at four looks and counts,
/// over a clock that shows these seconds, and fails at 0 and behind the last.
pub fn clock(system: &HostRuntime, out: &mut Output, rest: &str) -> Result<(), VectorError> {
    let mut clock = SystemClock::new(ListClock {
        seconds: numbers(system.alloc(), rest)?,
        at: Cell::new(0),
    });
    out.number(clock.now());
    out.text(" ");
    out.number(clock.now());
    out.text(" ");
    out.number(clock.now());
    out.text(" ");
    out.number(clock.now());
    out.text(", faults ");
    out.number(clock.faults());
    Ok(())
}

/// `now`: whether the clock of the system shows the seconds between two looks at
/// the time.
pub fn now(system: &HostRuntime, out: &mut Output) -> Result<(), VectorError> {
    let before = seconds(system)?;
    let shown = SystemClock::new(system).now();
    let after = seconds(system)?;
    out.debug(&(before <= shown && shown <= after));
    Ok(())
}

fn seconds(system: &HostRuntime) -> Result<u64, VectorError> {
    let now = given(system.alloc(), SystemTime::now(system))?;
    let since = given(system.alloc(), now.duration_since(UNIX_EPOCH))?;
    Ok(since.as_secs())
}

/// `words`: whether four words of one seed are those of another.
pub fn words(system: &HostRuntime, out: &mut Output) -> Result<(), VectorError> {
    let words = drawn(system)?;
    let others = drawn(system)?;
    out.debug(&(words == others));
    Ok(())
}

fn drawn(system: &HostRuntime) -> Result<[u32; 4], VectorError> {
    let mut words = given(system.alloc(), SystemWords::open(system))?;
    Ok([words.next(), words.next(), words.next(), words.next()])
}

/// `no-words`: what is said where there are no random bytes.
pub fn no_words(out: &mut Output) {
    put_refusal(out, SystemWords::open(&NoBytes));
}
