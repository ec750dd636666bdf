//! Devices in memory, which tell what they hold.

ghost use Rattle.std.specs.Prelude.{◌≡◌, ◌<◌, ◌≤◌, ℕ, List, [], length, take, drop, Some};
ghost use Rattle.portal_base.specs.Outside.{Reads, ReadCounts, Writes, WriteCounts};

use crate::list::{ByteList, List};
use crate::outside::{Clock, ReadAnswer, Sink, Source, Words, WriteAnswer};
use std::alloc::Global;
use std::marker::Model;

/// A source of bytes in memory.
#[derive(Drop)]
pub struct MemorySource {
    bytes: ByteList,
    at: usize,
    calls: u64,
    fail_at: u64,
    faults: u64,
}

impl Model for MemorySource {
    ghost use Rattle.std.specs.Prelude.{◌≤◌, length, drop};
    ghost use Rattle.portal_base.specs.Devices.{SourceState};

    ghost Value = { SourceState };

    ghost view = { λ s. record {
      left = drop s.at s.bytes;
      calls = s.calls;
      fail_at = s.fail_at;
      faults = s.faults;
    } };

    ghost invariant = { λ s. s.at ≤ length s.bytes };
}

impl MemorySource {
    /// A source of these bytes, whose read of the number `fail_at` fails,
    /// counted from 1; with 0 none fails.
    pub fn new(bytes: ByteList, fail_at: u64) -> MemorySource
        ensures { result ≡ record { left = bytes; calls = 0; fail_at = fail_at; faults = 0 } }
    {
        MemorySource {
            bytes,
            at: 0,
            calls: 0,
            fail_at,
            faults: 0,
        }
    }
}

impl Source for MemorySource {
    ghost use Rattle.std.specs.Prelude.{Some};
    ghost use Rattle.portal_base.specs.Devices.{CountsRead};

    ghost left = { λ s. Some s.left };

    ghost faults = { λ s. s.faults };

    fn read(&mut self, buffer: &mut [u8]) -> ReadAnswer
        requires { 0 < length buffer.old }
        ensures reads { Reads (Some self.old.left) buffer.new result (Some self.new.left) }
        ensures counts { ReadCounts self.old.faults result self.new.faults }
        ensures calls { CountsRead self.old result self.new }
    {
        self.calls = self.calls.saturating_add(1);
        if self.calls == self.fail_at {
            self.faults = self.faults.saturating_add(1);
            return ReadAnswer::Failed;
        }
        let rest = self.bytes.as_slice().split_at(self.at).1;
        if rest.is_empty() {
            return ReadAnswer::End;
        }
        let len = fill(buffer, rest);
        self.at += len;
        ReadAnswer::Got(len)
    }
}

/// Copies as many bytes as there is room for, and says how many.
fn fill(buffer: &mut [u8], rest: &[u8]) -> usize
    requires room { 0 < length buffer.old }
    requires some { 0 < length rest.now }
    ensures least { 1 ≤ result }
    ensures within { result ≤ length buffer.new }
    ensures there { result ≤ length rest.now }
    ensures taken { take result buffer.new ≡ take result rest.now }
{
    let len = rest.len().min(buffer.len());
    buffer[..len].copy_from_slice(&rest[..len]);
    len
}

/// A sink in memory, which keeps its pieces.
#[derive(Drop)]
pub struct MemorySink {
    alloc: Global,
    pieces: List<ByteList>,
    calls: u64,
    fail_at: u64,
    faults: u64,
}

impl Model for MemorySink {
    ghost use Rattle.portal_base.specs.Devices.{SinkState};

    ghost Value = { SinkState };

    ghost view = { λ s. record {
      pieces = s.pieces;
      calls = s.calls;
      fail_at = s.fail_at;
      faults = s.faults;
    } };
}

impl MemorySink {
    /// An empty sink, whose write of the number `fail_at` fails, counted from
    /// 1; with 0 none fails but for want of memory.
    pub fn new(alloc: Global, fail_at: u64) -> MemorySink
        ensures { result ≡ record { pieces = []; calls = 0; fail_at = fail_at; faults = 0 } }
    {
        MemorySink {
            alloc,
            pieces: List::new(alloc),
            calls: 0,
            fail_at,
            faults: 0,
        }
    }

    /// The pieces that were written, in their order.
    pub fn pieces(&self) -> &List<ByteList>
        ensures { result.now ≡ self.now.pieces }
    {
        &self.pieces
    }
}

impl Sink for MemorySink {
    ghost use Rattle.std.specs.Prelude.{Some};
    ghost use Rattle.portal_base.specs.Devices.{CountsWrite};

    ghost told = { λ s. Some s.pieces };

    ghost faults = { λ s. s.faults };

    fn write(&mut self, bytes: &[u8]) -> WriteAnswer
        ensures writes { Writes (Some self.old.pieces) bytes.now result (Some self.new.pieces) }
        ensures counts { WriteCounts self.old.faults result self.new.faults }
        ensures calls { CountsWrite self.old result self.new }
    {
        self.calls = self.calls.saturating_add(1);
        if self.calls != self.fail_at && put(self.alloc, &mut self.pieces, bytes) {
            return WriteAnswer::Done;
        }
        self.faults = self.faults.saturating_add(1);
        WriteAnswer::Failed
    }
}

ghost use Rattle.std.specs.Prelude.{◌++◌, ◌∷◌, true, false};

/// Puts the bytes at the end as one piece, and says whether there was memory.
fn put(alloc: Global, pieces: &mut List<ByteList>, bytes: &[u8]) -> bool
    ensures put { result ≡ true → pieces.new ≡ pieces.old ++ bytes.now ∷ [] }
    ensures same { result ≡ false → pieces.new ≡ pieces.old }
{
    match List::copied(alloc, bytes) {
        Ok(piece) => pieces.push(piece).is_ok(),
        Err(_) => false,
    }
}

/// A clock that shows what it is set to, which contracts see as its seconds.
#[derive(Clone, Copy, Drop)]
pub struct SetClock {
    seconds: u64,
}

impl Model for SetClock {
    ghost use Rattle.std.specs.Prelude.{ℕ};

    ghost Value = { ℕ };

    ghost view = { λ c. c.seconds };

    ghost inverse = { λ n. record { seconds = n } };
}

impl SetClock {
    /// A clock that shows these seconds.
    pub fn new(now: u64) -> SetClock
        ensures { result ≡ now }
    {
        SetClock { seconds: now }
    }

    /// Sets the clock.
    pub fn set(&mut self, now: u64)
        ensures { self.new ≡ now }
    {
        self.seconds = now;
    }
}

impl Clock for SetClock {
    ghost use Rattle.portal_base.specs.Outside.{Shows};

    ghost reads = { λ old seconds new. Shows old seconds new };

    fn now(&mut self) -> u64 {
        self.seconds
    }
}

/// Words out of a list, and then 0, which contracts see as the words to come.
#[derive(Drop)]
pub struct ListWords {
    words: List<u32>,
    at: usize,
}

impl Model for ListWords {
    ghost use Rattle.std.specs.Prelude.{ℕ, List, ◌≤◌, length, drop};

    ghost Value = { List ℕ };

    ghost view = { λ w. drop w.at w.words };

    ghost invariant = { λ w. w.at ≤ length w.words };
}

impl ListWords {
    /// These words, and then 0.
    pub fn new(words: List<u32>) -> ListWords
        ensures { result ≡ words }
    {
        ListWords { words, at: 0 }
    }
}

impl Words for ListWords {
    ghost use Rattle.std.specs.Prelude.{Some};

    ghost told = { λ words. Some words };

    fn next(&mut self) -> u32 {
        let words = self.words.as_slice();
        if self.at >= words.len() {
            return 0;
        }
        let word = words[self.at];
        self.at += 1;
        word
    }
}
