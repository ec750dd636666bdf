//! The devices of a connection that is served.

ghost use Rattle.std.specs.Prelude.{◌<◌, ◌≤◌, length};

use portal_base::outside::{MemorySink, ReadAnswer, Sink, Source, WriteAnswer};
use std::cell::Cell;

/// A source that gives so many bytes at a time.
#[derive(Drop)]
pub struct Pieces<'a> {
    /// All its bytes.
    pub bytes: &'a [u8],
    /// How many it gave.
    pub at: usize,
    /// How many it gives at a time.
    pub size: usize,
    /// How often it was read.
    pub calls: u64,
    /// The read that fails; none where it is 0.
    pub fail_at: u64,
    /// The last read that doesn't wait for a write: one behind it fails where nothing
    /// was written.
    pub eager: u64,
    /// How often the sink beside it was written to.
    pub written: &'a Cell<u64>,
    /// How many reads failed.
    pub faults: u64,
}

impl<'a> Source for Pieces<'a> {
    ghost use Rattle.std.specs.Prelude.{None};

    ghost left = { λ s. None };

    ghost faults = { λ s. s.faults };

    fn read(&mut self, buffer: &mut [u8]) -> ReadAnswer {
        self.calls = self.calls.saturating_add(1);
        let is_early = self.calls > self.eager && self.written.get() == 0;
        if self.calls == self.fail_at || is_early {
            self.faults = self.faults.saturating_add(1);
            return ReadAnswer::Failed;
        }
        let start = self.at.min(self.bytes.len());
        let end = start.saturating_add(self.size).min(self.bytes.len());
        if start >= end {
            return ReadAnswer::End;
        }
        let len = fill(buffer, &self.bytes[start..end]);
        self.at = start + len;
        ReadAnswer::Got(len)
    }
}

/// Copies as many bytes as there is room for, and says how many.
fn fill(buffer: &mut [u8], bytes: &[u8]) -> usize
    requires room { 0 < length buffer.old }
    requires some { 0 < length bytes.now }
    ensures least { 1 ≤ result }
    ensures most { result ≤ length buffer.new }
    ensures there { result ≤ length bytes.now }
{
    let len = bytes.len().min(buffer.len());
    buffer[..len].copy_from_slice(&bytes[..len]);
    len
}

/// A sink that keeps its pieces, and tells how often it was written to.
#[derive(Drop)]
pub struct Kept<'a> {
    /// The pieces.
    pub pieces: MemorySink,
    /// How many there are.
    pub written: &'a Cell<u64>,
}

impl<'a> Sink for Kept<'a> {
    ghost use Rattle.std.specs.Prelude.{None};

    ghost told = { λ s. None };

    ghost faults = { λ s. s.pieces.faults };

    fn write(&mut self, bytes: &[u8]) -> WriteAnswer {
        self.written.set(self.written.get().saturating_add(1));
        self.pieces.write(bytes)
    }
}
