//! The outside, as the portal and its sessions see it.
//!
//! An implementation may tell contracts what it holds: one in memory does, a
//! real one doesn't. A count of faults rises at each fault and at nothing else;
//! it stops at the greatest `u64`, and one that stands there counts as risen.

ghost use Rattle.std.specs.Prelude.{◌≡◌, ℕ, ◌<◌, List, Option, length};
ghost use Rattle.portal_base.specs.Outside.{Writes, WriteCounts, Reads, ReadCounts, Draws};

mod calls;
mod in_memory;
mod real;

pub use calls::CallCount;
pub use in_memory::{ListWords, MemorySink, MemorySource, SetClock};
pub use real::{StdSink, StdSource};

/// The answer of a read.
#[derive(Clone, Copy, Debug, PartialEq, Eq)]
pub enum ReadAnswer {
    /// So many bytes came, at least one; they stand at the buffer's front.
    Got(usize),
    /// Nothing is left.
    End,
    /// A fault of reading.
    Failed,
}

// A fault and want of memory are told apart everywhere: no fault of a device can hide behind want
// of memory, since its count of faults rises.
/// The answer of a write.
#[derive(Clone, Copy, Debug, PartialEq, Eq)]
pub enum WriteAnswer {
    /// All bytes were written, as one piece.
    Done,
    /// A fault of writing; a front of the bytes may be written.
    Failed,
}

/// Where bytes come from.
pub trait Source {
    /// The bytes that are left, where the source tells them.
    ghost left: { Self → Option (List ℕ) };

    /// How many reads failed.
    ghost faults: { Self → ℕ };

    /// Reads the next bytes into the front of the buffer.
    fn read(&mut self, buffer: &mut [u8]) -> ReadAnswer
        requires { 0 < length buffer.old }
        ensures reads { Reads (left self.old) buffer.new result (left self.new) }
        ensures counts { ReadCounts (faults self.old) result (faults self.new) };
}

/// Where bytes go, in pieces.
pub trait Sink {
    /// The pieces that were written, where the sink tells them.
    ghost told: { Self → Option (List (List ℕ)) };

    /// How many writes failed.
    ghost faults: { Self → ℕ };

    /// Writes the bytes as one piece.
    fn write(&mut self, bytes: &[u8]) -> WriteAnswer
        ensures writes { Writes (told self.old) bytes.now result (told self.new) }
        ensures counts { WriteCounts (faults self.old) result (faults self.new) };
}

/// The time.
pub trait Clock {
    /// What one reading is: the clock ahead of it, the seconds that it shows, and the
    /// clock behind it. So contracts of what reads a clock say how many times, also of a
    /// clock that doesn't tell its seconds.
    ghost reads: { Self → ℕ → Self → Type 0 };

    /// The seconds since the epoch.
    fn now(&mut self) -> u64
        ensures { reads self.old result self.new };
}

/// Words that identifiers are drawn from.
pub trait Words {
    /// The words to come, where they are told; behind the last only 0 comes.
    ghost told: { Self → Option (List ℕ) };

    /// The next word.
    fn next(&mut self) -> u32
        ensures { Draws (told self.old) result (told self.new) };
}
