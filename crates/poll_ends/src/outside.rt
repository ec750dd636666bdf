//! Where bytes come from and go, of what may say "not yet".

ghost use Rattle.std.specs.Prelude.{◌≡◌, ℕ, ◌<◌, List, Option, length};
ghost use Rattle.futures.specs.Task.{IsArmed, Keeps};
ghost use Rattle.poll_ends.specs.Outside.{Counts, IfReadWaits, IfWriteWaits, PollReads};
ghost use Rattle.poll_ends.specs.Outside.{PollWrites, ReadCounts, WriteCounts};

use futures::task::Context;

/// The answer of a read that waits for nobody.
#[derive(Clone, Copy, PartialEq, Eq)]
pub enum PollRead {
    /// So many bytes came, at least one; they stand at the buffer's front.
    Got(usize),
    /// Nothing is left.
    End,
    /// Nothing came yet. The task is polled again once something may have come.
    NotYet,
    /// A fault of reading.
    Failed,
}

/// The answer of a write that waits for nobody.
#[derive(Clone, Copy, PartialEq, Eq)]
pub enum PollWrote {
    /// So many bytes were written, from the front: at least one.
    Took(usize),
    /// Nothing is taken yet. The task is polled again once something may be taken.
    NotYet,
    /// A fault of writing; a front of the bytes may be written.
    Failed,
}

/// Where bytes come from.
pub trait PollSource {
    /// The bytes that are left, where the source tells them.
    ghost left: { Self → Option (List ℕ) };

    /// How many reads failed, and how many found nothing yet.
    ghost counts: { Self → Counts };

    /// Reads the next bytes into the front of the buffer.
    fn poll_read(&mut self, context: &mut Context<'_>, buffer: &mut [u8]) -> PollRead
        requires { 0 < length buffer.old }
        ensures reads { PollReads (left self.old) buffer.new result (left self.new) }
        ensures counts { ReadCounts (counts self.old) result (counts self.new) }
        ensures registered { IfReadWaits result (IsArmed context.new) }
        ensures kept { Keeps context.old context.new };
}

/// Where bytes go.
pub trait PollSink {
    /// The bytes that were written, where the sink tells them.
    ghost told: { Self → Option (List ℕ) };

    /// How many writes failed, and how many took nothing yet.
    ghost counts: { Self → Counts };

    /// Writes a front of the bytes, of which there is at least one.
    fn poll_write(&mut self, context: &mut Context<'_>, bytes: &[u8]) -> PollWrote
        requires { 0 < length bytes.now }
        ensures writes { PollWrites (told self.old) bytes.now result (told self.new) }
        ensures counts { WriteCounts (counts self.old) result (counts self.new) }
        ensures registered { IfWriteWaits result (IsArmed context.new) }
        ensures kept { Keeps context.old context.new };
}
