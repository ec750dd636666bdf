//! Sources and sinks that wait themselves, so that they never say "not yet".

use crate::outside::{PollRead, PollSink, PollSource, PollWrote};
use futures::task::Context;
use portal_base::outside::{ReadAnswer, Sink, Source, WriteAnswer};

/// A source that waits until something comes.
#[derive(Drop)]
pub struct PromptSource<S> {
    /// The source.
    pub source: S,
}

impl<S: Source> PollSource for PromptSource<S> {
    ghost left = { λ s. S.left s.source };

    // It never waits, so this count doesn't rise.
    ghost counts = { λ s. record { faults = S.faults s.source; waits = 0 } };

    fn poll_read(&mut self, _context: &mut Context<'_>, buffer: &mut [u8]) -> PollRead {
        match self.source.read(buffer) {
            ReadAnswer::Got(len) => PollRead::Got(len),
            ReadAnswer::End => PollRead::End,
            ReadAnswer::Failed => PollRead::Failed,
        }
    }
}

/// A sink that waits until all is written. Each write is one piece.
#[derive(Drop)]
pub struct PromptSink<K> {
    /// The sink.
    pub sink: K,
}

impl<K: Sink> PollSink for PromptSink<K> {
    ghost use Rattle.poll_ends.specs.Outside.{flat};

    ghost told = { λ s. flat (K.told s.sink) };

    // It never waits, so this count doesn't rise.
    ghost counts = { λ s. record { faults = K.faults s.sink; waits = 0 } };

    fn poll_write(&mut self, _context: &mut Context<'_>, bytes: &[u8]) -> PollWrote {
        match self.sink.write(bytes) {
            WriteAnswer::Done => PollWrote::Took(bytes.len()),
            WriteAnswer::Failed => PollWrote::Failed,
        }
    }
}
