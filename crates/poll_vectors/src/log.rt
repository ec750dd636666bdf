//! What polls answered, as a text.

use portal_base::list::ByteList;
use std::alloc::Global;
use std::cell::Cell;
use vector_lines::output::Output;

/// What the polls of a line answered.
#[derive(Drop)]
pub struct Log<'a> {
    /// What is told of them.
    pub out: Output,
    /// How many bytes were written so far.
    pub written: &'a Cell<u64>,
    /// How many of them are told.
    told: u64,
}

impl<'a> Log<'a> {
    /// A log without an answer.
    pub fn new(alloc: Global, written: &'a Cell<u64>) -> Log<'a> {
        Log {
            out: Output::new(alloc),
            written,
            told: 0,
        }
    }

    /// Tells that a poll is pending.
    pub fn put_pending(&mut self) {
        self.out.text("Pending");
        self.put_count();
        self.out.text(", ");
    }

    /// Tells how many bytes were written since that was told, where there are any.
    pub fn put_count(&mut self) {
        let written = self.written.get();
        let bytes = written.saturating_sub(self.told);
        self.told = written;
        if bytes > 0 {
            self.out.text(" wrote ");
            self.out.number(bytes);
        }
    }
}

/// Tells bytes that were written, where there are any.
pub fn put_bytes(out: &mut Output, bytes: &ByteList) {
    if !bytes.is_empty() {
        out.text(" | ");
        out.digits(bytes.as_slice());
    }
}
