//! Sources and sinks over std's `Read` and `Write`, which tell nothing.

ghost use Rattle.std.specs.Prelude.{◌≡◌};

use crate::outside::{ReadAnswer, Sink, Source, WriteAnswer};
use std::io::{Read, Write};
use std::marker::Model;

/// A source over a reader, which contracts see as its count of faults.
///
/// Each error of the reader is a fault.
#[derive(Drop)]
pub struct StdSource<R> {
    reader: R,
    faults: u64,
}

impl<R> Model for StdSource<R> {
    ghost use Rattle.std.specs.Prelude.{ℕ};

    ghost Value = { ℕ };

    ghost view = { λ s. s.faults };
}

impl<R> StdSource<R> {
    /// A source of what the reader gives, without faults so far.
    pub fn new(reader: R) -> StdSource<R>
        ensures { result ≡ 0 }
    {
        StdSource { reader, faults: 0 }
    }
}

impl<R: Read> Source for StdSource<R> {
    ghost use Rattle.std.specs.Prelude.{None};

    ghost left = { λ _. None };

    ghost faults = { λ count. count };

    fn read(&mut self, buffer: &mut [u8]) -> ReadAnswer {
        match self.reader.read(buffer) {
            Ok(0) => ReadAnswer::End,
            Ok(len) => ReadAnswer::Got(len),
            Err(_) => {
                self.faults = self.faults.saturating_add(1);
                ReadAnswer::Failed
            }
        }
    }
}

/// A sink over a writer, which contracts see as its count of faults.
///
/// Each piece is written whole and flushed. A write that is interrupted is called
/// again; each other error is a fault.
#[derive(Drop)]
pub struct StdSink<W> {
    writer: W,
    faults: u64,
}

impl<W> Model for StdSink<W> {
    ghost use Rattle.std.specs.Prelude.{ℕ};

    ghost Value = { ℕ };

    ghost view = { λ s. s.faults };
}

impl<W> StdSink<W> {
    /// A sink to the writer, without faults so far.
    pub fn new(writer: W) -> StdSink<W>
        ensures { result ≡ 0 }
    {
        StdSink { writer, faults: 0 }
    }
}

impl<W: Write> Sink for StdSink<W> {
    ghost use Rattle.std.specs.Prelude.{None};

    ghost told = { λ _. None };

    ghost faults = { λ count. count };

    fn write(&mut self, bytes: &[u8]) -> WriteAnswer {
        if self.writer.write_all(bytes).is_ok() && self.writer.flush().is_ok() {
            return WriteAnswer::Done;
        }
        self.faults = self.faults.saturating_add(1);
        WriteAnswer::Failed
    }
}
