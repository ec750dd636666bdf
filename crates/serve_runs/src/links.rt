//! Links in memory whose two ends know of each other.

ghost use Rattle.std.specs.Prelude.{◌<◌, ℕ, None, length};
ghost use Rattle.portal_base.specs.Outside.{ReadCounts, Reads};

use crate::hold::Steps;
use portal_base::list::{ByteList, List};
use portal_base::outside::{MemorySink, ReadAnswer, Sink, Source, WriteAnswer};
use std::alloc::Global;
use vector_lines::error::LineError;
use vector_lines::notation::bytes;
use worker_gate::in_memory::MemoryListener;
use worker_gate::listener::Link;

/// A listener of such links.
pub type Links<'a> = MemoryListener<PieceSource<'a>, HeardSink<'a>>;

/// A source that gives its second piece, where there is one, only if the handshake was
/// answered, and otherwise fails.
#[derive(Drop)]
pub struct PieceSource<'a> {
    first: ByteList,
    second: ByteList,
    reads: u64,
    answered: &'a Steps,
    faults: u64,
}

/// A sink that knows whether the handshake was answered.
#[derive(Drop)]
pub struct HeardSink<'a> {
    sink: MemorySink,
    answered: &'a Steps,
}

impl<'a> Source for PieceSource<'a> {
    ghost use Rattle.std.specs.Prelude.{None};

    ghost left = { λ s. None };

    ghost faults = { λ s. s.faults };

    fn read(&mut self, buffer: &mut [u8]) -> ReadAnswer {
        self.reads = self.reads.saturating_add(1);
        match self.reads {
            1 => give(buffer, self.first.as_slice()),
            2 if self.second.is_empty() || self.answered.came() => {
                give(buffer, self.second.as_slice())
            }
            2 => {
                self.faults = self.faults.saturating_add(1);
                ReadAnswer::Failed
            }
            _ => ReadAnswer::End,
        }
    }
}

impl<'a> Sink for HeardSink<'a> {
    ghost use Rattle.std.specs.Prelude.{Some};

    ghost told = { λ s. Some s.sink.pieces };

    ghost faults = { λ s. s.sink.faults };

    fn write(&mut self, bytes: &[u8]) -> WriteAnswer {
        if bytes.starts_with(b"OK ") {
            self.answered.step();
        }
        self.sink.write(bytes)
    }
}

impl<'a> HeardSink<'a> {
    /// The pieces that were written.
    pub fn pieces(&self) -> &[ByteList] {
        self.sink.pieces().as_slice()
    }
}

/// Gives as many bytes as there is room for, or tells that there are none.
fn give(buffer: &mut [u8], bytes: &[u8]) -> ReadAnswer
    requires { 0 < length buffer.old }
    ensures reads { Reads None buffer.new result None }
    ensures counts { (faults : ℕ) → ReadCounts faults result faults }
{
    if bytes.is_empty() {
        return ReadAnswer::End;
    }
    let len = bytes.len().min(buffer.len());
    buffer[..len].copy_from_slice(&bytes[..len]);
    ReadAnswer::Got(len)
}

/// A listener of so many links, on each of which these pieces come.
pub fn links<'a>(
    alloc: Global,
    answered: &'a Steps,
    count: u32,
    first: &str,
    second: &str,
) -> Result<Links<'a>, LineError> {
    let mut coming = List::new(alloc);
    let mut put = Ok(());
    for _ in 0..count {
        put = put_link(alloc, &mut coming, answered, first, second);
        if put.is_err() {
            break;
        }
    }
    let listener = MemoryListener::new(alloc, coming);
    match put {
        Ok(()) => Ok(listener),
        Err(error) => {
            drop(listener);
            Err(error)
        }
    }
}

/// Puts a link behind others.
fn put_link<'a>(
    alloc: Global,
    coming: &mut List<Link<PieceSource<'a>, HeardSink<'a>>>,
    answered: &'a Steps,
    first: &str,
    second: &str,
) -> Result<(), LineError> {
    let first = bytes(alloc, first)?;
    let second = bytes(alloc, second)?;
    match coming.push(link(alloc, answered, first, second)) {
        Ok(()) => Ok(()),
        Err(error) => Err(LineError::from(error)),
    }
}

fn link<'a>(
    alloc: Global,
    answered: &'a Steps,
    first: ByteList,
    second: ByteList,
) -> Link<PieceSource<'a>, HeardSink<'a>> {
    Link {
        source: PieceSource {
            first,
            second,
            reads: 0,
            answered,
            faults: 0,
        },
        sink: HeardSink {
            sink: MemorySink::new(alloc, 0),
            answered,
        },
    }
}
