//! The devices: over std's readers and writers, and in memory.

use crate::lists::{Worded, cut_at, list_of, put_between};
use crate::scripted::{Act, Acts, Reader, Writer};
use portal_base::list::List;
use portal_base::outside::{
    Clock, ListWords, MemorySink, MemorySource, ReadAnswer, SetClock, Sink, Source, StdSink,
    StdSource, Words,
};
use std::alloc::Global;
use std::str::SplitWhitespace;
use vector_lines::error::LineError;
use vector_lines::notation::{bytes, cut, next_number, number, small_number};
use vector_lines::output::Output;

/// `source ACT ACT ..`: what reads answer over a reader that does so: `N` gives N
/// bytes, `interrupt` is interrupted, `fail` fails. There is one more read
/// than acts, with room for four bytes.
pub fn source(alloc: Global, out: &mut Output, rest: &str) -> Result<(), LineError> {
    let acts = acts_of(alloc, rest)?;
    let reads = acts.len();
    let acts = Acts::new(acts);
    put_reads(out, &mut StdSource::new(Reader { acts }), reads);
    Ok(())
}

/// What so many reads answer, and one more: the bytes that came, between quotes,
/// or why none came.
fn put_reads<S: Source>(out: &mut Output, source: &mut S, reads: usize) {
    let mut buffer = [0; 4];
    for index in 0..=reads {
        put_between(out, index, " ");
        let answer = source.read(&mut buffer);
        put_read(out, answer, &buffer);
    }
}

/// What a read answers that read into this buffer.
fn put_read(out: &mut Output, answer: ReadAnswer, buffer: &[u8]) {
    match answer {
        ReadAnswer::Got(len) => out.quoted(buffer.get(..len).unwrap_or(b"")),
        answer => out.debug(&answer),
    }
}

/// `sink ACT .. | ACT .. | PIECE ..`: what a write of each piece answers over a
/// writer whose writes do as the first acts say, and its flushes as the
/// second; and the bytes that the writer took.
pub fn sink(alloc: Global, out: &mut Output, rest: &str) -> Result<(), LineError> {
    let (acts, rest) = cut_at(rest, '|');
    let (flushes, pieces) = cut_at(rest, '|');
    let acts = acts_of(alloc, acts)?;
    let flushes = acts_of(alloc, flushes)?;
    put_written(alloc, out, acts, flushes, pieces);
    Ok(())
}

/// What a write of each piece answers over a writer of these acts, and what it took.
fn put_written(alloc: Global, out: &mut Output, acts: List<Act>, flushes: List<Act>, pieces: &str) {
    let mut written = List::new(alloc);
    let mut sink = StdSink::new(Writer {
        acts: Acts::new(acts),
        flushes: Acts::new(flushes),
        written: &mut written,
    });
    put_writes(out, &mut sink, pieces.split_whitespace());
    drop(sink);
    out.quoted(written.as_slice());
}

/// What a write of each piece answers.
fn put_writes<K: Sink>(out: &mut Output, sink: &mut K, pieces: SplitWhitespace<'_>) {
    for piece in pieces {
        out.debug(&sink.write(piece.as_bytes()));
        out.text(" ");
    }
}

fn acts_of(alloc: Global, words: &str) -> Result<List<Act>, LineError> {
    list_of(alloc, words.trim(), ' ')
}

impl Worded for Act {
    fn of(_alloc: Global, word: &str) -> Result<Act, LineError> {
        match word {
            "interrupt" => Ok(Act::Interrupt),
            "fail" => Ok(Act::Fail),
            _ => Ok(Act::Take(small_number(word)? as usize)),
        }
    }
}

/// `memory-source FAIL READS BYTES`: what so many reads answer, with one more,
/// of a source in memory whose read of the number FAIL fails.
pub fn memory_source(alloc: Global, out: &mut Output, rest: &str) -> Result<(), LineError> {
    let (fail, rest) = cut(rest);
    let (reads, rest) = cut(rest);
    let fail = number(fail)?;
    let reads = small_number(reads)? as usize;
    let bytes = bytes(alloc, rest)?;
    put_reads(out, &mut MemorySource::new(bytes, fail), reads);
    Ok(())
}

/// `memory-sink FAIL PIECE ..`: what a write of each piece answers of a sink in
/// memory whose write of the number FAIL fails, and the pieces that it keeps.
pub fn memory_sink(alloc: Global, out: &mut Output, rest: &str) -> Result<(), LineError> {
    let mut pieces = rest.split_whitespace();
    let fail = next_number(&mut pieces)?;
    let mut sink = MemorySink::new(alloc, fail);
    put_writes(out, &mut sink, pieces);
    for piece in sink.pieces().iter() {
        out.quoted(piece.as_slice());
    }
    Ok(())
}

/// `clock FIRST SECOND`: what a clock shows that is set to the first, then to the
/// second, and is looked at twice.
pub fn clock(out: &mut Output, rest: &str) -> Result<(), LineError> {
    let mut words = rest.split_whitespace();
    let first = next_number(&mut words)?;
    let second = next_number(&mut words)?;
    let mut clock = SetClock::new(first);
    out.number(clock.now());
    clock.set(second);
    out.text(" ");
    out.number(clock.now());
    out.text(" ");
    out.number(clock.now());
    Ok(())
}

/// `words WORD ..`: four words of a source of these.
pub fn words(alloc: Global, out: &mut Output, rest: &str) -> Result<(), LineError> {
    let mut words = ListWords::new(list_of(alloc, rest, ' ')?);
    for index in 0..4 {
        put_between(out, index, " ");
        out.shown(&words.next());
    }
    Ok(())
}

impl Worded for u32 {
    fn of(_alloc: Global, word: &str) -> Result<u32, LineError> {
        small_number(word)
    }
}
