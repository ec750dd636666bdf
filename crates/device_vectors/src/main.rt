//! Vectors of devices, trees of files and keepers of records in memory, and of the tables of the
//! permission store.
//!
//! Reads lines from standard input. A line names a call, and what the call is
//! given; its answer is printed as a line. Empty lines and lines that begin with
//! `#` are printed as they are, so that the lines of the output stand at the
//! numbers of those of the input. The modules say which lines there are.
#![tactic(auto)]

mod devices;
mod keepers;
mod kept;
mod lists;
mod readings;
mod scripted;
mod shown;
mod store;
mod trees;
mod written;

use std::alloc::Global;
use std::io;
use vector_lines::error::{LineError, VectorError};
use vector_lines::notation::cut;
use vector_lines::output::Output;
use vector_lines::program::run;

fn main(rt: HostRuntime) -> io::Result<()> {
    run(&rt, answer)
}

/// The answer of a line.
fn answer(alloc: Global, line: &str) -> Result<String, VectorError> {
    let mut out = Output::new(alloc);
    match put_answer(alloc, &mut out, line) {
        Ok(()) => Ok(out.into_text()?),
        Err(error) => Err(error),
    }
}

/// The answer by the first word of the line.
fn put_answer(alloc: Global, out: &mut Output, line: &str) -> Result<(), VectorError> {
    let (kind, rest) = cut(line);
    match kind {
        "store" => store::store(alloc, out, rest),
        _ => Ok(put_outside(alloc, out, kind, rest)?),
    }
}

/// The answer of what stands outside the portal.
fn put_outside(alloc: Global, out: &mut Output, kind: &str, rest: &str) -> Result<(), LineError> {
    match kind {
        "tree" => trees::tree(alloc, out, rest),
        "quiet" => trees::quiet(alloc, out, rest),
        "keeper" => keepers::keeper(alloc, out, rest),
        "records" => kept::records(alloc, out, rest),
        _ => put_device(alloc, out, kind, rest),
    }
}

/// The answer of a device.
fn put_device(alloc: Global, out: &mut Output, kind: &str, rest: &str) -> Result<(), LineError> {
    match kind {
        "source" => devices::source(alloc, out, rest),
        "sink" => devices::sink(alloc, out, rest),
        "memory-source" => devices::memory_source(alloc, out, rest),
        "memory-sink" => devices::memory_sink(alloc, out, rest),
        "clock" => devices::clock(out, rest),
        "words" => devices::words(alloc, out, rest),
        _ => Err(LineError::BadLine),
    }
}
