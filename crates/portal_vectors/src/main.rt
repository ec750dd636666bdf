//! Vectors of the portal: its requests, one after another, and its starts; and what
//! no request shows: counts of nodes, numbers of nodes, room for handles, and open
//! files that are gone.
//!
//! Reads lines from standard input. A line names a call, and what the call is
//! given; its answer is printed as a line. Empty lines and lines that begin with
//! `#` are printed as they are, so that the lines of the output stand at the
//! numbers of those of the input. The modules say which lines there are.
#![tactic(auto)]

mod answers;
mod book;
mod desk;
mod given;
mod handles;
mod inodes;
mod limits;
mod lost;
mod nodes;
mod places;
mod portal;
mod requests;
mod start;
mod words;

use std::alloc::Global;
use std::io;
use vector_lines::error::{LineError, VectorError};
use vector_lines::notation::cut;
use vector_lines::output::Output;
use vector_lines::program::run;

fn main(rt: HostRuntime) -> io::Result<()> {
    run(&rt, answer)
}

/// The answer of a line.
fn answer(alloc: Global, line: &str) -> Result<String, VectorError> {
    let mut out = Output::new(alloc);
    match put_answer(alloc, &mut out, line) {
        Ok(()) => Ok(out.into_text()?),
        Err(error) => Err(error),
    }
}

/// What a line is answered.
fn put_answer(alloc: Global, out: &mut Output, line: &str) -> Result<(), VectorError> {
    let (kind, rest) = cut(line);
    match kind {
        "portal" => portal::portal(alloc, out, rest, false),
        "given" => portal::portal(alloc, out, rest, true),
        _ => Ok(put_part(alloc, out, kind, rest)?),
    }
}

/// What a line is answered that asks no portal.
fn put_part(alloc: Global, out: &mut Output, kind: &str, rest: &str) -> Result<(), LineError> {
    match kind {
        "start" => start::start(alloc, out, rest),
        "inodes" => inodes::inodes(alloc, out, rest),
        "handles" => handles::handles(alloc, out, rest),
        "lost" => lost::lost(alloc, out, rest),
        "place" => places::place(out, rest),
        _ => Err(LineError::BadLine),
    }
}
