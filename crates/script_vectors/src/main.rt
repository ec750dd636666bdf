//! Vectors of scripts, of connections and of traces.
//!
//! Reads lines from standard input. A line names a call, and what the call is
//! given; its answer is printed as a line. Empty lines and lines that begin with
//! `#` are printed as they are, so that the lines of the output stand at the
//! numbers of those of the input. The modules say which lines there are.
#![tactic(auto)]

mod devices;
mod items;
mod scripts;
mod served;
mod sizes;

use std::alloc::Global;
use std::io;
use vector_lines::error::VectorError;
use vector_lines::notation::cut;
use vector_lines::output::Output;
use vector_lines::program::run;

fn main(rt: HostRuntime) -> io::Result<()> {
    run(&rt, answer)
}

fn answer(alloc: Global, line: &str) -> Result<String, VectorError> {
    let mut out = Output::new(alloc);
    match put_answer(alloc, &mut out, line) {
        Ok(()) => Ok(out.into_text()?),
        Err(error) => Err(error),
    }
}

/// Adds the answer of a line. One that names no other call is run as the program's words.
fn put_answer(alloc: Global, out: &mut Output, line: &str) -> Result<(), VectorError> {
    let (kind, rest) = cut(line);
    match kind {
        "read" | "write" | "last" => scripts::put_run_so(alloc, out, kind, rest),
        "written" => Ok(scripts::put_written(alloc, out, rest)?),
        "serve" => served::put_served(alloc, out, rest),
        "items" => Ok(items::put_compared(alloc, out, rest)?),
        _ => scripts::put_run(alloc, out, line),
    }
}
