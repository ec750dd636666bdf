//! Vectors of connections that are polled.
//!
//! Reads lines from standard input. A line names a call, and what the call is
//! given; its answer is printed as a line. Empty lines and lines that begin with
//! `#` are printed as they are, so that the lines of the output stand at the
//! numbers of those of the input. The modules say which lines there are.
#![tactic(auto)]

mod alike;
mod beside;
mod client;
mod cuts;
mod dice;
mod log;
mod outside;
mod poll;
mod polled;
mod served;
mod steps;

use futures::test::MockTask;
use std::alloc::Global;
use std::io;
use vector_lines::error::{VectorError, bad};
use vector_lines::notation::cut;
use vector_lines::output::Output;
use vector_lines::program::run;

fn main(rt: HostRuntime) -> io::Result<()> {
    let task = MockTask::new(&rt)?;
    run(
        &rt,
        |alloc: Global, line: &str| -> Result<String, VectorError> { answer(&task, alloc, line) },
    )
}

/// The answer of a line.
fn answer(task: &MockTask, alloc: Global, line: &str) -> Result<String, VectorError> {
    Ok(output(task, alloc, line)?.into_text()?)
}

/// The answer by the first word of the line.
fn output(task: &MockTask, alloc: Global, line: &str) -> Result<Output, VectorError> {
    let (kind, rest) = cut(line);
    match kind {
        "poll" => poll::poll(task, alloc, rest),
        "beside" => beside::beside(task, alloc, rest),
        "cuts" => cuts::cuts(task, alloc, rest),
        "alike" => alike::alike(task, alloc, rest),
        _ => bad(),
    }
}
