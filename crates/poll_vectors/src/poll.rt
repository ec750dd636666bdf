//! What each poll of a connection answers.

use crate::client::{Line, line_of, words_of};
use crate::log::{Log, put_bytes};
use crate::polled::polled;
use crate::served::Came;
use futures::test::MockTask;
use std::alloc::Global;
use std::cell::Cell;
use vector_lines::error::VectorError;
use vector_lines::notation::bytes;
use vector_lines::output::Output;

/// `poll WHO KIND OPTIONS BYTES`: what each poll of a connection answers that gets the
/// bytes, and behind it how many bytes it wrote; how many entries the history has then;
/// and the bytes that were written, where there are any. The options are those of `Words`.
pub fn poll(task: &MockTask, alloc: Global, rest: &str) -> Result<Output, VectorError> {
    let words = words_of(rest);
    let bytes = bytes(alloc, words.bytes)?;
    let line = line_of(&words, bytes.as_slice())?;
    poll_line(task, alloc, &line)
}

/// The same of what a line says.
fn poll_line(task: &MockTask, alloc: Global, line: &Line<'_>) -> Result<Output, VectorError> {
    let written = Cell::new(0);
    let mut log = Log::new(alloc, &written);
    let came = polled(task, alloc, line, &mut log)?;
    put_came(&mut log, &came);
    drop(came);
    Ok(log.out)
}

/// Tells what a connection came to.
fn put_came(log: &mut Log<'_>, came: &Came) {
    log.out.text("Ready(");
    log.out.debug(&came.half.served);
    log.out.text(")");
    log.put_count();
    log.out.text(", ");
    log.out.number(came.entries);
    log.out.text(" entries");
    put_bytes(&mut log.out, &came.half.written);
}
