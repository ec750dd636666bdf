//! A stream that comes in two pieces, cut anywhere.

use crate::client::{Line, Manner, line_of, words_of};
use crate::log::{Log, put_bytes};
use crate::polled::polled;
use crate::served::{Came, same, served};
use crate::steps::Steps;
use futures::test::MockTask;
use std::alloc::Global;
use std::cell::Cell;
use vector_lines::error::VectorError;
use vector_lines::notation::bytes;
use vector_lines::output::Output;

/// `cuts WHO KIND OPTIONS BYTES`: how a connection ends that gets the bytes, how many
/// entries the history has then, and the bytes that were written, where there are any; it
/// is served by `serve_connection`, and polled once for each cut of the bytes in two,
/// between which there is nothing yet, and what it comes to is the same. The options are
/// those of `Words`, but for `read`.
pub fn cuts(task: &MockTask, alloc: Global, rest: &str) -> Result<Output, VectorError> {
    let words = words_of(rest);
    let bytes = bytes(alloc, words.bytes)?;
    let line = line_of(&words, bytes.as_slice())?;
    cuts_of(task, alloc, &line)
}

/// The same of what a line says.
fn cuts_of(task: &MockTask, alloc: Global, line: &Line<'_>) -> Result<Output, VectorError> {
    let waited = served(alloc, line)?;
    let odd = odd_cut(task, alloc, line, &waited);
    let told = told(alloc, &waited, odd?, line.bytes.len());
    drop(waited);
    Ok(told)
}

/// What a connection came to, wherever its bytes were cut; or the cut at which it came to
/// something else.
fn told(alloc: Global, came: &Came, odd: Option<usize>, len: usize) -> Output {
    let mut out = Output::new(alloc);
    if let Some(at) = odd {
        out.text("not the same, cut at ");
        out.number(at as u64);
        return out;
    }
    out.debug(&came.half.served);
    out.text(", ");
    out.number(came.entries);
    out.text(" entries, cut anywhere in ");
    out.number(len as u64);
    out.text(" bytes");
    put_bytes(&mut out, &came.half.written);
    out
}

/// The first cut at which a connection comes to something else.
fn odd_cut(
    task: &MockTask,
    alloc: Global,
    line: &Line<'_>,
    waited: &Came,
) -> Result<Option<usize>, VectorError> {
    for at in 0..=line.bytes.len() {
        if !is_same_cut(task, alloc, line, at, waited)? {
            return Ok(Some(at));
        }
    }
    Ok(None)
}

/// Whether a connection comes to the same whose bytes are cut here.
fn is_same_cut(
    task: &MockTask,
    alloc: Global,
    line: &Line<'_>,
    at: usize,
    waited: &Came,
) -> Result<bool, VectorError> {
    let text = cut_at(alloc, at)?;
    let manner = Manner {
        reads: Steps::Told(text.as_str()),
        writes: line.manner.writes,
        busy: line.manner.busy,
    };
    is_same(task, alloc, &line.with(line.bytes, manner), waited)
}

/// The steps of a cut.
fn cut_at(alloc: Global, at: usize) -> Result<String, VectorError> {
    if at == 0 {
        return Ok(format!(in alloc; "!")?);
    }
    Ok(format!(in alloc; "{at}.!")?)
}

/// Whether the connection of a line comes to the same, polled.
pub fn is_same(
    task: &MockTask,
    alloc: Global,
    line: &Line<'_>,
    waited: &Came,
) -> Result<bool, VectorError> {
    let written = Cell::new(0);
    let mut log = Log::new(alloc, &written);
    let other = polled(task, alloc, line, &mut log)?;
    Ok(same(waited, &other))
}
