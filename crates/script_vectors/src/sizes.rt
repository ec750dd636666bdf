//! What is run again, with its input in pieces of other sizes.

use crate::scripts::{Way, ran};
use crate::served::{Client, served};
use std::alloc::Global;
use vector_lines::error::VectorError;
use vector_lines::output::Output;

/// What is run.
#[derive(Clone, Copy)]
pub enum Run<'a> {
    /// The program's words over the lines of an input, in such a way.
    Words(&'a str, Way),
    /// A connection.
    Connection(&'a Client),
}

/// Adds what a run tells whose input comes in pieces of this size.
///
/// One that is run again is run with pieces of 57 bytes, of 3 and of 1 too, and what is told
/// then is added only where it isn't the same.
pub fn put_told(
    alloc: Global,
    out: &mut Output,
    run: Run<'_>,
    size: usize,
    again: bool,
) -> Result<(), VectorError> {
    let first = told(alloc, run, size)?;
    out.text(first.as_str());
    if !again {
        return Ok(());
    }
    for size in [57, 3, 1] {
        let other = told(alloc, run, size)?;
        if other != first {
            out.text("; but by ");
            out.shown(&size);
            out.text(": ");
            out.text(other.as_str());
        }
    }
    Ok(())
}

fn told(alloc: Global, run: Run<'_>, size: usize) -> Result<String, VectorError> {
    match run {
        Run::Words(line, way) => Ok(ran(alloc, line, size, way)?),
        Run::Connection(client) => served(alloc, client, size),
    }
}
