//! Vectors of the names, signatures, types, values and messages of D-Bus; of
//! its handshakes and calls; and of frames of FUSE.
//!
//! Reads lines from standard input. A line names a call, and what the call is
//! given; its answer is printed as a line. Empty lines and lines that begin with
//! `#` are printed as they are, so that the lines of the output stand at the
//! numbers of those of the input. The modules say which lines there are.
#![tactic(auto)]

mod answers;
mod calls;
mod frames;
mod handshake;
mod messages;
mod names;
mod parts;
mod requests;
mod rules;
mod stack;
mod values;

use std::alloc::Global;
use std::io;
use vector_lines::error::{LineError, VectorError};
use vector_lines::notation::cut;
use vector_lines::output::Output;
use vector_lines::program::run;

fn main(rt: HostRuntime) -> io::Result<()> {
    run(&rt, answer)
}

/// The answer of a line.
fn answer(alloc: Global, line: &str) -> Result<String, VectorError> {
    let mut out = Output::new(alloc);
    match put_answer(alloc, &mut out, line) {
        Ok(()) => Ok(out.into_text()?),
        Err(error) => Err(VectorError::Line(error)),
    }
}

/// The answer by the first word of the line.
fn put_answer(alloc: Global, out: &mut Output, line: &str) -> Result<(), LineError> {
    let (kind, rest) = cut(line);
    match kind {
        "name" => names::name(alloc, out, rest),
        "signature" => names::signature(alloc, out, rest),
        "type" => rules::kind(alloc, out, rest),
        "same" => rules::same(alloc, out, rest),
        "keeps" => rules::keeps(alloc, out, rest),
        "has" => rules::has(alloc, out, rest),
        "value" => values::value(alloc, out, rest),
        "split" | "message" | "asks" => messages::message(alloc, out, kind, rest),
        "cell" => handshake::cell(alloc, out, rest),
        "talk" => handshake::talk(alloc, out, rest),
        "call" | "reply" | "ping" | "told" | "long" | "refused" => {
            calls::call(alloc, out, kind, rest)
        }
        "signal" => answers::signal(alloc, out, rest),
        "error" => answers::error(out, rest),
        "frame" | "local" => frames::frame(alloc, out, kind, rest),
        "dirents" => frames::dirents(alloc, out, rest),
        _ => frames::answer(alloc, out, kind, rest),
    }
}
