//! The program's words over an input, as a run of it.
//!
//! A line is `WORDS | LINE | LINE ..`: the words behind the program's name, and the
//! lines of its input, each with its line feed but for one that ends in `\`. Bytes
//! between braces are words of hexadecimal digits and texts between quotes, which the
//! input has as digits. The answer is the status, and each line of output.
//!
//! A line that has braces, and no more than 10,000 characters, is run four times: as it
//! stands, and with what a `data` line has between braces in lines of 57 bytes, of 3 and
//! of 1. The answer is one where it is the same.

use crate::sizes::{Run, put_told};
use portal_base::list::{ByteList, List};
use portal_base::outside::{MemorySink, MemorySource};
use portal_base::text::Text;
use script_command::run::run;
use script_form::reader::read_script;
use script_form::writer::write_script;
use std::alloc::Global;
use vector_lines::error::{LineError, VectorError};
use vector_lines::notation::{bytes, cut, number, text};
use vector_lines::output::Output;

/// More bytes, or lines, than there are.
const ALL: usize = 1_000_000_000;

/// How long a line is at most that is run more than once.
const LONGEST_CUT: usize = 10_000;

/// How a line is run, and what of its output is printed.
#[derive(Clone, Copy)]
pub struct Way {
    /// The read of the input that fails; none where it is 0.
    read: u64,
    /// The write of the output that fails; none where it is 0.
    write: u64,
    /// How many lines of the output are printed: the last ones.
    last: usize,
}

const WHOLE: Way = Way {
    read: 0,
    write: 0,
    last: ALL,
};

/// `WORDS | LINE | LINE ..`.
pub fn put_run(alloc: Global, out: &mut Output, line: &str) -> Result<(), VectorError> {
    put_run_in(alloc, out, line, WHOLE)
}

/// `read K WORDS | LINE ..`: the same where the K-th read of the input fails;
/// `write K WORDS | LINE ..`: the same where the K-th write of the output fails;
/// `last N WORDS | LINE ..`: the same, of which the last N lines of output are printed.
pub fn put_run_so(
    alloc: Global,
    out: &mut Output,
    kind: &str,
    rest: &str,
) -> Result<(), VectorError> {
    let (word, line) = cut(rest);
    let number = number(word)?;
    let way = match kind {
        "read" => Way {
            read: number,
            ..WHOLE
        },
        "write" => Way {
            write: number,
            ..WHOLE
        },
        _ => Way {
            last: number as usize,
            ..WHOLE
        },
    };
    put_run_in(alloc, out, line, way)
}

fn put_run_in(alloc: Global, out: &mut Output, line: &str, way: Way) -> Result<(), VectorError> {
    let again = line.contains('{') && line.len() <= LONGEST_CUT;
    put_told(alloc, out, Run::Words(line, way), ALL, again)
}

/// `written LINE | LINE ..`: the script that the lines are read as, written.
pub fn put_written(alloc: Global, out: &mut Output, lines: &str) -> Result<(), LineError> {
    let lines = input(alloc, lines, ALL)?;
    match read_script(alloc, lines.as_slice()) {
        Ok(script) => {
            let text = write_script(alloc, &script);
            drop(script);
            out.quoted(text?.as_slice());
        }
        Err(error) => out.debug(&error),
    }
    Ok(())
}

/// What a run tells of a line whose data come so many bytes at a time: how it ended, and its
/// last lines of output.
pub fn ran(alloc: Global, line: &str, size: usize, way: Way) -> Result<String, LineError> {
    let (words, lines) = line.split_once(" | ").unwrap_or((line, ""));
    let words = words_of(alloc, words)?;
    let mut source = MemorySource::new(input(alloc, lines, size)?, way.read);
    let mut sink = MemorySink::new(alloc, way.write);
    let mut out = Output::new(alloc);
    let status = run(alloc, words.as_slice(), &mut source, &mut sink);
    out.shown(&status);
    let pieces = sink.pieces().as_slice();
    for piece in pieces.iter().skip(pieces.len().saturating_sub(way.last)) {
        put_line(&mut out, piece.as_slice());
    }
    out.into_text()
}

fn words_of(alloc: Global, line: &str) -> Result<List<Text>, LineError> {
    let mut words = List::new(alloc);
    for word in line.split(' ') {
        words.push(Text::copied(alloc, word)?)?;
    }
    Ok(words)
}

/// The text of these lines.
fn input(alloc: Global, lines: &str, size: usize) -> Result<ByteList, LineError> {
    let mut all = List::new(alloc);
    if !lines.is_empty() {
        for line in lines.split(" | ") {
            put_input(alloc, &mut all, line, size)?;
        }
    }
    Ok(all)
}

/// Puts a line, or one for each piece of the bytes that a `data` line has between
/// braces.
fn put_input(alloc: Global, all: &mut ByteList, line: &str, size: usize) -> Result<(), LineError> {
    let (line, end) = match line.strip_suffix('\\') {
        Some(line) => (line, ""),
        None => (line, "\n"),
    };
    let Some((front, rest)) = line.split_once('{') else {
        all.extend_from_slice(text(alloc, line)?.as_slice())?;
        return Ok(all.extend_from_slice(end.as_bytes())?);
    };
    let (content, rest) = rest.split_once('}').unwrap_or((rest, ""));
    let content = bytes(alloc, content)?;
    let size = if front.starts_with("data ") {
        size
    } else {
        ALL
    };
    let mut lines = Output::new(alloc);
    for piece in content.as_slice().chunks(size.max(1)) {
        lines.text(front);
        lines.digits(piece);
        lines.text(rest);
        lines.text(end);
    }
    Ok(all.extend_from_slice(lines.into_text()?.as_bytes())?)
}

/// Adds a line of output, whose last byte is told as `<N DIGITS>` where it stands N times, and
/// that is a hundred times at least. What is no UTF-8 is told between quotes.
fn put_line(out: &mut Output, line: &[u8]) {
    out.text(" | ");
    match str::from_utf8(line) {
        Ok(line) => put_counted(out, line.trim_end()),
        Err(_) => out.quoted(line),
    }
}

fn put_counted(out: &mut Output, line: &str) {
    let Some((front, last)) = line.split_at_checked(line.len().saturating_sub(2)) else {
        return out.text(line);
    };
    let front = front.trim_end_matches(last);
    let count = line.len().saturating_sub(front.len()) / 2;
    if count < 100 {
        return out.text(line);
    }
    out.text(front);
    out.text("<");
    out.shown(&count);
    out.text(" ");
    out.text(last);
    out.text(">");
}
