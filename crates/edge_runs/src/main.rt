//! The real edges, called in the folder that the program runs in.
//!
//! Reads lines from standard input. A line names an edge, and calls it; what the
//! calls answer is printed as a line. Empty lines and lines that begin with `#` are
//! printed as they are. What a line does to the folder, the later ones find there.
//! The modules say which lines there are.
#![tactic(auto)]

mod devices;
mod folder;
mod links;
mod replaced;
mod talks;
mod trees;

use host_real::System;
use std::alloc::Global;
use std::io;
use vector_lines::error::VectorError;
use vector_lines::notation::cut;
use vector_lines::output::Output;
use vector_lines::program::run;

fn main(rt: HostRuntime) -> io::Result<()> {
    run(&rt, |alloc, line| answer(&rt, &rt, alloc, line))
}

/// The answer of a line.
fn answer<R: System>(
    rt: &R,
    system: &HostRuntime,
    alloc: Global,
    line: &str,
) -> Result<String, VectorError> {
    let mut out = Output::new(alloc);
    match put_answer(rt, system, &mut out, line) {
        Ok(()) => Ok(out.into_text()?),
        Err(error) => Err(error),
    }
}

fn put_answer<R: System>(
    rt: &R,
    system: &HostRuntime,
    out: &mut Output,
    line: &str,
) -> Result<(), VectorError> {
    let (kind, rest) = cut(line);
    match kind {
        "link" => folder::link(system, out, rest),
        "file" => return folder::file(system, out, rest),
        "kept" => return folder::kept(system, out, rest),
        "mode-of" => folder::mode_of(system, out, rest),
        "bind" => links::bind(system, out, rest),
        "live" => links::live(system, out, rest),
        "take" => links::take(system, out, rest),
        "hidden" => links::hidden(system, out, rest),
        "open" => return links::open(system, out, rest),
        "patient" => links::patient(out),
        "talk" | "leave" | "keep" | "ring" | "shut" => {
            return talks::over_socket(system, out, kind, rest);
        }
        "clock" => return devices::clock(system, out, rest),
        "now" => return devices::now(system, out),
        "words" => return devices::words(system, out),
        "no-words" => devices::no_words(out),
        "beside" => return trees::beside(rt, system, out, rest),
        _ => return trees::over_tree(rt, system, out, kind, rest),
    }
    Ok(())
}
