//! Names below exported folders that connections name.

use crate::names::{document_id, path_of, put_found};
use crate::steps::put_steps;
use folder_documents::{Naming, Namings, child_path};
use portal_base::names::{DocId, HostPath};
use std::alloc::Global;
use std::fmt::Debug;
use std::str::SplitWhitespace;
use vector_lines::error::{VectorError, bad, given};
use vector_lines::notation::{self, cut, next, next_small};
use vector_lines::output::Output;

/// `below PATH NAME`: the path of a name in a folder, or `none`.
pub fn below(alloc: Global, out: &mut Output, rest: &str) -> Result<(), VectorError> {
    let (path, name) = cut(rest);
    let name = notation::text(alloc, name)?;
    let path = path_of(alloc, path)?;
    match child_path(alloc, &path, name.as_slice())? {
        Some(child) => out.lossy(child.as_bytes()),
        None => out.text("none"),
    }
    Ok(())
}

/// `namings STEP, STEP ..`: what each step answers over no connections at first.
pub fn namings(alloc: Global, out: &mut Output, rest: &str) -> Result<(), VectorError> {
    let mut namings = Namings::new(alloc);
    let put = put_steps(alloc, out, &mut namings, rest, "; ", put_step);
    drop(namings);
    put
}

/// `enter SEAT`, `leave SEAT`, `get SEAT K`; and of a connection that was entered
/// `fill SEAT N`, which names N paths, and the steps of `put_named`.
fn put_step(
    alloc: Global,
    out: &mut Output,
    namings: &mut Namings,
    step: &str,
) -> Result<(), VectorError> {
    let mut words = step.split_whitespace();
    let word = next(&mut words);
    let seat = next_small(&mut words)?;
    match word {
        "leave" => {
            namings.leave(seat);
            out.text("left");
        }
        "get" => put_naming(out, namings.get(seat, next_small(&mut words)?)),
        "enter" if !namings.is_entered(seat) => {
            namings.enter(seat)?;
            out.text("entered");
        }
        "fill" => out.shown(&fill(alloc, namings, seat, next_small(&mut words)?)?),
        _ => {
            let naming = naming_of(alloc, &mut words)?;
            return put_named(out, namings, word, seat, naming);
        }
    }
    Ok(())
}

/// `name SEAT VIEW DOCUMENT PATH`, `reserve SEAT VIEW DOCUMENT PATH`: what it answers to name
/// something, or to take room for it.
fn put_named(
    out: &mut Output,
    namings: &mut Namings,
    word: &str,
    seat: u32,
    naming: Naming,
) -> Result<(), VectorError> {
    if !namings.is_entered(seat) {
        return bad();
    }
    match word {
        "name" => put_number(out, namings.name(seat, naming)),
        "reserve" => put_reserved(out, namings.reserve(seat, &naming)),
        _ => return bad(),
    }
    Ok(())
}

/// The number that something gets, or why it gets none.
pub fn put_number<E: Debug + Drop>(out: &mut Output, answer: Result<u32, E>) {
    match answer {
        Ok(k) => out.shown(&k),
        Err(error) => out.debug(&error),
    }
}

/// Says that room was taken, or why not.
pub fn put_reserved<E: Debug + Drop>(out: &mut Output, answer: Result<(), E>) {
    match answer {
        Ok(()) => out.text("reserved"),
        Err(error) => out.debug(&error),
    }
}

/// Names so many paths, and tells the number of the last.
fn fill(alloc: Global, namings: &mut Namings, seat: u32, count: u32) -> Result<u32, VectorError> {
    let mut last = 0;
    for index in 0..count {
        last = name_numbered(alloc, namings, seat, index)?;
    }
    Ok(last)
}

fn name_numbered(
    alloc: Global,
    namings: &mut Namings,
    seat: u32,
    index: u32,
) -> Result<u32, VectorError> {
    let path = format!(in alloc; "/f{index}")?;
    let naming = Naming {
        view: 0,
        document: DocId { number: 1 },
        path: given(alloc, HostPath::read(alloc, path.as_bytes()))?,
    };
    if !namings.is_entered(seat) {
        return bad();
    }
    given(alloc, namings.name(seat, naming))
}

fn naming_of(alloc: Global, words: &mut SplitWhitespace<'_>) -> Result<Naming, VectorError> {
    Ok(Naming {
        view: next_small(words)?,
        document: document_id(next(words))?,
        path: path_of(alloc, next(words))?,
    })
}

fn put_naming(out: &mut Output, naming: Option<&Naming>) {
    match naming {
        Some(naming) => {
            out.shown(&naming.view);
            out.text(" ");
            out.id(naming.document.number);
            out.text(" ");
            out.lossy(naming.path.as_bytes());
        }
        None => out.text("none"),
    }
}
