//! Files that wait to be renamed onto a document's name.

use crate::names::{document_id, path_of};
use crate::namings::{put_number, put_reserved};
use crate::steps::put_steps;
use portal_base::files::FileName;
use portal_base::list::List;
use save_files::{Temp, Temps};
use std::alloc::Global;
use std::str::SplitWhitespace;
use vector_lines::error::{VectorError, bad};
use vector_lines::notation::{next, next_small};
use vector_lines::output::Output;

/// `temps STEP, STEP ..`: what each step answers over no connections at first.
pub fn temps(alloc: Global, out: &mut Output, rest: &str) -> Result<(), VectorError> {
    let mut temps = Temps::new(alloc);
    let put = put_steps(alloc, out, &mut temps, rest, "; ", put_step);
    drop(temps);
    put
}

/// `taken`, the last generation of each path; and the steps of a connection.
fn put_step(
    alloc: Global,
    out: &mut Output,
    temps: &mut Temps,
    step: &str,
) -> Result<(), VectorError> {
    let mut words = step.split_whitespace();
    let word = next(&mut words);
    if word == "taken" {
        put_taken(out, temps);
        return Ok(());
    }
    let seat = next_small(&mut words)?;
    put_step_of(alloc, out, temps, word, seat, &mut words)
}

/// `enter SEAT`, `leave SEAT`, `get SEAT K`, `remove SEAT K`, `at SEAT PLACE`,
/// `find SEAT VIEW DOCUMENT NAME`; and of a connection that was entered the steps of
/// `put_added`.
fn put_step_of(
    alloc: Global,
    out: &mut Output,
    temps: &mut Temps,
    word: &str,
    seat: u32,
    words: &mut SplitWhitespace<'_>,
) -> Result<(), VectorError> {
    match word {
        "enter" if !temps.is_entered(seat) => {
            temps.enter(seat)?;
            out.text("entered");
        }
        "leave" => {
            temps.leave(seat);
            out.text("left");
        }
        "get" => put_temp(out, temps.get(seat, next_small(words)?)),
        "remove" => {
            let removed = temps.remove(seat, next_small(words)?);
            put_temp(out, removed.as_ref());
        }
        "at" => put_found_number(out, temps.at(seat, next_small(words)?)),
        "find" => {
            let view = next_small(words)?;
            let document = document_id(next(words))?;
            let found = temps.find(seat, view, document, next(words).as_bytes());
            put_found_number(out, found);
        }
        _ => return put_added(alloc, out, temps, word, seat, words),
    }
    Ok(())
}

/// `add SEAT VIEW DOCUMENT NAME PATH`, of the next generation of the path; `reserve SEAT`,
/// `rename SEAT K NAME`, and `fill SEAT N`, which adds so many.
fn put_added(
    alloc: Global,
    out: &mut Output,
    temps: &mut Temps,
    word: &str,
    seat: u32,
    words: &mut SplitWhitespace<'_>,
) -> Result<(), VectorError> {
    if !temps.is_entered(seat) {
        return bad();
    }
    match word {
        "add" => put_one(alloc, out, temps, seat, words)?,
        "reserve" => put_reserved(out, temps.reserve(seat)),
        "rename" => {
            let k = next_small(words)?;
            if temps.get(seat, k).is_none() {
                return bad();
            }
            temps.rename(seat, k, next(words).as_bytes())?;
            out.text("renamed");
        }
        "fill" => fill(alloc, out, temps, seat, next_small(words)?)?,
        _ => return bad(),
    }
    Ok(())
}

/// The number of one that is added, or why it gets none.
fn put_one(
    alloc: Global,
    out: &mut Output,
    temps: &mut Temps,
    seat: u32,
    words: &mut SplitWhitespace<'_>,
) -> Result<(), VectorError> {
    let view = next_small(words)?;
    let document = document_id(next(words))?;
    let name = next(words);
    let path = path_of(alloc, next(words))?;
    let Some(generation) = temps.last_taken(&path).checked_add(1) else {
        return bad();
    };
    let temp = Temp {
        document,
        view,
        name: List::copied(alloc, name.as_bytes())?,
        file: FileName { path, generation },
    };
    if !temps.is_entered(seat) {
        return bad();
    }
    put_number(out, temps.add(seat, temp));
    Ok(())
}

/// Adds so many of one path, and tells their numbers.
fn fill(
    alloc: Global,
    out: &mut Output,
    temps: &mut Temps,
    seat: u32,
    count: u32,
) -> Result<(), VectorError> {
    for index in 0..count {
        if index > 0 {
            out.text(" ");
        }
        put_numbered(alloc, out, temps, seat, index)?;
    }
    Ok(())
}

fn put_numbered(
    alloc: Global,
    out: &mut Output,
    temps: &mut Temps,
    seat: u32,
    index: u32,
) -> Result<(), VectorError> {
    let line = format!(in alloc; "0 00000001 {index} /a")?;
    let mut words = line.split_whitespace();
    put_one(alloc, out, temps, seat, &mut words)
}

fn put_found_number(out: &mut Output, found: Option<u32>) {
    match found {
        Some(k) => out.shown(&k),
        None => out.text("none"),
    }
}

/// The view, the document, the name and the file.
fn put_temp(out: &mut Output, temp: Option<&Temp>) {
    let Some(temp) = temp else {
        out.text("none");
        return;
    };
    out.shown(&temp.view);
    out.text(" ");
    out.id(temp.document.number);
    out.text(" ");
    out.lossy(temp.name.as_slice());
    out.text(" ");
    out.lossy(temp.file.path.as_bytes());
    out.text("#");
    out.number(temp.file.generation);
}

/// The last generation of each path.
fn put_taken(out: &mut Output, temps: &Temps) {
    out.text("[");
    for taken in temps.taken() {
        out.text(" ");
        out.lossy(taken.path.as_slice());
        out.text("#");
        out.number(taken.last);
    }
    out.text(" ]");
}
