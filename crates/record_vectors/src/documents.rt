//! Documents that are added, looked up, removed and taken back.

ghost use Rattle.std.specs.Prelude.{◌≡◌};

use crate::names::{document_id, path_of, put_found, put_ids};
use crate::steps::put_steps;
use document_records::{Document, Documents};
use portal_base::limits::Limits;
use std::alloc::Global;
use vector_lines::error::{VectorError, bad, given};
use vector_lines::notation::{cut, small_number};
use vector_lines::output::Output;

/// `documents LIVE MADE STEP, STEP ..`: what each step answers over records with
/// these limits, which are empty at first.
pub fn documents(alloc: Global, out: &mut Output, rest: &str) -> Result<(), VectorError> {
    let (live, rest) = cut(rest);
    let (made, steps) = cut(rest);
    let limits = limits(small_number(live)?, small_number(made)?);
    let mut documents = Documents::new(alloc, &limits);
    let put = put_all(alloc, out, &mut documents, steps);
    drop(documents);
    put
}

/// Limits of which those of documents count here.
fn limits(live: u32, made: u32) -> Limits
    ensures { result.made ≡ made }
{
    Limits {
        documents: u64::from(live),
        made: u64::from(made),
        history: 0,
        handles: 0,
        queued: 0,
        file_bytes: 0,
    }
}

/// What each step answers, and the live numbers.
fn put_all(
    alloc: Global,
    out: &mut Output,
    documents: &mut Documents,
    steps: &str,
) -> Result<(), VectorError> {
    put_steps(alloc, out, documents, steps, "; ", put_step)?;
    let ids = documents.ids()?;
    out.text("; live");
    put_ids(out, ids.as_slice());
    Ok(())
}

/// `remove ID`, `find ID`: the document's path. `reusable FLAGS PATH`, `first PATH`: the number
/// of a document of the path. `room`: how many may be added. `add` and `try` are those of `add`.
fn put_step(
    alloc: Global,
    out: &mut Output,
    documents: &mut Documents,
    step: &str,
) -> Result<(), VectorError> {
    let (word, rest) = cut(step);
    let (first, second) = cut(rest);
    match word {
        "add" | "try" => return add(alloc, out, documents, word == "try", first, second),
        "remove" => {
            let removed = documents.remove(document_id(first)?);
            put_path(out, removed.as_ref());
        }
        "find" => put_path(out, documents.find(document_id(first)?)),
        "reusable" => {
            let path = path_of(alloc, second)?;
            let (persistent, strict) = (first.contains('p'), first.contains('s'));
            put_found(
                out,
                documents.reusable(&path, persistent, strict, first.contains('f')),
            );
        }
        "first" => {
            let path = path_of(alloc, first)?;
            put_found(out, documents.first_of(&path));
        }
        "room" => out.number(documents.room()),
        _ => return bad(),
    }
    Ok(())
}

/// The path of a document, which may be missing.
fn put_path(out: &mut Output, document: Option<&Document>) {
    match document {
        Some(document) => out.lossy(document.path.as_bytes()),
        None => out.text("none"),
    }
}

/// `add WORD FLAGS PATH`: the number of a document that is added with the first
/// unused number from the word on; a flag `r` is for reuse, `p` for persistent,
/// `s` for strict.
/// `try WORD FLAGS PATH`: the same, and the addition is taken back.
fn add(
    alloc: Global,
    out: &mut Output,
    documents: &mut Documents,
    is_taken_back: bool,
    word: &str,
    rest: &str,
) -> Result<(), VectorError> {
    let (flags, path) = cut(rest);
    let id = documents.unused_from(document_id(word)?.number);
    let document = Document {
        id,
        path: path_of(alloc, path)?,
        persistent: flags.contains('p'),
        reusable: flags.contains('r'),
        strict: flags.contains('s'),
        folder: flags.contains('f'),
    };
    if is_taken_back {
        given(alloc, documents.add(document))?;
        documents.take_back(id);
    } else if let Err(error) = documents.add(document) {
        out.debug(&error);
        return Ok(());
    }
    out.id(id.number);
    Ok(())
}
