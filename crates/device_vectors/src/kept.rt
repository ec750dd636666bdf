//! Kept records, and what is wrong with them.

use crate::lists::cut_at;
use crate::written::{document, entry, no_records};
use portal_base::limits::Limits;
use portal_model::records::Records;
use record_keeper::records_fault;
use std::alloc::Global;
use vector_lines::error::LineError;
use vector_lines::notation::{cut, next_number, small_number};
use vector_lines::output::Output;

/// `records LIVE MADE | RECORD | RECORD ..`: what is wrong with the records under
/// these limits of live and of made documents. A record is `doc NUMBER PATH
/// GRANTS`, `strict NUMBER PATH GRANTS` of a document that is strict, or `entry
/// TABLE ID DATUM ROWS`; `version N` gives the records another version than 1.
/// Grants are written as `APP=RIGHTS,APP=RIGHTS`, rows as `APP=NAME+NAME,APP=NAME`,
/// and none of either as `-`.
pub fn records(alloc: Global, out: &mut Output, rest: &str) -> Result<(), LineError> {
    let (words, parts) = cut_at(rest, '|');
    let limits = limits(words)?;
    let mut records = no_records(alloc);
    put_fault(alloc, out, &mut records, &limits, parts)
}

/// `LIVE MADE`.
fn limits(words: &str) -> Result<Limits, LineError> {
    let mut words = words.split_whitespace();
    Ok(Limits {
        documents: next_number(&mut words)?,
        made: next_number(&mut words)?,
        history: 0,
        handles: 0,
        queued: 0,
        file_bytes: 0,
    })
}

/// What is wrong with records that get these parts.
fn put_fault(
    alloc: Global,
    out: &mut Output,
    records: &mut Records,
    limits: &Limits,
    parts: &str,
) -> Result<(), LineError> {
    for part in parts.split('|') {
        add(alloc, records, part.trim())?;
    }
    out.debug(&records_fault(alloc, records, limits)?);
    Ok(())
}

/// The records get a part.
fn add(alloc: Global, records: &mut Records, part: &str) -> Result<(), LineError> {
    let (kind, rest) = cut(part);
    match kind {
        "version" => records.version = small_number(rest)?,
        "doc" => records.documents.push(document(alloc, rest, false)?)?,
        "strict" => records.documents.push(document(alloc, rest, true)?)?,
        "entry" => records.entries.push(entry(alloc, rest)?)?,
        "" => {}
        _ => return Err(LineError::BadLine),
    }
    Ok(())
}
