//! Keepers of records in memory.

use crate::lists::{Worded, cut_at, list_of};
use crate::written::{document, entry, no_records};
use portal_base::text::Text;
use portal_model::records::{DocRecord, EntryRecord, RecordChange, Records};
use record_keeper::{Keeper, KeeperLoad, MemoryKeeper};
use std::alloc::Global;
use vector_lines::error::LineError;
use vector_lines::notation::{cut, numbers, small_number};
use vector_lines::output::Output;

/// `keeper FAILS | STEP | STEP ..`: what each step answers over a keeper whose
/// calls of these numbers fail, and which has no records at first.
pub fn keeper(alloc: Global, out: &mut Output, rest: &str) -> Result<(), LineError> {
    let (fails, steps) = cut_at(rest, '|');
    let fails = numbers(alloc, fails)?;
    let mut keeper = MemoryKeeper::new(alloc, no_records(alloc), fails)?;
    put_steps(alloc, out, &mut keeper, steps)
}

/// What each step answers.
fn put_steps(
    alloc: Global,
    out: &mut Output,
    keeper: &mut MemoryKeeper,
    steps: &str,
) -> Result<(), LineError> {
    for step in steps.split('|') {
        put_step(alloc, out, keeper, step.trim())?;
        out.text("; ");
    }
    Ok(())
}

/// What `load` answers, or what changes answer, with commas between them.
fn put_step(
    alloc: Global,
    out: &mut Output,
    keeper: &mut MemoryKeeper,
    step: &str,
) -> Result<(), LineError> {
    if step == "load" {
        put_loaded(out, &keeper.load());
    } else {
        let changes = list_of(alloc, step, ',')?;
        out.debug(&keeper.apply(&changes));
    }
    Ok(())
}

/// The records, or why there are none.
fn put_loaded(out: &mut Output, loaded: &KeeperLoad) {
    match loaded {
        KeeperLoad::Got(records) => put_records(out, records),
        answer => out.debug(answer),
    }
}

/// The version where it isn't 1, the numbers of the documents with their
/// rights, and the entries with their data.
fn put_records(out: &mut Output, records: &Records) {
    out.text("Got");
    if records.version != 1 {
        out.text(" version=");
        out.shown(&records.version);
    }
    for document in records.documents.iter() {
        put_document(out, document);
    }
    for entry in records.entries.iter() {
        put_entry(out, entry);
    }
}

fn put_document(out: &mut Output, document: &DocRecord) {
    out.text(" ");
    out.shown(&document.number);
    for grant in document.grants.iter() {
        out.text("=");
        out.shown(&grant.rights);
    }
}

fn put_entry(out: &mut Output, entry: &EntryRecord) {
    out.text(" ");
    out.text(entry.table.as_str());
    out.text("/");
    out.text(entry.id.as_str());
    out.text("=");
    out.digits(entry.datum.as_slice());
}

/// `add NUMBER`, `remove NUMBER`, `grants NUMBER RIGHTS`, `set TABLE ID DATUM`,
/// `unset TABLE ID`, `upgrade`.
impl Worded for RecordChange {
    fn of(alloc: Global, change: &str) -> Result<RecordChange, LineError> {
        let (kind, rest) = cut(change.trim());
        match kind {
            "add" => Ok(RecordChange::AddDocument(document(alloc, rest, false)?)),
            "remove" => Ok(RecordChange::RemoveDocument {
                number: small_number(rest)?,
            }),
            "grants" => set_grants(alloc, rest),
            "set" => Ok(RecordChange::SetEntry(entry(alloc, rest)?)),
            "unset" => remove_entry(alloc, rest),
            "upgrade" => Ok(RecordChange::Upgrade),
            _ => Err(LineError::BadLine),
        }
    }
}

fn set_grants(alloc: Global, rest: &str) -> Result<RecordChange, LineError> {
    let (number, grants) = cut(rest);
    let number = small_number(number)?;
    let grants = list_of(alloc, grants, ',')?;
    Ok(RecordChange::SetGrants { number, grants })
}

fn remove_entry(alloc: Global, rest: &str) -> Result<RecordChange, LineError> {
    let (table, id) = cut(rest);
    let table = Text::of(alloc, table)?;
    let id = Text::of(alloc, id)?;
    Ok(RecordChange::RemoveEntry { table, id })
}
