//! The rows of an entry of the permission store: one of the table `permission`
//! for each application, with its names as one text.

use crate::calls::{bytes_at, lines_of, place_at, run};
use crate::fault::DatabaseFault;
use crate::names::text_of_names;
use portal_base::list::ByteList;
use portal_model::records::Row;
use sqlite::types::{ToSql, ValueRef};
use sqlite::{Alter, Row as Line, Transaction, params};
use std::alloc::Global;

const READ: &str =
    "SELECT place, application, names FROM permission WHERE entry = ?1 ORDER BY application";

const ADD: &str = "INSERT INTO permission (entry, application, names) VALUES (?1, ?2, ?3)";

const CHANGE: &str = "UPDATE permission SET names = ?2 WHERE place = ?1";

const REMOVE: &str = "DELETE FROM permission WHERE place = ?1";

/// A row that is kept, and where it stands.
#[derive(Drop)]
struct KeptRow {
    place: i64,
    app: ByteList,
    names: ByteList,
}

/// Gives a new entry its rows.
pub fn add_rows<S: Alter>(
    alloc: Global,
    transaction: &mut Transaction<'_, S>,
    entry: i64,
    rows: &[Row],
) -> Result<(), DatabaseFault> {
    for row in rows {
        add_row(alloc, transaction, entry, row)?;
    }
    Ok(())
}

/// Gives an entry these rows in place of those that it has. Rows that stay as
/// they are aren't written.
pub fn renew_rows<S: Alter>(
    alloc: Global,
    transaction: &mut Transaction<'_, S>,
    entry: i64,
    rows: &[Row],
) -> Result<(), DatabaseFault> {
    // A change of one application's permissions writes that application's row alone, however many
    // others the entry has.
    let kept = kept_rows(alloc, transaction, entry)?;
    renew_over(alloc, transaction, entry, kept.as_slice(), rows)
}

/// The same of an entry that has these rows.
fn renew_over<S: Alter>(
    alloc: Global,
    transaction: &mut Transaction<'_, S>,
    entry: i64,
    kept: &[KeptRow],
    rows: &[Row],
) -> Result<(), DatabaseFault> {
    for old in kept {
        renew_row(alloc, transaction, old, rows)?;
    }
    for row in rows {
        if !is_kept(kept, row) {
            add_row(alloc, transaction, entry, row)?;
        }
    }
    Ok(())
}

/// The rows of an entry, in byte order of the applications.
fn kept_rows<S: Alter>(
    alloc: Global,
    transaction: &mut Transaction<'_, S>,
    entry: i64,
) -> Result<Vec<KeptRow>, DatabaseFault> {
    let lines = lines_of(transaction, READ, params![entry])?;
    rows_in(alloc, lines.as_slice())
}

/// The rows of these lines.
fn rows_in(alloc: Global, lines: &[Line]) -> Result<Vec<KeptRow>, DatabaseFault> {
    let mut kept = Vec::new(alloc);
    for line in lines {
        kept.push(row_in(alloc, line)?)?;
    }
    Ok(kept)
}

/// The row of a line.
fn row_in(alloc: Global, line: &Line) -> Result<KeptRow, DatabaseFault> {
    let place = place_at(line, 0)?;
    let app = bytes_at(alloc, line, 1)?;
    let names = bytes_at(alloc, line, 2)?;
    Ok(KeptRow { place, app, names })
}

/// Changes the names of a row that is kept, or removes it, as the new rows say.
fn renew_row<S: Alter>(
    alloc: Global,
    transaction: &mut Transaction<'_, S>,
    old: &KeptRow,
    rows: &[Row],
) -> Result<(), DatabaseFault> {
    let app = old.app.as_slice();
    let Ok(at) = rows.binary_search_by(|row| row.app.as_bytes().cmp(app)) else {
        return run(transaction, REMOVE, params![old.place]);
    };
    let Some(row) = rows.get(at) else {
        return Ok(());
    };
    let names = text_of_names(alloc, row.names.as_slice())?;
    if names.as_slice() == old.names.as_slice() {
        return Ok(());
    }
    let params = &[old.place.to_sql(), ValueRef::Text(names.as_slice())];
    run(transaction, CHANGE, params)
}

/// Whether an application has a row.
fn is_kept(kept: &[KeptRow], row: &Row) -> bool {
    let app = row.app.as_bytes();
    kept.binary_search_by(|old| old.app.as_slice().cmp(app))
        .is_ok()
}

fn add_row<S: Alter>(
    alloc: Global,
    transaction: &mut Transaction<'_, S>,
    entry: i64,
    row: &Row,
) -> Result<(), DatabaseFault> {
    let names = text_of_names(alloc, row.names.as_slice())?;
    let app = ValueRef::Text(row.app.as_bytes());
    let params = &[entry.to_sql(), app, ValueRef::Text(names.as_slice())];
    run(transaction, ADD, params)
}
