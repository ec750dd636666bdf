//! The entries of the permission store, in the table `entry`, with their rows
//! in `permission`.

ghost use Rattle.std.specs.Prelude.{◌<◌, IfOk, vec_len};

use crate::calls::{TakesLines, bytes_at, hand_lines, lines_of, place_at, run, slice_at, text_at};
use crate::fault::DatabaseFault;
use crate::names::names_of_text;
use crate::rows::{add_rows, renew_rows};
use portal_base::list::{ByteList, List};
use portal_base::text::Text;
use portal_model::records::{EntryRecord, Row};
use sqlite::{Alter, Row as Line, Transaction, params};
use std::alloc::Global;

/// Loads the entries, which are the same in each version of the tables.
pub const LOAD: &str = "SELECT place, store_table, id, datum FROM entry ORDER BY place";

const LOAD_ROWS: &str = "SELECT entry, application, names FROM permission ORDER BY place";

const FIND: &str = "SELECT place, datum FROM entry WHERE store_table = ?1 AND id = ?2";

const ADD: &str = "INSERT INTO entry (store_table, id, datum) VALUES (?1, ?2, ?3)";

const SET_DATUM: &str = "UPDATE entry SET datum = ?2 WHERE place = ?1";

const REMOVE: &str = "DELETE FROM entry WHERE store_table = ?1 AND id = ?2";

/// The entries as they are read, each with its place.
#[derive(Drop)]
pub struct ReadEntries {
    entries: Vec<PlacedEntry>,
}

#[derive(Drop)]
struct PlacedEntry {
    place: i64,
    table: Text,
    id: Text,
    datum: ByteList,
    rows: Vec<Row>,
}

/// An entry that is kept, as one that takes its place finds it.
#[derive(Clone, Copy)]
struct KeptEntry {
    place: i64,
    /// Whether its data are those of the other. A change of permissions leaves them, and to find
    /// that here takes a statement less than to find it by an UPDATE.
    has_datum: bool,
}

/// The rows of entries as they are read.
#[derive(Drop)]
struct ReadRows<'a> {
    entries: &'a mut ReadEntries,
}

/// The entries, in their order.
pub fn read_entries<S: Alter>(
    alloc: Global,
    transaction: &mut Transaction<'_, S>,
) -> Result<List<EntryRecord>, DatabaseFault> {
    let mut entries = ReadEntries::new(alloc);
    hand_lines(alloc, transaction, LOAD, &mut entries)?;
    let mut rows = ReadRows {
        entries: &mut entries,
    };
    hand_lines(alloc, transaction, LOAD_ROWS, &mut rows)?;
    entries.records(alloc)
}

impl ReadEntries {
    /// None yet.
    pub fn new(alloc: Global) -> ReadEntries {
        ReadEntries {
            entries: Vec::new(alloc),
        }
    }

    /// Puts a row behind those of the entry of a place.
    fn push_row(&mut self, place: i64, row: Row) -> Result<(), DatabaseFault> {
        let at = self.index_of(place)?;
        self.entries[at].rows.push(row)?;
        Ok(())
    }

    /// Puts a name behind those of the application's row in the entry of a place, if it is
    /// the last row, or into a row of its own behind the others.
    pub fn push_name(
        &mut self,
        alloc: Global,
        place: i64,
        app: Text,
        name: Text,
    ) -> Result<(), DatabaseFault> {
        let at = self.index_of(place)?;
        add_name(alloc, &mut self.entries[at].rows, app, name)
    }

    /// Where the entry of a place stands.
    fn index_of(&self, place: i64) -> Result<usize, DatabaseFault>
        ensures { IfOk result (λ at. at < vec_len self.now.entries) }
    {
        let found = self
            .entries
            .as_slice()
            .binary_search_by(|entry| entry.place.cmp(&place));
        found.map_err(|_| DatabaseFault::NoRecord)
    }

    /// The records, with the applications of each entry in byte order.
    pub fn records(self, alloc: Global) -> Result<List<EntryRecord>, DatabaseFault> {
        let ReadEntries { entries } = self;
        let mut records = Vec::with_capacity(alloc, entries.len())?;
        for entry in entries {
            records.push(record_of(entry))?;
        }
        Ok(List::from_vec(records))
    }
}

/// Puts a name behind those of the application's row, if it is the last, or into a
/// row of its own behind the others.
fn add_name(
    alloc: Global,
    rows: &mut Vec<Row>,
    app: Text,
    name: Text,
) -> Result<(), DatabaseFault> {
    if let Some(row) = rows.last_mut()
        && row.app == app
    {
        row.names.push(name)?;
        return Ok(());
    }
    let mut names = List::new(alloc);
    names.push(name)?;
    rows.push(Row { app, names })?;
    Ok(())
}

/// The record of an entry, with its applications in byte order.
fn record_of(entry: PlacedEntry) -> EntryRecord {
    let PlacedEntry {
        place: _,
        table,
        id,
        datum,
        mut rows,
    } = entry;
    rows.sort_unstable_by(|one, other| one.app.as_bytes().cmp(other.app.as_bytes()));
    EntryRecord {
        table,
        id,
        datum,
        rows: List::from_vec(rows),
    }
}

impl TakesLines for ReadEntries {
    fn take(&mut self, alloc: Global, line: &Line) -> Result<(), DatabaseFault> {
        self.entries.push(PlacedEntry {
            place: place_at(line, 0)?,
            table: text_at(line, 1)?,
            id: text_at(line, 2)?,
            datum: bytes_at(alloc, line, 3)?,
            rows: Vec::new(alloc),
        })?;
        Ok(())
    }
}

impl<'a> TakesLines for ReadRows<'a> {
    fn take(&mut self, alloc: Global, line: &Line) -> Result<(), DatabaseFault> {
        let place = place_at(line, 0)?;
        let names = slice_at(line, 2)?;
        let row = Row {
            app: text_at(line, 1)?,
            names: names_of_text(alloc, names)?,
        };
        self.entries.push_row(place, row)
    }
}

/// Puts an entry in the place of the one with its table and identifier, or else
/// behind the others.
pub fn set_entry<S: Alter>(
    alloc: Global,
    transaction: &mut Transaction<'_, S>,
    entry: &EntryRecord,
) -> Result<(), DatabaseFault> {
    let Some(kept) = kept_entry(transaction, entry)? else {
        return add_entry(alloc, transaction, entry);
    };
    if !kept.has_datum {
        set_datum(transaction, kept.place, &entry.datum)?;
    }
    renew_rows(alloc, transaction, kept.place, entry.rows.as_slice())
}

/// What is kept of the table and the identifier of an entry.
fn kept_entry<S: Alter>(
    transaction: &mut Transaction<'_, S>,
    entry: &EntryRecord,
) -> Result<Option<KeptEntry>, DatabaseFault> {
    let lines = lines_of(
        transaction,
        FIND,
        params![entry.table.as_str(), entry.id.as_str()],
    )?;
    found_in(lines.as_slice(), entry)
}

/// What the first of these lines has, which is kept of an entry.
fn found_in(lines: &[Line], entry: &EntryRecord) -> Result<Option<KeptEntry>, DatabaseFault> {
    let Some(line) = lines.first() else {
        return Ok(None);
    };
    let place = place_at(line, 0)?;
    let has_datum = slice_at(line, 1)? == entry.datum.as_slice();
    Ok(Some(KeptEntry { place, has_datum }))
}

fn set_datum<S: Alter>(
    transaction: &mut Transaction<'_, S>,
    place: i64,
    datum: &ByteList,
) -> Result<(), DatabaseFault> {
    run(transaction, SET_DATUM, params![place, datum.as_slice()])
}

/// Puts an entry behind the others.
pub fn add_entry<S: Alter>(
    alloc: Global,
    transaction: &mut Transaction<'_, S>,
    entry: &EntryRecord,
) -> Result<(), DatabaseFault> {
    let table = entry.table.as_str();
    let id = entry.id.as_str();
    run(transaction, ADD, params![table, id, entry.datum.as_slice()])?;
    let place = transaction.last_insert_rowid();
    add_rows(alloc, transaction, place, entry.rows.as_slice())
}

/// The entry of a table and an identifier goes away.
pub fn remove_entry<S: Alter>(
    transaction: &mut Transaction<'_, S>,
    table: &Text,
    id: &Text,
) -> Result<(), DatabaseFault> {
    run(transaction, REMOVE, params![table.as_str(), id.as_str()])
}
