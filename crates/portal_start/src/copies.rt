//! Copies of lists, for each of which room is taken once.
//!
//! A list that grows item by item may have room for twice as many. What a portal starts with is
//! copied once for its tables, and the two together are what its start needs.

ghost use Rattle.std.specs.Prelude.{◌≡◌, IfOk};

use portal_base::list::List;
use portal_base::memory::{Replica, WantOfMemory};
use portal_model::records::Row;
use portal_model::store::StoredEntry;
use std::alloc::Global;

/// A list of copies of these items.
pub(crate) fn copies<T: Replica>(alloc: Global, items: &[T]) -> Result<List<T>, WantOfMemory>
    ensures { IfOk result (λ copies. copies ≡ items.now) }
{
    let mut copies = Vec::with_capacity(alloc, items.len())?;
    for item in items {
        copies.push(item.replica(alloc)?)?;
    }
    Ok(List::from_vec(copies))
}

/// A list of copies of entries.
pub(crate) fn copies_of_entries(
    alloc: Global,
    entries: &[StoredEntry],
) -> Result<List<StoredEntry>, WantOfMemory>
    ensures { IfOk result (λ copies. copies ≡ entries.now) }
{
    let mut copies = Vec::with_capacity(alloc, entries.len())?;
    for entry in entries {
        copies.push(copy_of_entry(alloc, entry)?)?;
    }
    Ok(List::from_vec(copies))
}

/// A copy of an entry.
fn copy_of_entry(alloc: Global, entry: &StoredEntry) -> Result<StoredEntry, WantOfMemory>
    ensures { IfOk result (λ copy. copy ≡ entry.now) }
{
    Ok(StoredEntry {
        table: entry.table.replica(alloc)?,
        id: entry.id.replica(alloc)?,
        datum: entry.datum.replica(alloc)?,
        rows: copies_of_rows(alloc, entry.rows.as_slice())?,
    })
}

/// A list of copies of rows.
fn copies_of_rows(alloc: Global, rows: &[Row]) -> Result<List<Row>, WantOfMemory>
    ensures { IfOk result (λ copies. copies ≡ rows.now) }
{
    let mut copies = Vec::with_capacity(alloc, rows.len())?;
    for row in rows {
        copies.push(copy_of_row(alloc, row)?)?;
    }
    Ok(List::from_vec(copies))
}

/// A copy of a row.
fn copy_of_row(alloc: Global, row: &Row) -> Result<Row, WantOfMemory>
    ensures { IfOk result (λ copy. copy ≡ row.now) }
{
    Ok(Row {
        app: row.app.replica(alloc)?,
        names: copies(alloc, row.names.as_slice())?,
    })
}
