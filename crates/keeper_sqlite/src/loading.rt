//! The tables, made and read.

use portal_base::list::List;
use portal_model::records::{DocRecord, EntryRecord, Records};
use sqlite::{Alter, Connection, Transaction};
use sqlite_tables::calls::begin;
use sqlite_tables::documents::read_documents;
use sqlite_tables::earlier::{self, EARLIER_VERSION};
use sqlite_tables::entries::read_entries;
use sqlite_tables::fault::DatabaseFault;
use sqlite_tables::tables::{TABLES_VERSION, add_tables, have_tables, read_version};
use std::alloc::Global;

/// Makes the tables where there are none, in one transaction.
pub(crate) fn ready_tables<S: Alter>(conn: &mut Connection<S>) -> Result<(), DatabaseFault> {
    let mut transaction = begin(conn)?;
    match make_missing(&mut transaction) {
        Ok(true) => Ok(transaction.commit()?),
        Ok(false) => Ok(()),
        Err(fault) => Err(fault),
    }
}

/// Makes the tables where there are none, and says whether it did.
fn make_missing<S: Alter>(transaction: &mut Transaction<'_, S>) -> Result<bool, DatabaseFault> {
    if have_tables(transaction)? {
        return Ok(false);
    }
    add_tables(transaction)?;
    Ok(true)
}

/// The records, of version 1 or 2. Where the tables have another version, they are given
/// with that version and without records.
pub(crate) fn read_records<S: Alter>(
    alloc: Global,
    conn: &mut Connection<S>,
) -> Result<Records, DatabaseFault> {
    let mut transaction = begin(conn)?;
    records_in(alloc, &mut transaction)
}

/// The same in a transaction.
fn records_in<S: Alter>(
    alloc: Global,
    transaction: &mut Transaction<'_, S>,
) -> Result<Records, DatabaseFault> {
    let version = read_version(transaction)?;
    let documents = documents_in(alloc, transaction, version)?;
    Ok(Records {
        version,
        documents,
        entries: entries_in(alloc, transaction, version)?,
    })
}

/// The documents in tables of a version.
fn documents_in<S: Alter>(
    alloc: Global,
    transaction: &mut Transaction<'_, S>,
    version: u32,
) -> Result<List<DocRecord>, DatabaseFault> {
    match version {
        EARLIER_VERSION => earlier::read_documents(alloc, transaction),
        TABLES_VERSION => read_documents(alloc, transaction),
        // The tables of another version aren't known. A portal doesn't start then, and says which
        // version it found.
        _ => Ok(List::new(alloc)),
    }
}

/// The entries in tables of a version.
fn entries_in<S: Alter>(
    alloc: Global,
    transaction: &mut Transaction<'_, S>,
    version: u32,
) -> Result<List<EntryRecord>, DatabaseFault> {
    match version {
        EARLIER_VERSION => earlier::read_entries(alloc, transaction),
        TABLES_VERSION => read_entries(alloc, transaction),
        _ => Ok(List::new(alloc)),
    }
}
