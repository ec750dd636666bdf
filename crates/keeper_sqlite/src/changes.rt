//! Making changes.

use portal_model::records::RecordChange;
use sqlite::{Alter, Connection, Transaction};
use sqlite_tables::calls::begin;
use sqlite_tables::documents::{add_document, remove_document, set_grants};
use sqlite_tables::earlier::{EARLIER_VERSION, renew_tables};
use sqlite_tables::entries::{remove_entry, set_entry};
use sqlite_tables::fault::DatabaseFault;
use sqlite_tables::tables::read_version;
use std::alloc::Global;

/// Makes the changes one after another, in one transaction: all of them, or none.
pub(crate) fn make_all<S: Alter>(
    alloc: Global,
    conn: &mut Connection<S>,
    changes: &[RecordChange],
) -> Result<(), DatabaseFault> {
    let mut transaction = begin(conn)?;
    match make_each(alloc, &mut transaction, changes) {
        Ok(()) => Ok(transaction.commit()?),
        Err(fault) => Err(fault),
    }
}

/// Makes the changes in a transaction.
fn make_each<S: Alter>(
    alloc: Global,
    transaction: &mut Transaction<'_, S>,
    changes: &[RecordChange],
) -> Result<(), DatabaseFault> {
    for change in changes {
        make(alloc, transaction, change)?;
    }
    Ok(())
}

/// Makes one change.
fn make<S: Alter>(
    alloc: Global,
    transaction: &mut Transaction<'_, S>,
    change: &RecordChange,
) -> Result<(), DatabaseFault> {
    match change {
        RecordChange::AddDocument(document) => add_document(transaction, document),
        RecordChange::RemoveDocument { number } => remove_document(transaction, *number),
        RecordChange::SetGrants { number, grants } => {
            set_grants(alloc, transaction, *number, grants.as_slice())
        }
        RecordChange::SetEntry(entry) => set_entry(alloc, transaction, entry),
        RecordChange::RemoveEntry { table, id } => remove_entry(transaction, table, id),
        RecordChange::Upgrade => upgrade(alloc, transaction),
    }
}

/// Makes tables of the earlier version this one's.
fn upgrade<S: Alter>(
    alloc: Global,
    transaction: &mut Transaction<'_, S>,
) -> Result<(), DatabaseFault> {
    if read_version(transaction)? == EARLIER_VERSION {
        renew_tables(alloc, transaction)?;
    }
    Ok(())
}
