//! The permission store: what is asked of its tables, and what they answer.
//!
//! A table holds entries by their identifiers. An entry has data, and for each
//! application a row of permissions. The data of an entry is the value that
//! stands in the variant of a call.
//!
//! Source: XDG Desktop Portal documentation,
//! `org.freedesktop.impl.portal.PermissionStore`.

use crate::datum::Datum;
use crate::records::Row;
use crate::reply::Change;
use dbus_types::types::Value;
use portal_base::list::List;
use portal_base::memory::{Replica, WantOfMemory};
use portal_base::text::Text;
use std::alloc::Global;

// The definitions speak of values, and the records of a keeper spell them as bytes; `KeepEntries`
// ties both.
/// An entry of a table.
#[derive(Drop)]
pub struct StoredEntry {
    /// The table.
    pub table: Text,
    /// The identifier in the table.
    pub id: Text,
    /// The data.
    pub datum: Datum,
    /// The rows, in byte order of the applications' keys. None is empty.
    pub rows: List<Row>,
}

/// What an entry had, to be put back.
#[derive(Drop)]
pub struct TableEntry {
    /// The rows, in byte order of the applications' keys. None is empty.
    pub rows: List<Row>,
    /// The data.
    pub datum: Datum,
}

/// A call of the permission store. Its data is held as it came, whatever value
/// it is: the value that stands in the variant of the call.
#[derive(Debug, Drop)]
pub enum StoreCall {
    /// The rows and the data of an entry.
    Lookup {
        /// The table.
        table: Text,
        /// The identifier in the table.
        id: Text,
    },
    /// An entry gets these rows and this data in place of those that it has.
    Set {
        /// The table.
        table: Text,
        /// Whether an entry that isn't there is made.
        create: bool,
        /// The identifier in the table.
        id: Text,
        /// The rows, of which the last of an application stands.
        rows: List<Row>,
        /// The data.
        datum: Value,
    },
    /// An entry goes away.
    Delete {
        /// The table.
        table: Text,
        /// The identifier in the table.
        id: Text,
    },
    /// An entry gets this data, and keeps its rows.
    SetValue {
        /// The table.
        table: Text,
        /// Whether an entry that isn't there is made.
        create: bool,
        /// The identifier in the table.
        id: Text,
        /// The data.
        datum: Value,
    },
    /// An application gets these permissions in place of those that it has.
    SetPermission {
        /// The table.
        table: Text,
        /// Whether an entry that isn't there is made.
        create: bool,
        /// The identifier in the table.
        id: Text,
        /// The application's key.
        app: Text,
        /// Its permissions.
        names: List<Text>,
    },
    /// The row of an application goes away.
    DeletePermission {
        /// The table.
        table: Text,
        /// The identifier in the table.
        id: Text,
        /// The application's key.
        app: Text,
    },
    /// The permissions of an application.
    GetPermission {
        /// The table.
        table: Text,
        /// The identifier in the table.
        id: Text,
        /// The application's key.
        app: Text,
    },
    /// The identifiers of a table's entries.
    List {
        /// The table.
        table: Text,
    },
}

/// What the tables answer.
#[derive(Debug, Drop)]
pub enum StoreAnswer {
    /// It was done, and the entry is now so, or was so before it went.
    Done(Change),
    /// The row that was to go isn't there, and nothing changed. The caller is
    /// answered as if it were done, and the signal tells the entry as it stands.
    Kept,
    /// An entry.
    Entry {
        /// The rows, in byte order of the applications' keys.
        rows: List<Row>,
        /// The data.
        datum: Datum,
    },
    /// Permissions in their order, or identifiers in byte order.
    Names(List<Text>),
}

/// Why a call is refused. The tables are then as they were.
#[derive(Clone, Copy, Debug, PartialEq, Eq)]
pub enum StoreError {
    /// There is no such entry.
    NotFound,
    /// The signal that tells of the entry would be longer than a message may be.
    TooLong,
    /// There was no memory.
    Memory,
}

impl From<WantOfMemory> for StoreError {
    ghost use Rattle.std.specs.Prelude.{◌≡◌};
    ghost use Rattle.portal_model.specs.declared.store.StoreError.TheVariants.{Memory};

    ghost from_gives = { λ _ r. r ≡ Memory };

    fn from(_error: WantOfMemory) -> StoreError {
        StoreError::Memory
    }
}

impl Replica for StoredEntry {
    fn replica(&self, alloc: Global) -> Result<StoredEntry, WantOfMemory> {
        Ok(StoredEntry {
            table: self.table.replica(alloc)?,
            id: self.id.replica(alloc)?,
            datum: self.datum.replica(alloc)?,
            rows: self.rows.replica(alloc)?,
        })
    }
}

impl Replica for StoreCall {
    fn replica(&self, alloc: Global) -> Result<StoreCall, WantOfMemory> {
        match self {
            StoreCall::Lookup { table, id } => Ok(StoreCall::Lookup {
                table: table.replica(alloc)?,
                id: id.replica(alloc)?,
            }),
            StoreCall::Set {
                table,
                create,
                id,
                rows,
                datum,
            } => Ok(StoreCall::Set {
                table: table.replica(alloc)?,
                create: *create,
                id: id.replica(alloc)?,
                rows: rows.replica(alloc)?,
                datum: datum.replica(alloc)?,
            }),
            StoreCall::Delete { table, id } => Ok(StoreCall::Delete {
                table: table.replica(alloc)?,
                id: id.replica(alloc)?,
            }),
            StoreCall::SetValue {
                table,
                create,
                id,
                datum,
            } => Ok(StoreCall::SetValue {
                table: table.replica(alloc)?,
                create: *create,
                id: id.replica(alloc)?,
                datum: datum.replica(alloc)?,
            }),
            StoreCall::SetPermission {
                table,
                create,
                id,
                app,
                names,
            } => Ok(StoreCall::SetPermission {
                table: table.replica(alloc)?,
                create: *create,
                id: id.replica(alloc)?,
                app: app.replica(alloc)?,
                names: names.replica(alloc)?,
            }),
            StoreCall::DeletePermission { table, id, app } => Ok(StoreCall::DeletePermission {
                table: table.replica(alloc)?,
                id: id.replica(alloc)?,
                app: app.replica(alloc)?,
            }),
            StoreCall::GetPermission { table, id, app } => Ok(StoreCall::GetPermission {
                table: table.replica(alloc)?,
                id: id.replica(alloc)?,
                app: app.replica(alloc)?,
            }),
            StoreCall::List { table } => Ok(StoreCall::List {
                table: table.replica(alloc)?,
            }),
        }
    }
}
