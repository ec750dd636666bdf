//! The records that outlive a run.

use portal_base::list::{ByteList, List};
use portal_base::memory::{Replica, WantOfMemory};
use portal_base::text::Text;
use std::alloc::Global;

/// The rights that a kept document gives to one application.
#[derive(Debug, Drop)]
pub struct GrantRecord {
    /// The application's name.
    pub app: ByteList,
    /// The rights: read 1, write 2, grant-permissions 4, delete 8.
    pub rights: u8,
}

/// A kept document.
#[derive(Debug, Drop)]
pub struct DocRecord {
    /// Its number.
    pub number: u32,
    /// Its path on the host.
    pub path: ByteList,
    /// Whether a later addition of the same path may use it.
    pub reusable: bool,
    /// Whether open handles of its file follow later revocations.
    pub strict: bool,
    /// The rights in it, in byte order of the applications' names.
    pub grants: List<GrantRecord>,
}

/// The permissions of one application in an entry of the permission store.
#[derive(Debug, Drop)]
pub struct Row {
    /// The application's key.
    pub app: Text,
    /// Its permissions.
    pub names: List<Text>,
}

/// A kept entry of the permission store.
#[derive(Debug, Drop)]
pub struct EntryRecord {
    /// The table.
    pub table: Text,
    /// The identifier in the table.
    pub id: Text,
    /// The data, spelled as a D-Bus variant.
    pub datum: ByteList,
    /// The rows, in byte order of the applications' keys.
    pub rows: List<Row>,
}

impl Replica for GrantRecord {
    fn replica(&self, alloc: Global) -> Result<GrantRecord, WantOfMemory> {
        Ok(GrantRecord {
            app: self.app.replica(alloc)?,
            rights: self.rights,
        })
    }
}

impl Replica for DocRecord {
    fn replica(&self, alloc: Global) -> Result<DocRecord, WantOfMemory> {
        Ok(DocRecord {
            number: self.number,
            path: self.path.replica(alloc)?,
            reusable: self.reusable,
            strict: self.strict,
            grants: self.grants.replica(alloc)?,
        })
    }
}

impl Replica for Row {
    fn replica(&self, alloc: Global) -> Result<Row, WantOfMemory> {
        Ok(Row {
            app: self.app.replica(alloc)?,
            names: self.names.replica(alloc)?,
        })
    }
}

impl Replica for EntryRecord {
    fn replica(&self, alloc: Global) -> Result<EntryRecord, WantOfMemory> {
        Ok(EntryRecord {
            table: self.table.replica(alloc)?,
            id: self.id.replica(alloc)?,
            datum: self.datum.replica(alloc)?,
            rows: self.rows.replica(alloc)?,
        })
    }
}

/// The records that outlive a run.
#[derive(Debug, Drop)]
pub struct Records {
    /// The version of their form, 1 or 2. In version 1 no document is strict.
    pub version: u32,
    /// The kept documents, in order of addition.
    pub documents: List<DocRecord>,
    /// The entries of the permission store, in order of creation.
    pub entries: List<EntryRecord>,
}

/// One change of the records.
#[derive(Drop)]
pub enum RecordChange {
    /// A document goes behind the others.
    AddDocument(DocRecord),
    /// The document of a number goes away.
    RemoveDocument {
        /// The number.
        number: u32,
    },
    /// The document of a number has these rights given, in its place.
    SetGrants {
        /// The number.
        number: u32,
        /// The rights.
        grants: List<GrantRecord>,
    },
    /// An entry stands in the place of the one with its table and identifier,
    /// or else behind the others.
    SetEntry(EntryRecord),
    /// The entry of a table and an identifier goes away.
    RemoveEntry {
        /// The table.
        table: Text,
        /// The identifier.
        id: Text,
    },
    /// The version is 2 from now on, and nothing else changes.
    Upgrade,
}

impl Replica for Records {
    fn replica(&self, alloc: Global) -> Result<Records, WantOfMemory> {
        Ok(Records {
            version: self.version,
            documents: self.documents.replica(alloc)?,
            entries: self.entries.replica(alloc)?,
        })
    }
}

impl Replica for RecordChange {
    fn replica(&self, alloc: Global) -> Result<RecordChange, WantOfMemory> {
        match self {
            RecordChange::AddDocument(document) => {
                Ok(RecordChange::AddDocument(document.replica(alloc)?))
            }
            RecordChange::RemoveDocument { number } => {
                Ok(RecordChange::RemoveDocument { number: *number })
            }
            RecordChange::SetGrants { number, grants } => Ok(RecordChange::SetGrants {
                number: *number,
                grants: grants.replica(alloc)?,
            }),
            RecordChange::SetEntry(entry) => Ok(RecordChange::SetEntry(entry.replica(alloc)?)),
            RecordChange::RemoveEntry { table, id } => Ok(RecordChange::RemoveEntry {
                table: table.replica(alloc)?,
                id: id.replica(alloc)?,
            }),
            RecordChange::Upgrade => Ok(RecordChange::Upgrade),
        }
    }
}
