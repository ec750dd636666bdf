//! The tables of version 1, and how they become those of this version.
//!
//! They had a row of `permission` for each name, with the application's key, and no
//! strict documents.

use crate::calls::{
    TakesLines, bytes_at, flag_at, hand_lines, number_at, place_at, rights_at, run, text_at,
};
use crate::documents::{ReadDocuments, add_document};
use crate::entries::{LOAD as LOAD_ENTRIES, ReadEntries, add_entry};
use crate::fault::DatabaseFault;
use crate::tables::add_tables;
use portal_base::list::List;
use portal_model::records::{DocRecord, EntryRecord, GrantRecord};
use sqlite::{Alter, Row as Line, Transaction};
use std::alloc::Global;

/// The version of the tables that are read here.
pub const EARLIER_VERSION: u32 = 1;

/// The tables of that version.
pub const EARLIER_TABLES: [&str; 5] = [
    "CREATE TABLE version (version INTEGER NOT NULL) STRICT",
    "CREATE TABLE document (
    place INTEGER PRIMARY KEY,
    number INTEGER NOT NULL UNIQUE,
    path BLOB NOT NULL,
    reusable INTEGER NOT NULL
) STRICT",
    "CREATE TABLE document_grant (
    document INTEGER NOT NULL REFERENCES document (number) ON DELETE CASCADE,
    application TEXT NOT NULL,
    rights INTEGER NOT NULL,
    PRIMARY KEY (document, application)
) STRICT",
    "CREATE TABLE entry (
    place INTEGER PRIMARY KEY,
    store_table TEXT NOT NULL,
    id TEXT NOT NULL,
    datum BLOB NOT NULL,
    UNIQUE (store_table, id)
) STRICT",
    "CREATE TABLE permission (
    entry INTEGER NOT NULL REFERENCES entry (place) ON DELETE CASCADE,
    application TEXT NOT NULL,
    place INTEGER NOT NULL,
    name TEXT NOT NULL,
    PRIMARY KEY (entry, application, place)
) STRICT",
];

/// What is removed, each ahead of what it refers to.
const DROPS: [&str; 5] = [
    "DROP TABLE permission",
    "DROP TABLE entry",
    "DROP TABLE document_grant",
    "DROP TABLE document",
    "DROP TABLE version",
];

const LOAD: &str = "SELECT place, number, path, reusable FROM document ORDER BY place";

const LOAD_GRANTS: &str = "SELECT document.place, application, rights
    FROM document_grant JOIN document ON document.number = document_grant.document";

const LOAD_NAMES: &str =
    "SELECT entry, application, name FROM permission ORDER BY entry, application, place";

/// The documents as they are read.
#[derive(Drop)]
struct EarlierDocuments<'a> {
    documents: &'a mut ReadDocuments,
}

/// The rights in them as they are read.
#[derive(Drop)]
struct EarlierGrants<'a> {
    documents: &'a mut ReadDocuments,
}

/// The names in the rows of entries as they are read.
#[derive(Drop)]
struct EarlierNames<'a> {
    entries: &'a mut ReadEntries,
}

/// Copies the records into the tables of this version, which take the place of the others.
pub fn renew_tables<S: Alter>(
    alloc: Global,
    transaction: &mut Transaction<'_, S>,
) -> Result<(), DatabaseFault> {
    let documents = read_documents(alloc, transaction)?;
    renew_with(alloc, transaction, documents.as_slice())
}

/// The same with these documents, which were read.
fn renew_with<S: Alter>(
    alloc: Global,
    transaction: &mut Transaction<'_, S>,
    documents: &[DocRecord],
) -> Result<(), DatabaseFault> {
    let entries = read_entries(alloc, transaction)?;
    write_anew(alloc, transaction, documents, entries.as_slice())
}

/// Removes the tables, and makes those of this version with these records.
fn write_anew<S: Alter>(
    alloc: Global,
    transaction: &mut Transaction<'_, S>,
    documents: &[DocRecord],
    entries: &[EntryRecord],
) -> Result<(), DatabaseFault> {
    for drop in DROPS {
        run(transaction, drop, &[])?;
    }
    add_tables(transaction)?;
    for document in documents {
        add_document(transaction, document)?;
    }
    for entry in entries {
        add_entry(alloc, transaction, entry)?;
    }
    Ok(())
}

/// The documents, in their order.
pub fn read_documents<S: Alter>(
    alloc: Global,
    transaction: &mut Transaction<'_, S>,
) -> Result<List<DocRecord>, DatabaseFault> {
    let mut documents = ReadDocuments::new(alloc);
    let mut reader = EarlierDocuments {
        documents: &mut documents,
    };
    hand_lines(alloc, transaction, LOAD, &mut reader)?;
    let mut grants = EarlierGrants {
        documents: &mut documents,
    };
    hand_lines(alloc, transaction, LOAD_GRANTS, &mut grants)?;
    documents.records(alloc)
}

/// The entries, in their order.
pub fn read_entries<S: Alter>(
    alloc: Global,
    transaction: &mut Transaction<'_, S>,
) -> Result<List<EntryRecord>, DatabaseFault> {
    let mut entries = ReadEntries::new(alloc);
    hand_lines(alloc, transaction, LOAD_ENTRIES, &mut entries)?;
    let mut names = EarlierNames {
        entries: &mut entries,
    };
    hand_lines(alloc, transaction, LOAD_NAMES, &mut names)?;
    entries.records(alloc)
}

impl<'a> TakesLines for EarlierDocuments<'a> {
    fn take(&mut self, alloc: Global, line: &Line) -> Result<(), DatabaseFault> {
        let place = place_at(line, 0)?;
        let number = number_at(line, 1)?;
        let reusable = flag_at(line, 3)?;
        let record = DocRecord {
            number,
            path: bytes_at(alloc, line, 2)?,
            reusable,
            strict: false,
            grants: List::new(alloc),
        };
        self.documents.push(place, record)
    }
}

impl<'a> TakesLines for EarlierGrants<'a> {
    fn take(&mut self, alloc: Global, line: &Line) -> Result<(), DatabaseFault> {
        let place = place_at(line, 0)?;
        let rights = rights_at(line, 2)?;
        let app = bytes_at(alloc, line, 1)?;
        self.documents.grant(place, GrantRecord { app, rights })
    }
}

impl<'a> TakesLines for EarlierNames<'a> {
    fn take(&mut self, alloc: Global, line: &Line) -> Result<(), DatabaseFault> {
        let (app, name) = (text_at(line, 1)?, text_at(line, 2)?);
        self.entries.push_name(alloc, place_at(line, 0)?, app, name)
    }
}
