//! The kept documents, in the table `document`, with the rights in them in
//! `document_grant`.

ghost use Rattle.std.specs.Prelude.{◌<◌, IfOk, vec_len};

use crate::calls::{
    TakesLines, bytes_at, flag_at, hand_lines, lines_of, number_at, place_at, rights_at, run,
};
use crate::fault::DatabaseFault;
use portal_base::list::{ByteList, List};
use portal_model::records::{DocRecord, GrantRecord};
use sqlite::types::{ToSql, ValueRef};
use sqlite::{Alter, Row as Line, Transaction, params};
use std::alloc::Global;

const LOAD: &str = "SELECT place, number, path, reusable, strict FROM document ORDER BY place";

const LOAD_GRANTS: &str = "SELECT document, application, rights FROM document_grant ORDER BY place";

const ADD: &str = "INSERT INTO document (number, path, reusable, strict) VALUES (?1, ?2, ?3, ?4)";

const FIND: &str = "SELECT place FROM document WHERE number = ?1";

const REMOVE: &str = "DELETE FROM document WHERE number = ?1";

const READ_GRANTS: &str = "SELECT place, application, rights FROM document_grant
    WHERE document = ?1 ORDER BY application";

const ADD_GRANT: &str =
    "INSERT INTO document_grant (document, application, rights) VALUES (?1, ?2, ?3)";

const CHANGE_GRANT: &str = "UPDATE document_grant SET rights = ?2 WHERE place = ?1";

const REMOVE_GRANT: &str = "DELETE FROM document_grant WHERE place = ?1";

/// The documents as they are read, each with its place.
#[derive(Drop)]
pub struct ReadDocuments {
    documents: Vec<PlacedDocument>,
}

#[derive(Drop)]
struct PlacedDocument {
    place: i64,
    record: DocRecord,
}

/// The rights in documents as they are read.
#[derive(Drop)]
struct ReadGrants<'a> {
    documents: &'a mut ReadDocuments,
}

/// The documents, in their order.
pub fn read_documents<S: Alter>(
    alloc: Global,
    transaction: &mut Transaction<'_, S>,
) -> Result<List<DocRecord>, DatabaseFault> {
    let mut documents = ReadDocuments::new(alloc);
    hand_lines(alloc, transaction, LOAD, &mut documents)?;
    let mut grants = ReadGrants {
        documents: &mut documents,
    };
    hand_lines(alloc, transaction, LOAD_GRANTS, &mut grants)?;
    documents.records(alloc)
}

impl ReadDocuments {
    /// None yet.
    pub fn new(alloc: Global) -> ReadDocuments {
        ReadDocuments {
            documents: Vec::new(alloc),
        }
    }

    /// Puts a document behind those that were read, whose places are lower.
    pub fn push(&mut self, place: i64, record: DocRecord) -> Result<(), DatabaseFault> {
        self.documents.push(PlacedDocument { place, record })?;
        Ok(())
    }

    /// Gives the document of a place rights.
    pub fn grant(&mut self, place: i64, grant: GrantRecord) -> Result<(), DatabaseFault> {
        let at = self.index_of(place)?;
        self.documents[at].record.grants.push(grant)?;
        Ok(())
    }

    /// Where the document of a place stands.
    fn index_of(&self, place: i64) -> Result<usize, DatabaseFault>
        ensures { IfOk result (λ at. at < vec_len self.now.documents) }
    {
        let documents = self.documents.as_slice();
        let found = documents.binary_search_by(|document| document.place.cmp(&place));
        found.map_err(|_| DatabaseFault::NoRecord)
    }

    /// The records, with the applications of each document in byte order.
    pub fn records(self, alloc: Global) -> Result<List<DocRecord>, DatabaseFault> {
        let ReadDocuments { documents } = self;
        let mut records = Vec::with_capacity(alloc, documents.len())?;
        for document in documents {
            records.push(in_order(document.record))?;
        }
        Ok(List::from_vec(records))
    }
}

/// The document, with its applications in byte order.
fn in_order(document: DocRecord) -> DocRecord {
    let DocRecord {
        number,
        path,
        reusable,
        strict,
        grants,
    } = document;
    let mut grants = grants.into_vec();
    grants.sort_unstable_by(|one, other| one.app.as_slice().cmp(other.app.as_slice()));
    DocRecord {
        number,
        path,
        reusable,
        strict,
        grants: List::from_vec(grants),
    }
}

impl TakesLines for ReadDocuments {
    fn take(&mut self, alloc: Global, line: &Line) -> Result<(), DatabaseFault> {
        let place = place_at(line, 0)?;
        let number = number_at(line, 1)?;
        let reusable = flag_at(line, 3)?;
        let strict = flag_at(line, 4)?;
        let record = DocRecord {
            number,
            path: bytes_at(alloc, line, 2)?,
            reusable,
            strict,
            grants: List::new(alloc),
        };
        self.push(place, record)
    }
}

impl<'a> TakesLines for ReadGrants<'a> {
    fn take(&mut self, alloc: Global, line: &Line) -> Result<(), DatabaseFault> {
        let place = place_at(line, 0)?;
        let rights = rights_at(line, 2)?;
        let app = bytes_at(alloc, line, 1)?;
        self.documents.grant(place, GrantRecord { app, rights })
    }
}

/// Puts a document behind the others.
pub fn add_document<S: Alter>(
    transaction: &mut Transaction<'_, S>,
    document: &DocRecord,
) -> Result<(), DatabaseFault> {
    let path = document.path.as_slice();
    let params = params![document.number, path, document.reusable, document.strict];
    run(transaction, ADD, params)?;
    let place = transaction.last_insert_rowid();
    for grant in document.grants.iter() {
        add_grant(transaction, place, grant)?;
    }
    Ok(())
}

/// The document of a number goes away.
pub fn remove_document<S: Alter>(
    transaction: &mut Transaction<'_, S>,
    number: u32,
) -> Result<(), DatabaseFault> {
    run(transaction, REMOVE, params![number])
}

/// What an application has been given, and where that stands.
#[derive(Drop)]
struct KeptGrant {
    place: i64,
    app: ByteList,
    rights: u8,
}

/// The document of a number has these rights given, where there is one. What stays as it
/// is isn't written.
pub fn set_grants<S: Alter>(
    alloc: Global,
    transaction: &mut Transaction<'_, S>,
    number: u32,
    grants: &[GrantRecord],
) -> Result<(), DatabaseFault> {
    let Some(document) = place_of(transaction, number)? else {
        return Ok(());
    };
    let kept = kept_grants(alloc, transaction, document)?;
    renew_grants(transaction, document, kept.as_slice(), grants)
}

/// The place of the document of a number, where there is one.
fn place_of<S: Alter>(
    transaction: &mut Transaction<'_, S>,
    number: u32,
) -> Result<Option<i64>, DatabaseFault> {
    let lines = lines_of(transaction, FIND, params![number])?;
    first_place(lines.as_slice())
}

/// The place in the first of these lines.
fn first_place(lines: &[Line]) -> Result<Option<i64>, DatabaseFault> {
    match lines.first() {
        Some(line) => Ok(Some(place_at(line, 0)?)),
        None => Ok(None),
    }
}

/// The document of a place has these rights given in place of those that are kept.
fn renew_grants<S: Alter>(
    transaction: &mut Transaction<'_, S>,
    document: i64,
    kept: &[KeptGrant],
    grants: &[GrantRecord],
) -> Result<(), DatabaseFault> {
    for old in kept {
        renew_grant(transaction, old, grants)?;
    }
    for grant in grants {
        if !is_kept(kept, grant) {
            add_grant(transaction, document, grant)?;
        }
    }
    Ok(())
}

/// The rights in the document of a place, in byte order of the applications.
fn kept_grants<S: Alter>(
    alloc: Global,
    transaction: &mut Transaction<'_, S>,
    document: i64,
) -> Result<Vec<KeptGrant>, DatabaseFault> {
    let lines = lines_of(transaction, READ_GRANTS, params![document])?;
    grants_in(alloc, lines.as_slice())
}

/// The rights in these lines.
fn grants_in(alloc: Global, lines: &[Line]) -> Result<Vec<KeptGrant>, DatabaseFault> {
    let mut kept = Vec::new(alloc);
    for line in lines {
        kept.push(grant_in(alloc, line)?)?;
    }
    Ok(kept)
}

/// The rights in a line.
fn grant_in(alloc: Global, line: &Line) -> Result<KeptGrant, DatabaseFault> {
    let place = place_at(line, 0)?;
    let rights = rights_at(line, 2)?;
    let app = bytes_at(alloc, line, 1)?;
    Ok(KeptGrant { place, app, rights })
}

/// Changes what an application was given, or removes it, as the new rights say.
fn renew_grant<S: Alter>(
    transaction: &mut Transaction<'_, S>,
    old: &KeptGrant,
    grants: &[GrantRecord],
) -> Result<(), DatabaseFault> {
    match rights_among(grants, old.app.as_slice()) {
        None => run(transaction, REMOVE_GRANT, params![old.place]),
        Some(rights) if rights == old.rights => Ok(()),
        Some(rights) => change_grant(transaction, old.place, rights),
    }
}

/// The rights of an application among those given, which are in byte order of names.
fn rights_among(grants: &[GrantRecord], app: &[u8]) -> Option<u8> {
    let found = grants.binary_search_by(|grant| grant.app.as_slice().cmp(app));
    let grant = grants.get(found.ok()?)?;
    Some(grant.rights)
}

fn change_grant<S: Alter>(
    transaction: &mut Transaction<'_, S>,
    place: i64,
    rights: u8,
) -> Result<(), DatabaseFault> {
    run(transaction, CHANGE_GRANT, params![place, u32::from(rights)])
}

/// Whether an application has been given rights.
fn is_kept(kept: &[KeptGrant], grant: &GrantRecord) -> bool {
    let app = grant.app.as_slice();
    kept.binary_search_by(|old| old.app.as_slice().cmp(app))
        .is_ok()
}

fn add_grant<S: Alter>(
    transaction: &mut Transaction<'_, S>,
    document: i64,
    grant: &GrantRecord,
) -> Result<(), DatabaseFault> {
    let app = ValueRef::Text(grant.app.as_slice());
    let rights = u32::from(grant.rights);
    let params = &[document.to_sql(), app, rights.to_sql()];
    run(transaction, ADD_GRANT, params)
}
