//! The rights in one document, as they are told and as they are kept.

ghost use Rattle.std.specs.Prelude.{◌≡◌, ◌++◌, IfOk, OnOk, cond};
ghost use Rattle.std.specs.List.{flat_map};
ghost use Rattle.rights_rule.specs.Rights.{minus};
ghost use Rattle.portal_base.specs.Names.{is_same};
ghost use Rattle.portal_model.specs.Kept.{bits_of};
ghost use Rattle.document_records.specs.Holdings.{record_left, rights_left, row_held};

use crate::grants::Grant;
use crate::texts::name_text;
use portal_base::list::List;
use portal_base::memory::WantOfMemory;
use portal_base::names::DocId;
use portal_model::records::{GrantRecord, Row};
use rights_rule::Rights;
use std::alloc::Global;

/// The rows of a document: each application with the names of its rights.
pub(crate) fn rows(alloc: Global, grants: &[Grant], id: DocId) -> Result<List<Row>, WantOfMemory>
    ensures { IfOk result (λ rows. rows ≡ flat_map (row_held id.number) grants.now) }
{
    let mut rows = List::new(alloc);
    for grant in grants {
        push_row(alloc, &mut rows, grant, id)?;
    }
    Ok(rows)
}

/// Adds the row of a grant, where it is in a document.
fn push_row(
    alloc: Global,
    rows: &mut List<Row>,
    grant: &Grant,
    id: DocId,
) -> Result<(), WantOfMemory>
    ensures { OnOk result (rows.new ≡ rows.old ++ row_held id.number grant.now) }
{
    if grant.id.number != id.number {
        return Ok(());
    }
    let row = Row {
        app: name_text(alloc, &grant.app)?,
        names: grant.rights.names(alloc)?,
    };
    rows.push(row)
}

/// The records of a document, once these rights of an application are taken
/// away.
pub(crate) fn records_left(
    alloc: Global,
    grants: &[Grant],
    id: DocId,
    app: &[u8],
    rights: Rights,
) -> Result<List<GrantRecord>, WantOfMemory>
    ensures { IfOk result (λ records. records
        ≡ flat_map (record_left app.now id.number rights) grants.now) }
{
    let mut records = List::new(alloc);
    for grant in grants {
        push_record(alloc, &mut records, grant, id, app, rights)?;
    }
    Ok(records)
}

/// Adds the record of a grant, where it is in a document and something is left
/// of it.
fn push_record(
    alloc: Global,
    records: &mut List<GrantRecord>,
    grant: &Grant,
    id: DocId,
    app: &[u8],
    rights: Rights,
) -> Result<(), WantOfMemory>
    ensures { OnOk result (records.new
        ≡ records.old ++ record_left app.now id.number rights grant.now) }
{
    let left = left_of(grant, id, app, rights);
    if grant.id.number != id.number || left.is_empty() {
        return Ok(());
    }
    records.push(GrantRecord {
        app: List::copied(alloc, grant.app.as_bytes())?,
        rights: bits(left),
    })
}

/// What is left to a grant once these rights of an application are taken away.
fn left_of(grant: &Grant, id: DocId, app: &[u8], rights: Rights) -> Rights
    ensures { result ≡ rights_left app.now id.number rights grant.now }
{
    if grant.id.number == id.number && grant.app.as_bytes() == app {
        grant.rights.minus(rights)
    } else {
        grant.rights
    }
}

/// The number that a record gives a set of rights.
fn bits(rights: Rights) -> u8
    ensures { result ≡ bits_of rights }
{
    bit_if(rights.contains(Rights::READ), 1)
        + bit_if(rights.contains(Rights::WRITE), 2)
        + bit_if(rights.contains(Rights::GRANT_PERMISSIONS), 4)
        + bit_if(rights.contains(Rights::DELETE), 8)
}

fn bit_if(held: bool, bit: u8) -> u8
    ensures { result ≡ cond held bit 0 }
{
    if held { bit } else { 0 }
}
