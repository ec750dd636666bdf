//! The opening state that the lists of a portal stand for.

ghost use Rattle.std.specs.Prelude.{◌≡◌, map, true, IfOk, OnOk};
ghost use Rattle.std.specs.List.{list_all};
ghost use Rattle.portal_model.specs.Rows.{are_rows};
ghost use Rattle.portal_start.specs.Renewed.{document_again, opening_of};

use crate::copies::{copies, copies_of_entries};
use document_records::{Applications, Documents, Grants};
use permission_table::Tables;
use portal_base::limits::Limits;
use portal_base::list::List;
use portal_base::memory::WantOfMemory;
use portal_model::opening::{OpeningDocument, OpeningState, TakenGeneration};
use portal_model::records::DocRecord;
use portal_model::state::Document;
use std::alloc::Global;

/// The opening state of a history that goes on from these lists, with the generations that
/// were taken. Its list of files is empty, and the rows of each of its entries stand in
/// order.
pub fn opening_of(
    alloc: Global,
    limits: &Limits,
    documents: &Documents,
    rights: &Grants,
    applications: &Applications,
    tables: &Tables,
    taken: &[TakenGeneration],
) -> Result<OpeningState, WantOfMemory>
    ensures value { IfOk result (λ opening. opening
        ≡ opening_of limits.now documents.now rights.now applications.now tables.now
        taken.now) }
    ensures rows { OnOk result (list_all (λ e. are_rows e.rows) tables.now ≡ true) }
{
    Ok(OpeningState {
        limits: *limits,
        documents: documents_again(alloc, documents.live(), rights)?,
        made: copies(alloc, documents.made())?,
        applications: copies(alloc, applications.names())?,
        entries: copies_of_entries(alloc, tables.entries())?,
        files: List::new(alloc),
        taken: copies(alloc, taken)?,
    })
}

/// The documents, each with the rights in it.
fn documents_again(
    alloc: Global,
    documents: &[Document],
    rights: &Grants,
) -> Result<List<OpeningDocument>, WantOfMemory>
    ensures { IfOk result (λ again. again ≡ map (document_again rights.now) documents.now) }
{
    let mut again = List::new(alloc);
    for document in documents {
        again.push(document_again(alloc, document, rights)?)?;
    }
    Ok(again)
}

/// A document, with the rights in it.
fn document_again(
    alloc: Global,
    document: &Document,
    rights: &Grants,
) -> Result<OpeningDocument, WantOfMemory>
    ensures { IfOk result (λ again. again ≡ document_again rights.now document.now) }
{
    let kept = DocRecord {
        number: document.id.number,
        path: List::copied(alloc, document.path.as_bytes())?,
        reusable: document.reusable,
        strict: document.strict,
        grants: rights.records(document.id)?,
    };
    Ok(OpeningDocument {
        kept,
        persistent: document.persistent,
        folder: document.folder,
    })
}
