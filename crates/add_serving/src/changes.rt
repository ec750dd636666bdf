//! The changes of the records that an addition makes.

ghost use Rattle.std.specs.Prelude.{◌≡◌, ◌≤◌, ◌++◌, drop, length, take, IfOk, OnOk};
ghost use Rattle.std.specs.List.{flat_map};
ghost use Rattle.portal_model.specs.Kept.{document_record};
ghost use Rattle.add_serving.specs.Changes.{addition, caller_lacks, changes_of, is_live, item_changes, lacks, named_lacks, plan_changes, regrant};
ghost use Rattle.document_records.specs.Documents.{is_kept};

use add_files::{AddPlan, PlanItem, PlanUse, persists};
use document_records::{Document, Documents, Grants};
use portal_base::list::List;
use portal_base::memory::WantOfMemory;
use portal_base::names::{AppId, DocId};
use portal_base::who::Who;
use portal_model::records::{DocRecord, RecordChange};
use portal_model::request::AddRequest;
use rights_rule::Rights;
use std::alloc::Global;

/// Says whether the records change where a plan is followed.
pub(crate) fn plan_changes(
    documents: &Documents,
    grants: &Grants,
    who: &Who,
    add: &AddRequest,
    plan: &AddPlan,
) -> bool
    ensures { result ≡ plan_changes documents.now.live grants.now who.now add.now plan.now }
{
    plan.items.as_slice().iter().any(|item| item_changes(documents, grants, who, add, plan, item))
}

/// The same of one file.
fn item_changes(
    documents: &Documents,
    grants: &Grants,
    who: &Who,
    add: &AddRequest,
    plan: &AddPlan,
    item: &PlanItem,
) -> bool
    ensures { result
        ≡ item_changes documents.now.live grants.now who.now add.now plan.now item.now }
{
    match item.place {
        PlanUse::LeftOut | PlanUse::Earlier(_) => false,
        PlanUse::Live(id) => {
            is_kept(documents, id)
                && (caller_lacks(grants, who, id, item.own)
                    || named_lacks(grants, &plan.app, id, plan.listed))
        }
        PlanUse::New => persists(add),
    }
}

/// Says whether a live document is in the records.
fn is_kept(documents: &Documents, id: DocId) -> bool
    ensures { result ≡ is_kept documents.now.live id.number }
{
    match documents.find(id) {
        Some(document) => document.persistent,
        None => false,
    }
}

/// Says whether a caller that is an application has not all of these rights.
fn caller_lacks(grants: &Grants, who: &Who, id: DocId, own: Rights) -> bool
    ensures { result ≡ caller_lacks grants.now who.now id own }
{
    match who {
        Who::Host => false,
        Who::App(app) => lacks(grants, app, id, own),
    }
}

/// Says whether the application that is named has not all of these rights.
fn named_lacks(grants: &Grants, app: &Option<AppId>, id: DocId, listed: Rights) -> bool
    ensures { result ≡ named_lacks grants.now app.now id listed }
{
    match app {
        None => false,
        Some(app) => lacks(grants, app, id, listed),
    }
}

/// Says whether an application has not all of these rights in a document.
fn lacks(grants: &Grants, app: &AppId, id: DocId, rights: Rights) -> bool
    ensures { result ≡ lacks grants.now app.now id rights }
{
    !rights.minus(grants.rights(app, id)).is_empty()
}

/// The changes of the records after files were placed. Of the documents the
/// first ones were there before; these were used.
///
/// Each of those that were there has all rights told that are then given in
/// it, also where none of them is new.
pub(crate) fn changes_of(
    alloc: Global,
    kept: usize,
    documents: &[Document],
    grants: &Grants,
    used: &[Option<DocId>],
) -> Result<List<RecordChange>, WantOfMemory>
    requires { kept ≤ length documents.now }
    ensures { IfOk result (λ changes. changes
        ≡ changes_of kept documents.now grants.now used.now) }
{
    let (old, new) = documents.split_at(kept);
    match regrants(alloc, old, grants, used) {
        Ok(regrants) => with_additions(alloc, regrants, new, grants),
        Err(error) => Err(error),
    }
}

/// The changes of documents that were there.
fn regrants(
    alloc: Global,
    documents: &[Document],
    grants: &Grants,
    used: &[Option<DocId>],
) -> Result<List<RecordChange>, WantOfMemory>
    ensures { IfOk result (λ changes. changes
        ≡ flat_map (regrant documents.now grants.now) used.now) }
{
    let mut changes = List::new(alloc);
    for id in used {
        push_regrant(&mut changes, documents, grants, *id)?;
    }
    Ok(changes)
}

/// Puts the change of a used document behind others, where it was there.
fn push_regrant(
    changes: &mut List<RecordChange>,
    documents: &[Document],
    grants: &Grants,
    used: Option<DocId>,
) -> Result<(), WantOfMemory>
    ensures { OnOk result (changes.new
        ≡ changes.old ++ regrant documents.now grants.now used) }
{
    let id = match used {
        Some(id) if is_live(documents, id) => id,
        _ => return Ok(()),
    };
    match grants.records(id) {
        Ok(grants) => changes.push(RecordChange::SetGrants {
            number: id.number,
            grants,
        }),
        Err(error) => Err(error),
    }
}

/// Says whether one of the documents has a number.
fn is_live(documents: &[Document], id: DocId) -> bool
    ensures { result ≡ is_live documents.now id.number }
{
    documents
        .iter()
        .any(|document| document.id.number == id.number)
}

/// These changes, and behind them those of new documents.
fn with_additions(
    alloc: Global,
    regrants: List<RecordChange>,
    new: &[Document],
    grants: &Grants,
) -> Result<List<RecordChange>, WantOfMemory>
    ensures { IfOk result (λ changes. changes
        ≡ regrants ++ flat_map (addition grants.now) new.now) }
{
    let mut changes = regrants;
    for document in new {
        push_addition(alloc, &mut changes, grants, document)?;
    }
    Ok(changes)
}

/// Puts the change with which a new document goes into the records behind
/// others, where it is persistent.
fn push_addition(
    alloc: Global,
    changes: &mut List<RecordChange>,
    grants: &Grants,
    document: &Document,
) -> Result<(), WantOfMemory>
    ensures { OnOk result (changes.new ≡ changes.old ++ addition grants.now document.now) }
{
    if !document.persistent {
        return Ok(());
    }
    match record_of(alloc, grants, document) {
        Ok(record) => changes.push(RecordChange::AddDocument(record)),
        Err(error) => Err(error),
    }
}

/// The record of a document.
fn record_of(alloc: Global, grants: &Grants, document: &Document) -> Result<DocRecord, WantOfMemory>
    ensures { IfOk result (λ record_. record_ ≡ document_record grants.now document.now) }
{
    match grants.records(document.id) {
        Ok(grants) => Ok(DocRecord {
            number: document.id.number,
            path: List::copied(alloc, document.path.as_bytes())?,
            reusable: document.reusable,
            strict: document.strict,
            grants,
        }),
        Err(error) => Err(error),
    }
}
