//! What others' calls on rights tell an application, where they are done.

ghost use Rattle.std.specs.Prelude.{◌≡◌, [], Some, cond, map, option_copied, IfOk};
ghost use Rattle.app_world.specs.DeleteDocument.{delete_touch as touch_of_delete, deleted_from};
ghost use Rattle.app_world.specs.Grant.{gained_in, grant_touch as touch_of_grant};
ghost use Rattle.app_world.specs.Revoke.{common, lost_in, revoke_touch as touch_of_revoke};
ghost use Rattle.app_world.specs.TraceItem.{item_of};
ghost use Rattle.portal_model.specs.Arguments.{document_named};
ghost use Rattle.rights_rule.specs.Rights.{is_listed, no_rights, rights_named};
ghost use Rattle.trace_items.specs.Touches.{shown_in, told_if};

use app_trace::contents::holding_of;
use app_trace::trace::TraceItem;
use document_records::{Documents, Grants};
use portal_base::list::List;
use portal_base::memory::{Replica, WantOfMemory};
use portal_base::names::{AppId, DocId};
use portal_base::text::Text;
use portal_model::request::RightsCall;
use portal_model::state::Document;
use rights_rule::Rights;
use std::alloc::Global;
use tree_files::TreeFiles;

/// What a GrantPermissions tells the application: the rights that it gains.
pub fn grant_touch(
    alloc: Global,
    documents: &Documents,
    rights: &Grants,
    files: &TreeFiles,
    app: &AppId,
    call: &RightsCall,
) -> Result<Option<TraceItem>, WantOfMemory>
    ensures { IfOk result (λ item. told_if item ≡ map item_of
        (touch_of_grant app.now (shown_in documents.now.live rights.now files.now.present) call.now)) }
{
    if call.app.as_slice() != app.as_bytes() {
        return Ok(None);
    }
    match document_named(documents, call.doc.as_slice()) {
        Some(document) => gained(alloc, rights, files, app, document, listed(&call.names)),
        None => Ok(None),
    }
}

/// The rights in a document that the application doesn't have of these.
pub fn gained(
    alloc: Global,
    rights: &Grants,
    files: &TreeFiles,
    app: &AppId,
    document: &Document,
    listed: Rights,
) -> Result<Option<TraceItem>, WantOfMemory>
    ensures { IfOk result (λ item. told_if item ≡ map item_of
        (gained_in app.now (shown_in [] rights.now files.now.present) listed document.now)) }
{
    let more = listed.minus(rights.rights(app, document.id));
    if more.is_empty() {
        return Ok(None);
    }
    // What there is for it is told with the rights, since the view may not have held the document.
    let holding = holding_of(alloc, files, document)?;
    let document = document.replica(alloc)?;
    Ok(Some(TraceItem::Gained {
        document,
        rights: more,
        holding,
    }))
}

/// What a RevokePermissions tells the application: the rights that it loses.
pub fn revoke_touch(
    documents: &Documents,
    rights: &Grants,
    app: &AppId,
    call: &RightsCall,
) -> Option<TraceItem>
    ensures { told_if result ≡ map item_of
        (touch_of_revoke app.now (shown_in documents.now.live rights.now []) call.now) }
{
    if call.app.as_slice() != app.as_bytes() {
        return None;
    }
    match document_named(documents, call.doc.as_slice()) {
        Some(document) => lost(rights, app, document, listed(&call.names)),
        None => None,
    }
}

/// The rights in a document that the application has of these.
fn lost(rights: &Grants, app: &AppId, document: &Document, listed: Rights) -> Option<TraceItem>
    ensures { told_if result ≡ map item_of
        (lost_in app.now (shown_in [] rights.now []) listed document.now) }
{
    let held = rights.rights(app, document.id);
    let less = common(listed, held);
    if less.is_empty() {
        return None;
    }
    Some(TraceItem::Lost {
        id: document.id,
        rights: less,
    })
}

/// What is in both sets.
fn common(first: Rights, second: Rights) -> Rights
    ensures { result ≡ common first second }
{
    first.minus(first.minus(second))
}

/// What a Delete tells the application: that a document is gone, where it has a
/// right in it.
pub fn delete_touch(
    documents: &Documents,
    rights: &Grants,
    app: &AppId,
    doc: &[u8],
) -> Option<TraceItem>
    ensures { told_if result ≡ map item_of
        (touch_of_delete app.now (shown_in documents.now.live rights.now []) doc.now) }
{
    match document_named(documents, doc) {
        Some(document) => gone(rights, app, document),
        None => None,
    }
}

/// That a document is gone, where the application has a right in it.
fn gone(rights: &Grants, app: &AppId, document: &Document) -> Option<TraceItem>
    ensures { told_if result ≡ map item_of
        (deleted_from app.now (shown_in [] rights.now []) (Some document.now)) }
{
    if rights.rights(app, document.id).is_empty() {
        return None;
    }
    Some(TraceItem::Gone { id: document.id })
}

/// The live document of an identifier.
fn document_named<'a>(documents: &'a Documents, doc: &[u8]) -> Option<&'a Document>
    ensures { option_copied result ≡ document_named documents.now.live doc.now }
{
    documents.find(DocId::read(doc)?)
}

/// The rights that a list of names tells; what names no right tells none.
fn listed(names: &List<Text>) -> Rights
    ensures { result ≡ rights_named names.now }
{
    let names = names.as_slice();
    let read = right_if(has(names, "read"), Rights::READ);
    let write = right_if(has(names, "write"), Rights::WRITE);
    let grant = right_if(has(names, "grant-permissions"), Rights::GRANT_PERMISSIONS);
    let delete = right_if(has(names, "delete"), Rights::DELETE);
    read.union(write).union(grant).union(delete)
}

/// A right, where it is given.
fn right_if(given: bool, right: Rights) -> Rights
    ensures { result ≡ cond given right no_rights }
{
    if given { right } else { Rights::NONE }
}

/// Says whether a name is in a list.
fn has(names: &[Text], name: &str) -> bool
    ensures { result ≡ is_listed name.now names.now }
{
    names.iter().any(|text| text.as_bytes() == name.as_bytes())
}
