//! What an Add comes to, file by file: what its own trace tells, and what
//! another's.

ghost use Rattle.std.specs.Prelude.{◌≡◌, ◌<◌, ◌≤◌, ◌++◌, ◌&&◌, [], None, cond, drop, false, length, map, nat_lt, option_copied, true, IfOk, IfSome, OnOk};
ghost use Rattle.std.specs.List.{find, list_all};
ghost use Rattle.add_files.specs.Plans.{named_app};
ghost use Rattle.app_world.specs.Add.{own_again, reused_of as reused_of_files};
ghost use Rattle.app_world.specs.TraceItem.{item_of};
ghost use Rattle.portal_base.specs.Names.{is_in_own_folder};
ghost use Rattle.portal_model.specs.declared.request.AddRequest.{AddRequest as Asked};
ghost use Rattle.portal_model.specs.Add.{first_number, new_document as document_of_number, used_again as used_of};
ghost use Rattle.portal_model.specs.AddArguments.{are_presented as presented, document_path, document_paths, is_as_needed, is_left_out as left_out, makes_strict, paths_shown as paths_of_call, reuses as does_reuse};
ghost use Rattle.portal_model.specs.Documents.{serves as serves_for};
ghost use Rattle.rights_rule.specs.Rights.{rights_named};
ghost use Rattle.trace_items.specs.OwnAdds.{IsPlanned, Shared, is_given as given_in, is_in_order, looked_at, none_shared, presented_by as presented_path, reused_here, share_file as file_shared, shared_files, shared_with};
ghost use Rattle.trace_items.specs.Sharings.{Tells};
ghost use Rattle.app_trace.specs.Told.{item_told};
ghost use Rattle.trace_items.specs.Touches.{shown_in};

use crate::lent::Lent;
use crate::touches::gained;
use add_files::{AddError, AddPlan, PlanItem, exports, persists, plan_add};
use app_trace::trace::TraceItem;
use document_records::{Documents, Grants};
use portal_base::list::List;
use portal_base::memory::{Replica, WantOfMemory};
use portal_base::names::{AppId, DocId, HostPath};
use portal_base::who::Who;
use portal_model::request::AddRequest;
use portal_model::state::Document;
use std::alloc::Global;

/// What an Add names, over a bus where these files wait; `None` exactly where its
/// presented files or its arguments are not in order.
///
/// The host may list any rights, so the plan of an addition of the host is refused
/// for its arguments alone.
pub fn planned(
    alloc: Global,
    documents: &Documents,
    rights: &Grants,
    queue: &[HostPath],
    add: &AddRequest,
) -> Result<Option<AddPlan>, WantOfMemory>
    ensures some { IfOk result (λ plan. IfSome plan (IsPlanned queue.now add.now)) }
    ensures none { IfOk result (λ plan. plan ≡ None → is_in_order queue.now add.now ≡ false) }
{
    if !are_presented(queue, add) {
        return Ok(None);
    }
    let taken = queue.split_at(add.fds as usize).0;
    match plan_add(alloc, documents, rights, &Who::Host, add, taken) {
        Ok(plan) => Ok(Some(plan)),
        Err(AddError::Memory) => Err(WantOfMemory),
        Err(AddError::InvalidArgument) => Ok(None),
        Err(AddError::NotAllowed) => Ok(None),
    }
}

/// Says whether a call takes presented files that are there, and names some of
/// these.
fn are_presented(queue: &[HostPath], add: &AddRequest) -> bool
    ensures { result ≡ presented queue.now add.now }
{
    add.fds as usize <= queue.len() && are_taken(add)
}

/// Says whether the handles of a call are places among the files that it takes.
fn are_taken(add: &AddRequest) -> bool
    ensures { result ≡ list_all (λ handle. nat_lt handle add.now.fds) add.now.handles }
{
    let handles = add.handles.as_slice();
    handles.iter().all(|handle| *handle < add.fds)
}

/// The paths that the tree is asked for, in their order: that of each file, or
/// of each folder and then of the named file in it. These are the files of the
/// call.
pub fn paths_shown(
    alloc: Global,
    queue: &[HostPath],
    add: &AddRequest,
    items: &[PlanItem],
) -> Result<List<HostPath>, WantOfMemory>
    requires presented { presented queue.now add.now ≡ true }
    requires paths { map (λ item. item.path) items.now ≡ document_paths queue.now add.now }
    ensures { IfOk result (λ paths. paths ≡ paths_of_call queue.now add.now) }
{
    let mut paths = List::new(alloc);
    for index in 0..items.len() {
        let handle = add.handles.as_slice()[index];
        push_looked_at(alloc, &mut paths, queue, add, handle, &items[index].path)?;
    }
    Ok(paths)
}

/// Adds the paths that the tree is asked for the file of a handle, whose document
/// has this path.
fn push_looked_at(
    alloc: Global,
    paths: &mut List<HostPath>,
    queue: &[HostPath],
    add: &AddRequest,
    handle: u32,
    document: &HostPath,
) -> Result<(), WantOfMemory>
    requires within { handle < add.now.fds }
    requires there { add.now.fds ≤ length queue.now }
    requires path { document.now ≡ document_path add.now (presented_path queue.now add.now handle) }
    ensures { OnOk result (paths.new ≡ paths.old ++ looked_at queue.now add.now handle) }
{
    paths.push(presented_by(queue, add, handle).replica(alloc)?)?;
    if add.named {
        paths.push(document.replica(alloc)?)?;
    }
    Ok(())
}

/// The presented path that a handle names.
fn presented_by<'a>(queue: &'a [HostPath], add: &AddRequest, handle: u32) -> &'a HostPath
    requires within { handle < add.now.fds }
    requires there { add.now.fds ≤ length queue.now }
    ensures { result.now ≡ presented_path queue.now add.now handle }
{
    &queue[handle as usize]
}

/// For each file that isn't left out the live document that is used again, if
/// any; nothing of a call that uses none again.
pub fn reused_of(
    alloc: Global,
    documents: &Documents,
    add: &AddRequest,
    plan: &AddPlan,
) -> Result<List<Option<DocId>>, WantOfMemory>
    requires { plan.now.app ≡ named_app add.now }
    ensures { IfOk result (λ reused. reused ≡ cond (does_reuse add.now)
        (reused_of_files documents.now.live add.now (map (λ item. item.path) plan.now.items)) []) }
{
    if reuses(add) {
        return reused_files(alloc, documents, add, &plan.app, plan.items.as_slice());
    }
    Ok(List::new(alloc))
}

/// The same of a call that uses documents again.
fn reused_files(
    alloc: Global,
    documents: &Documents,
    add: &AddRequest,
    app: &Option<AppId>,
    items: &[PlanItem],
) -> Result<List<Option<DocId>>, WantOfMemory>
    requires { app.now ≡ named_app add.now }
    ensures { IfOk result (λ reused. reused
        ≡ reused_of_files documents.now.live add.now (map (λ item. item.path) items.now)) }
{
    let mut reused = List::new(alloc);
    for item in items {
        push_reused(&mut reused, documents, add, app, &item.path)?;
    }
    Ok(reused)
}

/// Adds the document that is used again for a file, unless the file is left out.
fn push_reused(
    reused: &mut List<Option<DocId>>,
    documents: &Documents,
    add: &AddRequest,
    app: &Option<AppId>,
    path: &HostPath,
) -> Result<(), WantOfMemory>
    requires { app.now ≡ named_app add.now }
    ensures { OnOk result (reused.new
        ≡ reused.old ++ reused_here documents.now.live add.now path.now) }
{
    if is_left_out(add, app, path) {
        return Ok(());
    }
    reused.push(used_again(documents, add, path))
}

/// Says whether a file is left out, since the application that is named has it
/// in its own folder.
fn is_left_out(add: &AddRequest, app: &Option<AppId>, path: &HostPath) -> bool
    requires { app.now ≡ named_app add.now }
    ensures { result ≡ left_out add.now path.now }
{
    match app {
        Some(app) => is_needless(add, app, path),
        None => false,
    }
}

/// Says whether a document is made only as an application needs it, which has the
/// file in its own folder.
fn is_needless(add: &AddRequest, app: &AppId, path: &HostPath) -> bool
    ensures { result ≡ (is_as_needed add.now && is_in_own_folder app.now path.now) }
{
    add.flags / 4 % 2 == 1 && path.in_folder_of(app)
}

/// Says whether a call uses documents again.
fn reuses(add: &AddRequest) -> bool
    ensures { result ≡ does_reuse add.now }
{
    add.flags % 2 == 1
}

/// Says whether the documents of a call are strict.
fn is_strict(add: &AddRequest) -> bool
    ensures { result ≡ makes_strict add.now }
{
    add.flags / 16 % 2 == 1
}

/// The live document that is used again for a file, if any.
fn used_again(documents: &Documents, add: &AddRequest, path: &HostPath) -> Option<DocId>
    ensures { result ≡ used_of documents.now.live add.now path.now }
{
    if reuses(add) {
        documents.reusable(path, persists(add), is_strict(add), exports(add))
    } else {
        None
    }
}

/// What was told so far of the files of another's Add.
#[derive(Drop)]
struct Sharing {
    /// The documents that the call made.
    made: List<Document>,
    /// The documents in which the application was given the rights that are
    /// listed.
    given: List<DocId>,
    /// What it was told.
    items: List<TraceItem>,
}

/// What an Add of another tells the application, where it is done: of each file
/// the listed rights that the application did not have before that file. The new
/// documents get these numbers.
pub fn add_touches(
    alloc: Global,
    lent: &Lent,
    app: &AppId,
    add: &AddRequest,
    plan: &AddPlan,
    numbers: &[DocId],
) -> Result<List<TraceItem>, WantOfMemory>
    requires app { plan.now.app ≡ named_app add.now }
    requires listed { plan.now.listed ≡ rights_named add.now.names }
    ensures { IfOk result (λ items. map item_told items ≡ map item_of (shared_files app.now
        (shown_in lent.now.book.documents.now.live lent.now.book.grants.now lent.now.files.now.present)
        add.now numbers.now (map (λ item. item.path) plan.now.items)).effects) }
{
    let mut sharing = Sharing {
        made: List::new(alloc),
        given: List::new(alloc),
        items: List::new(alloc),
    };
    match share_files(alloc, lent, app, add, plan, numbers, &mut sharing) {
        Ok(()) => {
            let Sharing { items, .. } = sharing;
            Ok(items)
        }
        Err(error) => Err(error),
    }
}

/// Goes over all files.
fn share_files(
    alloc: Global,
    lent: &Lent,
    app: &AppId,
    add: &AddRequest,
    plan: &AddPlan,
    numbers: &[DocId],
    sharing: &mut Sharing,
) -> Result<(), WantOfMemory>
    requires app { plan.now.app ≡ named_app add.now }
    requires listed { plan.now.listed ≡ rights_named add.now.names }
    ensures { OnOk result (Tells sharing.old none_shared → Tells sharing.new (shared_files app.now
        (shown_in lent.now.book.documents.now.live lent.now.book.grants.now lent.now.files.now.present)
        add.now numbers.now (map (λ item. item.path) plan.now.items))) }
{
    for item in plan.items.as_slice() {
        share_file(alloc, lent, app, add, plan, numbers, &item.path, sharing)?;
    }
    Ok(())
}

/// Goes over one file, behind those ahead of it.
fn share_file(
    alloc: Global,
    lent: &Lent,
    app: &AppId,
    add: &AddRequest,
    plan: &AddPlan,
    numbers: &[DocId],
    path: &HostPath,
    sharing: &mut Sharing,
) -> Result<(), WantOfMemory>
    requires app { plan.now.app ≡ named_app add.now }
    requires listed { plan.now.listed ≡ rights_named add.now.names }
    ensures { OnOk result ((u : Shared) → Tells sharing.old u → Tells sharing.new
        (file_shared app.now
        (shown_in lent.now.book.documents.now.live lent.now.book.grants.now lent.now.files.now.present)
        add.now numbers.now u path.now)) }
{
    if is_left_out(add, &plan.app, path) {
        return Ok(());
    }
    match there_for(lent.book.documents, add, sharing.made.as_slice(), path) {
        Some(id) => {
            let document = new_document(alloc, add, id, path)?;
            share(alloc, lent, app, plan, &document, sharing)
        }
        None => {
            let id = next_number(numbers, sharing.made.len());
            let document = new_document(alloc, add, id, path)?;
            share(alloc, lent, app, plan, &document, sharing)?;
            sharing.made.push(document)
        }
    }
}

/// The document that is used again for a file: one that was there, or one that
/// the call made.
fn there_for(
    documents: &Documents,
    add: &AddRequest,
    made: &[Document],
    path: &HostPath,
) -> Option<DocId>
    ensures { result ≡ own_again (used_of documents.now.live add.now path.now)
        (used_of made.now add.now path.now) }
{
    match used_again(documents, add, path) {
        Some(id) => Some(id),
        None => made_for(add, made, path),
    }
}

/// The document that the call made for the same path, where it is used again.
fn made_for(add: &AddRequest, made: &[Document], path: &HostPath) -> Option<DocId>
    ensures { result ≡ used_of made.now add.now path.now }
{
    if !reuses(add) {
        return None;
    }
    let document = first_for(made, path, persists(add), is_strict(add), exports(add))?;
    Some(document.id)
}

/// The first document that may stand for a new one of a path.
fn first_for<'a>(
    made: &'a [Document],
    path: &HostPath,
    persistent: bool,
    strict: bool,
    folder: bool,
) -> Option<&'a Document>
    ensures { option_copied result ≡ find (serves_for path.now persistent strict folder) made.now }
{
    made.iter().find(|document| serves(document, path, persistent, strict, folder))
}

/// Says whether a document may stand for a new one of a path.
fn serves(
    document: &Document,
    path: &HostPath,
    persistent: bool,
    strict: bool,
    folder: bool,
) -> bool
    ensures { result ≡ serves_for path.now persistent strict folder document.now }
{
    document.path == *path
        && document.persistent == persistent
        && document.strict == strict
        && document.folder == folder
        && document.reusable
}

/// The number of the next new document.
fn next_number(numbers: &[DocId], used: usize) -> DocId
    ensures { result ≡ first_number (drop used numbers.now) }
{
    match numbers.get(used) {
        Some(id) => *id,
        None => DocId { number: 0 },
    }
}

/// The document of a file, as a new one of this number.
fn new_document(
    alloc: Global,
    add: &AddRequest,
    id: DocId,
    path: &HostPath,
) -> Result<Document, WantOfMemory>
    ensures { IfOk result (λ d. d ≡ document_of_number add.now id path.now) }
{
    Ok(Document {
        id,
        path: path.replica(alloc)?,
        persistent: persists(add),
        reusable: reuses(add),
        strict: is_strict(add),
        folder: exports(add),
    })
}

/// Tells of a document that is shared with the application, where it is the
/// first time in the call.
fn share(
    alloc: Global,
    lent: &Lent,
    app: &AppId,
    plan: &AddPlan,
    document: &Document,
    sharing: &mut Sharing,
) -> Result<(), WantOfMemory>
    ensures { OnOk result ((u : Shared) (a : Asked) → plan.now.listed ≡ rights_named a.names →
        Tells sharing.old u → Tells sharing.new (shared_with app.now
        (shown_in lent.now.book.documents.now.live lent.now.book.grants.now lent.now.files.now.present)
        a u document.now)) }
{
    if is_given(sharing.given.as_slice(), document.id) {
        return Ok(());
    }
    sharing.given.push(document.id)?;
    match gained(
        alloc,
        lent.book.grants,
        lent.files,
        app,
        document,
        plan.listed,
    )? {
        Some(item) => sharing.items.push(item),
        None => Ok(()),
    }
}

/// Says whether a document is among these.
fn is_given(given: &[DocId], id: DocId) -> bool
    ensures { result ≡ given_in given.now id.number }
{
    given.iter().any(|known| known.number == id.number)
}
