//! What becomes of each file.

ghost use Rattle.std.specs.Prelude.{◌≡◌, ◌<◌, ◌≤◌, ◌++◌, ◌∷◌, [], length, IfOk, IfErr, OnOk, true, false, not, ◌&&◌, ◌||◌, is_some, cond, take, None};
ghost use Rattle.std.specs.List.{position, list_all, count_by};
ghost use Rattle.portal_model.specs.Add.{used_again};
ghost use Rattle.portal_model.specs.AddArguments.{document_path, files_limit};
ghost use Rattle.add_files.specs.Arguments.{FailsCheck, is_joined_well};
ghost use Rattle.add_files.specs.Items.{are_below, item_behind, items_of, left_out, makes, may_list_in, may_list_items, paths_of, presented_of, place_behind, place_used};
ghost use Rattle.add_files.specs.Plans.{is_new, own_of};

use crate::arguments::document_path;
use crate::flags::{adding_rights, exports, is_as_needed, is_strict, persists, reuses};
use crate::plan::{AddError, PlanItem, PlanUse};
use document_records::{Documents, Grants};
use portal_base::list::List;
use portal_base::names::{AppId, DocId, HostPath};
use portal_base::who::Who;
use portal_model::request::AddRequest;
use rights_rule::Rights;
use std::alloc::Global;

/// Plans each file of a call of few enough files, behind no item, over the
/// presented files that it takes.
pub fn plan_files(
    alloc: Global,
    documents: &Documents,
    who: &Who,
    add: &AddRequest,
    app: &Option<AppId>,
    paths: &[HostPath],
    items: &mut List<PlanItem>,
) -> Result<(), AddError>
    requires none { items.old ≡ [] }
    requires few { length add.now.handles ≤ files_limit }
    requires below { are_below (length paths.now) add.now.handles ≡ true }
    ensures ok { OnOk result (items.new ≡ items_of documents.now.live who.now add.now app.now
        (paths_of add.now paths.now add.now.handles)) }
    ensures count { OnOk result (length items.new ≤ files_limit) }
    ensures joined { OnOk result (list_all (is_joined_well add.now)
        (presented_of paths.now add.now.handles) ≡ true) }
    ensures err { IfErr result (FailsCheck (list_all (is_joined_well add.now)
        (presented_of paths.now add.now.handles))) }
{
    for handle in add.handles.as_slice() {
        let presented = &paths[*handle as usize];
        if let Err(error) = plan_file(alloc, documents, who, add, app, presented, items) {
            return Err(error);
        }
    }
    Ok(())
}

/// Plans one file, behind those ahead of it.
fn plan_file(
    alloc: Global,
    documents: &Documents,
    who: &Who,
    add: &AddRequest,
    app: &Option<AppId>,
    presented: &HostPath,
    items: &mut List<PlanItem>,
) -> Result<(), AddError>
    requires { length items.old ≤ files_limit }
    ensures ok { OnOk result (items.new ≡ items.old
        ++ item_behind documents.now.live who.now add.now app.now items.old
        (document_path add.now presented.now) ∷ []) }
    ensures joined { OnOk result (is_joined_well add.now presented.now ≡ true) }
    ensures err { IfErr result (FailsCheck (is_joined_well add.now presented.now)) }
{
    let path = document_path(alloc, add, presented)?;
    let place = place_behind(documents, add, app, items.as_slice(), &path);
    let own = own_of(who, add, place);
    if items.push(PlanItem { path, place, own }).is_err() {
        return Err(AddError::Memory);
    }
    Ok(())
}

/// The document of a file, by what stands ahead of it.
fn place_behind(
    documents: &Documents,
    add: &AddRequest,
    app: &Option<AppId>,
    ahead: &[PlanItem],
    path: &HostPath,
) -> PlanUse
    requires { length ahead.now ≤ files_limit }
    ensures { result ≡ place_behind documents.now.live add.now app.now ahead.now path.now }
{
    if is_left_out(add, app, path) {
        return PlanUse::LeftOut;
    }
    match used_again(documents, add, path) {
        Some(id) => PlanUse::Live(id),
        None => new_place(add, ahead, path),
    }
}

/// The document of a file for which no live one is used again.
fn new_place(add: &AddRequest, ahead: &[PlanItem], path: &HostPath) -> PlanUse
    requires { length ahead.now ≤ files_limit }
    ensures { result ≡ place_used add.now ahead.now path.now None }
{
    if !reuses(add) {
        return PlanUse::New;
    }
    match made_ahead(ahead, path) {
        Some(at) => PlanUse::Earlier(at),
        None => PlanUse::New,
    }
}

/// Says whether a file is left out, since the application that is named has it
/// in its own folder.
fn is_left_out(add: &AddRequest, app: &Option<AppId>, path: &HostPath) -> bool
    ensures { result ≡ left_out add.now app.now path.now }
{
    // The folder is that of the document's path, and not of the presented one.
    match app {
        None => false,
        Some(app) => is_as_needed(add) && path.in_folder_of(app),
    }
}

/// The live document that is used again.
fn used_again(documents: &Documents, add: &AddRequest, path: &HostPath) -> Option<DocId>
    ensures { result ≡ used_again documents.now.live add.now path.now }
{
    if reuses(add) {
        documents.reusable(path, persists(add), is_strict(add), exports(add))
    } else {
        None
    }
}

/// The place of the item that makes a document of this path.
fn made_ahead(ahead: &[PlanItem], path: &HostPath) -> Option<u32>
    requires { length ahead.now ≤ files_limit }
    ensures { result ≡ position (makes path.now) ahead.now }
{
    let at = place_of(ahead, path)?;
    Some(at as u32)
}

fn place_of(ahead: &[PlanItem], path: &HostPath) -> Option<usize>
    ensures { result ≡ position (makes path.now) ahead.now }
{
    ahead.iter().position(|item| makes(item, path))
}

/// Says whether an item makes a document of this path.
fn makes(item: &PlanItem, path: &HostPath) -> bool
    ensures { result ≡ makes path.now item.now }
{
    is_new(item.place) && item.path == *path
}

/// Says whether a document is made.
fn is_new(place: PlanUse) -> bool
    ensures { result ≡ is_new place }
{
    matches!(place, PlanUse::New)
}

/// The rights that the caller gets.
fn own_of(who: &Who, add: &AddRequest, place: PlanUse) -> Rights
    ensures { result ≡ own_of who.now add.now place }
{
    match (who, place) {
        // The host may do everything already, and who adds a file that is left out gets no
        // document.
        (Who::Host, _) | (_, PlanUse::LeftOut) => Rights::NONE,
        _ => adding_rights(add),
    }
}

/// How many documents are new.
pub fn used(items: &[PlanItem]) -> u32
    requires { length items.now ≤ files_limit }
    ensures { result ≡ count_by (λ item. is_new item.place) items.now }
{
    let mut used = 0;
    for item in items {
        if is_new(item.place) {
            used += 1;
        }
    }
    used
}

/// Says whether no application is named, or the caller has, in each document,
/// the rights that it lists.
pub fn may_list(
    grants: &Grants,
    who: &Who,
    add: &AddRequest,
    app: &Option<AppId>,
    listed: Rights,
    items: &[PlanItem],
) -> bool
    ensures { result ≡ (not (is_some app.now)
        || may_list_items grants.now who.now add.now listed items.now) }
{
    app.is_none() || may_list_items(grants, who, add, listed, items)
}

/// Says whether the caller has, in each document, the rights that it lists.
fn may_list_items(
    grants: &Grants,
    who: &Who,
    add: &AddRequest,
    listed: Rights,
    items: &[PlanItem],
) -> bool
    ensures { result ≡ may_list_items grants.now who.now add.now listed items.now }
{
    items
        .iter()
        .all(|item| may_list_in(grants, who, add, listed, item.place))
}

/// The same of one document.
fn may_list_in(grants: &Grants, who: &Who, add: &AddRequest, listed: Rights, place: PlanUse) -> bool
    ensures { result ≡ may_list_in grants.now who.now add.now listed place }
{
    let Who::App(app) = who else {
        return true;
    };
    match place {
        PlanUse::LeftOut => true,
        PlanUse::Live(id) => grants
            .rights(app, id)
            .union(adding_rights(add))
            .contains(listed),
        PlanUse::Earlier(_) | PlanUse::New => adding_rights(add).contains(listed),
    }
}
