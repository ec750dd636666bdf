//! What comes of an entry to an application: what is told ahead of it, from the
//! lists that a portal lends, and what then is when it is known whether it is
//! done.

ghost use Rattle.std.specs.Prelude.{◌≡◌, ◌++◌, [], Bool, IfOk, OnOk, cond, false, map, option_copied, option_map, true};
ghost use Rattle.app_world.specs.Add.{add_touch as touch_of_add, names_app as is_for_app};
ghost use Rattle.app_world.specs.Node.{has_file as view_has_file};
ghost use Rattle.app_world.specs.Touched.{is_done as is_done_answer};
ghost use Rattle.app_world.specs.TraceItem.{item_of};
ghost use Rattle.app_world.specs.View.{holds_name, knows as does_know, view};
ghost use Rattle.app_world.specs.World.{request_touch};
ghost use Rattle.file_generations.specs.Generations.{Held, is_held};
ghost use Rattle.portal_model.specs.declared.state.Connection.{Connection as Open};
ghost use Rattle.portal_model.specs.History.{made_by as is_made_by};
ghost use Rattle.portal_model.specs.Lawful.{Lawful};
ghost use Rattle.portal_model.specs.Node.{files_after};
ghost use Rattle.portal_model.specs.State.{State, connection_of as open_connection, held_in, is_app};
ghost use Rattle.portal_model.specs.Step.{reply_at};
ghost use Rattle.portal_model.specs.Valid.{Valid};
ghost use Rattle.trace_items.specs.Awaited.{Awaits, Comes, IsTold, Shows, change_of, files_awaited, is_node, items_awaited, silent, told_items};
ghost use Rattle.trace_items.specs.FilesChanged.{CanCome, IsThere, is_news_to, is_present, news_of, told_of_change};
ghost use Rattle.trace_items.specs.OwnAdds.{is_in_order};
ghost use Rattle.app_trace.specs.Told.{item_told};
ghost use Rattle.trace_items.specs.Touches.{told_if};

use crate::adds::{add_touches, planned};
use crate::changes::{FileUpdate, change};
use crate::lent::{Lent, bus_of, connection_of, mount_of};
use crate::nodes::{file_item, update_of};
use crate::own::{made_by, own_item};
use crate::touches::{delete_touch, grant_touch, revoke_touch};
use app_trace::trace::TraceItem;
use named_paths::{knows, names};
use portal_base::files::FileName;
use portal_base::list::List;
use portal_base::memory::WantOfMemory;
use portal_base::names::{AppId, DocId, HostPath};
use portal_model::entry::Entry;
use portal_model::reply::Answer;
use portal_model::request::{AddRequest, Request};
use portal_model::state::Connection;
use std::alloc::Global;
use tree_files::TreeFiles;

/// What an entry tells an application.
#[derive(Drop)]
pub enum News {
    /// The application makes it: this item, done or not.
    Own(TraceItem),
    /// Another makes it: these, where it is done.
    Touches(List<TraceItem>),
    /// Another makes it, and the view tells what is at the path of the file that it
    /// changes: that file as it then is, where it is done.
    Changed,
}

/// What comes of an entry, before it is known whether it is done.
#[derive(Drop)]
pub struct Awaited<'a> {
    /// What it tells the application.
    pub told: News,
    /// How it changes the files, where it is done.
    pub change: FileUpdate<'a>,
}

/// What comes of an entry to an application, over the lists that a portal lends
/// ahead of it. Of n documents, and of n handles that the application's connections
/// have open, it takes about n steps, and of n files about log n.
pub fn foresee<'a>(
    alloc: Global,
    lent: &Lent,
    app: &AppId,
    entry: &'a Entry,
) -> Result<Awaited<'a>, WantOfMemory>
    ensures { IfOk result (λ awaited. (s : State) → Shows lent.now s → Valid s →
        Lawful s entry.now → Awaits app.now s entry.now awaited) }
{
    let connection = connection_of(lent.connections, entry.seat);
    let change = change_awaited(alloc, lent, connection, entry)?;
    match what_is_told(alloc, lent, app, connection, entry, &change) {
        Ok(told) => Ok(Awaited { told, change }),
        Err(error) => Err(error),
    }
}

/// How an entry over this open connection of its seat, or over none, changes the
/// files, where it is done.
fn change_awaited<'a>(
    alloc: Global,
    lent: &Lent,
    connection: Option<&Connection>,
    entry: &'a Entry,
) -> Result<FileUpdate<'a>, WantOfMemory>
    ensures { IfOk result (λ change. (s : State) → Shows lent.now s → Valid s → Lawful s entry.now →
        option_copied connection.entry
        ≡ option_map silent (open_connection s.connections entry.now.seat) →
        Comes s entry.now (change_of change)) }
{
    match &entry.request {
        Request::Node(request) => match mount_of(connection) {
            Some(mount) => update_of(alloc, lent, mount, request, &entry.given),
            None => Ok(FileUpdate::Stay),
        },
        _ => Ok(FileUpdate::Stay),
    }
}

/// What an entry tells the application, where it changes the files so.
fn what_is_told(
    alloc: Global,
    lent: &Lent,
    app: &AppId,
    connection: Option<&Connection>,
    entry: &Entry,
    change: &FileUpdate,
) -> Result<News, WantOfMemory>
    ensures { IfOk result (λ told. (s : State) → Shows lent.now s → Valid s → Lawful s entry.now →
        option_copied connection.entry
        ≡ option_map silent (open_connection s.connections entry.now.seat) →
        Comes s entry.now (change_of change.now) →
        IsTold app.now s entry.now (change_of change.now) told) }
{
    if made_by(connection, &entry.request, app) {
        return Ok(News::Own(own_item(alloc, lent, connection, entry)?));
    }
    match &entry.request {
        Request::Node(_) => Ok(changed(lent, app, alloc, change)),
        _ => Ok(News::Touches(touches(alloc, lent, app, connection, entry)?)),
    }
}

/// What another's change of a file tells the application.
fn changed(lent: &Lent, app: &AppId, alloc: Global, update: &FileUpdate) -> News
    ensures { (s : State) → Shows lent.now s → Valid s → (done : Bool) (after : Held) →
        (done ≡ true → IsThere (change_of update.now) (held_in s)) →
        told_items (change_of update.now) result done after
        ≡ cond done (map item_of (told_of_change (view s app.now) (change_of update.now) after))
        [] }
{
    if is_news(lent, app, update) {
        News::Changed
    } else {
        News::Touches(List::new(alloc))
    }
}

/// Says whether the view of an application is told of a change, where the file is there
/// that changes.
fn is_news(lent: &Lent, app: &AppId, update: &FileUpdate) -> bool
    ensures { (s : State) → Shows lent.now s → Valid s →
        IsThere (change_of update.now) (held_in s) →
        result ≡ is_news_to (view s app.now) (change_of update.now) }
{
    match update {
        FileUpdate::Write { name, content, .. } => !content.is_empty() && has_file(lent, app, name),
        FileUpdate::Resize { name, .. } => has_file(lent, app, name),
        FileUpdate::Create { path, .. } => tells_of(lent, app, path),
        FileUpdate::Turn { name } => tells_of(lent, app, &name.path),
        FileUpdate::Stay | FileUpdate::Freshen { .. } => false,
    }
}

/// Says whether the view of an application has a file that is there: by its name, or
/// since it stands at a path of which the view tells.
fn has_file(lent: &Lent, app: &AppId, name: &FileName) -> bool
    ensures { (s : State) → Shows lent.now s → Valid s → is_held (held_in s) name.now ≡ true →
        result ≡ view_has_file (view s app.now) name.now }
{
    names_file(lent, app, name) || (stands(lent.files, name) && tells_of(lent, app, &name.path))
}

/// Says whether an open handle or a temporary of the application names a file.
fn names_file(lent: &Lent, app: &AppId, name: &FileName) -> bool
    ensures { (s : State) → Shows lent.now s → Valid s →
        result ≡ holds_name (view s app.now) name.now }
{
    names(
        lent.handles,
        lent.numbers,
        lent.temps,
        lent.connections,
        app,
        name,
    )
}

/// Says whether the file of a name is the present one of its path.
fn stands(files: &TreeFiles, name: &FileName) -> bool
    ensures { result ≡ is_present files.now name.now }
{
    match files.at(&name.path) {
        Some(file) => file.generation == name.generation,
        None => false,
    }
}

/// Says whether the view of an application tells what is at a path.
fn tells_of(lent: &Lent, app: &AppId, path: &HostPath) -> bool
    ensures { (s : State) → Shows lent.now s → Valid s →
        result ≡ does_know (view s app.now) path.now }
{
    knows(
        lent.book.documents,
        lent.book.grants,
        lent.handles,
        lent.numbers,
        lent.connections,
        app,
        path,
    )
}

/// What a request of another, which is not on a node, tells the application where
/// it is done.
fn touches(
    alloc: Global,
    lent: &Lent,
    app: &AppId,
    connection: Option<&Connection>,
    entry: &Entry,
) -> Result<List<TraceItem>, WantOfMemory>
    ensures { IfOk result (λ items. (s : State) → Shows lent.now s →
        option_copied connection.entry
        ≡ option_map silent (open_connection s.connections entry.now.seat) →
        is_made_by app.now (open_connection s.connections entry.now.seat) entry.now.request
        ≡ false →
        is_node entry.now.request ≡ false → is_done_answer (reply_at s entry.now).answer ≡ true →
        map item_told items ≡ map item_of
        (request_touch app.now s entry.now.seat entry.now.request entry.now.given)) }
{
    let book = &lent.book;
    match &entry.request {
        Request::Add(add) => match bus_of(connection) {
            Some(bus) => add_touch(alloc, lent, app, bus, add, entry.given.numbers.as_slice()),
            None => Ok(List::new(alloc)),
        },
        Request::Grant(call) => listed(
            alloc,
            grant_touch(alloc, book.documents, book.grants, lent.files, app, call)?,
        ),
        Request::Revoke(call) => listed(
            alloc,
            revoke_touch(book.documents, book.grants, app, call),
        ),
        Request::DeleteDocument { doc } => listed(
            alloc,
            delete_touch(book.documents, book.grants, app, doc.as_slice()),
        ),
        _ => Ok(List::new(alloc)),
    }
}

/// An item, if any, as a list.
fn listed(alloc: Global, item: Option<TraceItem>) -> Result<List<TraceItem>, WantOfMemory>
    ensures { IfOk result (λ items. map item_told items ≡ told_if item) }
{
    let mut items = List::new(alloc);
    if let Some(item) = item {
        items.push(item)?;
    }
    Ok(items)
}

/// What an Add over a bus of another tells the application where it is done.
fn add_touch(
    alloc: Global,
    lent: &Lent,
    app: &AppId,
    bus: &Connection,
    add: &AddRequest,
    numbers: &[DocId],
) -> Result<List<TraceItem>, WantOfMemory>
    ensures { IfOk result (λ items. (s : State) (c : Open) → Shows lent.now s →
        bus.now ≡ silent c → is_app app.now c.who ≡ false →
        is_in_order c.queue add.now ≡ true →
        map item_told items ≡ map item_of (touch_of_add app.now s c add.now numbers.now)) }
{
    if names_app(add, app) {
        return named_touch(alloc, lent, app, bus.queue.as_slice(), add, numbers);
    }
    Ok(List::new(alloc))
}

/// Says whether an Add names the application.
fn names_app(add: &AddRequest, app: &AppId) -> bool
    ensures { result ≡ is_for_app app.now add.now }
{
    let nobody: &[u8] = &[];
    add.app.as_slice() != nobody && add.app.as_slice() == app.as_bytes()
}

/// The same of an Add that names the application, over a bus where these files
/// wait.
fn named_touch(
    alloc: Global,
    lent: &Lent,
    app: &AppId,
    queue: &[HostPath],
    add: &AddRequest,
    numbers: &[DocId],
) -> Result<List<TraceItem>, WantOfMemory>
    ensures { IfOk result (λ items. (s : State) (c : Open) → Shows lent.now s →
        c.queue ≡ queue.now → is_app app.now c.who ≡ false → is_for_app app.now add.now ≡ true →
        is_in_order queue.now add.now ≡ true →
        map item_told items ≡ map item_of (touch_of_add app.now s c add.now numbers.now)) }
{
    match planned(alloc, lent.book.documents, lent.book.grants, queue, add)? {
        None => Ok(List::new(alloc)),
        Some(plan) => {
            let items = add_touches(alloc, lent, app, add, &plan, numbers);
            drop(plan);
            items
        }
    }
}

/// Appends what an entry tells, and lets the files be those behind it; `done`
/// says whether it was done. Where there is no memory nothing is known of either.
pub fn come(
    alloc: Global,
    items: &mut List<TraceItem>,
    files: &mut TreeFiles,
    awaited: Awaited,
    done: bool,
) -> Result<(), WantOfMemory>
    requires { done ≡ true → CanCome (change_of awaited.change) files.old }
    ensures items { OnOk result (map item_told items.new
        ≡ map item_told items.old ++ items_awaited awaited.entry done files.old) }
    ensures files { OnOk result (files.new
        ≡ files_awaited awaited.entry done files.old) }
{
    let Awaited {
        told,
        change: update,
    } = awaited;
    let came = come_with(alloc, items, files, told, &update, done);
    drop(update);
    came
}

/// The same of its parts.
fn come_with(
    alloc: Global,
    items: &mut List<TraceItem>,
    files: &mut TreeFiles,
    told: News,
    update: &FileUpdate,
    done: bool,
) -> Result<(), WantOfMemory>
    requires { done ≡ true → CanCome (change_of update.now) files.old }
    ensures items { OnOk result (map item_told items.new ≡ map item_told items.old
        ++ told_items (change_of update.now) told done
        (cond done (files_after true (change_of update.now) files.old) files.old)) }
    ensures files { OnOk result (files.new
        ≡ cond done (files_after true (change_of update.now) files.old) files.old) }
{
    if done {
        change(alloc, files, update)?;
    }
    push_told(alloc, items, files, told, update, done)
}

/// Appends what an entry tells, where these are the files behind it.
fn push_told(
    alloc: Global,
    items: &mut List<TraceItem>,
    after: &TreeFiles,
    told: News,
    update: &FileUpdate,
    done: bool,
) -> Result<(), WantOfMemory>
    ensures { OnOk result (map item_told items.new ≡ map item_told items.old
        ++ told_items (change_of update.now) told done after.now) }
{
    match told {
        News::Own(item) => items.push(item),
        News::Touches(more) if done => items.append(more),
        News::Changed if done => push_changed(alloc, items, after, update),
        News::Touches(_) | News::Changed => Ok(()),
    }
}

/// Appends what is told of the file that was changed.
fn push_changed(
    alloc: Global,
    items: &mut List<TraceItem>,
    after: &TreeFiles,
    update: &FileUpdate,
) -> Result<(), WantOfMemory>
    ensures { OnOk result (map item_told items.new ≡ map item_told items.old
        ++ map item_of (news_of (change_of update.now) after.now)) }
{
    match file_item(alloc, after, update)? {
        Some(item) => items.push(item),
        None => Ok(()),
    }
}

/// Says whether an answer tells that a request was done.
pub fn is_done(answer: &Answer) -> bool
    ensures { result ≡ is_done_answer answer.now }
{
    !matches!(answer, Answer::Refused(_))
}
