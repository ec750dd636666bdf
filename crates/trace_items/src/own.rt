//! The entries that an application makes, as its trace tells them.

ghost use Rattle.std.specs.Prelude.{◌≡◌, [], cond, false, map, option_copied, option_map, take, IfOk};
ghost use Rattle.app_world.specs.Add.{asked as looks_asked, reused_by, reused_of as reused_of_files, shown_at_path, shown_by_content, shown_to};
ghost use Rattle.app_world.specs.TraceItem as item;
ghost use Rattle.app_world.specs.World.{own_of};
ghost use Rattle.portal_model.specs.declared.state.Connection.{Connection as Open};
ghost use Rattle.portal_model.specs.AddArguments.{document_paths, exports as does_export, paths_shown as paths_of_call, reuses};
ghost use Rattle.portal_model.specs.History.{made_by};
ghost use Rattle.portal_model.specs.Lawful.{Lawful};
ghost use Rattle.portal_model.specs.State.{State, connection_of, is_app};
ghost use Rattle.trace_items.specs.Awaited.{Shows, silent};
ghost use Rattle.trace_items.specs.OwnAdds.{IsPlanned, is_in_order, own_told};
ghost use Rattle.app_trace.specs.Told.{content_told, holding_told, item_told};

use crate::adds::{paths_shown, planned, reused_of};
use crate::lent::{Lent, bus_of};
use add_files::{AddPlan, exports};
use app_trace::contents::{content_at, files_below};
use app_trace::trace::TraceItem;
use app_trace::view::{Content, Holding};
use named_paths::is_app;
use portal_base::list::List;
use portal_base::memory::{Replica, WantOfMemory};
use portal_base::names::{AppId, DocId, HostPath};
use portal_model::entry::{Entry, Fault, Given};
use portal_model::request::{AddRequest, Request};
use portal_model::state::Connection;
use std::alloc::Global;
use tree_files::TreeFiles;

/// Says whether an application makes a request that comes over this open
/// connection of its seat, or over none.
pub fn made_by(connection: Option<&Connection>, request: &Request, app: &AppId) -> bool
    ensures { result ≡ made_by app.now (option_copied connection.entry) request.now }
{
    match connection {
        Some(connection) => is_app(&connection.who, app),
        None => match request {
            Request::Enter { who, .. } => is_app(who, app),
            _ => false,
        },
    }
}

/// The item of an entry that the application makes over this open connection of
/// its seat, or over none.
pub fn own_item(
    alloc: Global,
    lent: &Lent,
    connection: Option<&Connection>,
    entry: &Entry,
) -> Result<TraceItem, WantOfMemory>
    ensures { IfOk result (λ own. (s : State) → Shows lent.now s → Lawful s entry.now →
        option_copied connection.entry
        ≡ option_map silent (connection_of s.connections entry.now.seat)
        → item_told own ≡ item.Own (own_of s entry.now)) }
{
    match &entry.request {
        Request::Add(add) => match bus_of(connection) {
            Some(bus) => own_add(alloc, lent, bus.queue.as_slice(), add, entry),
            None => item_with(alloc, entry, List::new(alloc), List::new(alloc)),
        },
        _ => item_with(alloc, entry, List::new(alloc), List::new(alloc)),
    }
}

/// The item of an Add over a bus where these files wait.
fn own_add(
    alloc: Global,
    lent: &Lent,
    queue: &[HostPath],
    add: &AddRequest,
    entry: &Entry,
) -> Result<TraceItem, WantOfMemory>
    ensures { IfOk result (λ item. (s : State) (c : Open) → Shows lent.now s → c.queue ≡ queue.now →
        (is_in_order queue.now add.now ≡ false → looks_asked entry.now.given ≡ 0) →
        item_told item ≡ own_told entry.now (shown_to s c add.now entry.now.given)
        (reused_by s c add.now)) }
{
    match planned(alloc, lent.book.documents, lent.book.grants, queue, add)? {
        None => item_with(alloc, entry, List::new(alloc), List::new(alloc)),
        Some(plan) => {
            let item = own_planned(alloc, lent, queue, add, entry, &plan);
            drop(plan);
            item
        }
    }
}

/// The same where the call's arguments are in order.
fn own_planned(
    alloc: Global,
    lent: &Lent,
    queue: &[HostPath],
    add: &AddRequest,
    entry: &Entry,
    plan: &AddPlan,
) -> Result<TraceItem, WantOfMemory>
    requires { IsPlanned queue.now add.now plan.now }
    ensures { IfOk result (λ item. item_told item ≡ own_told entry.now
        (map (shown_at_path lent.now.files.now.present (does_export add.now))
        (take (looks_asked entry.now.given) (paths_of_call queue.now add.now)))
        (cond (reuses add.now)
        (reused_of_files lent.now.book.documents.now.live add.now
        (document_paths queue.now add.now))
        [])) }
{
    let shown = shown(alloc, lent.files, queue, add, plan, asked(&entry.given))?;
    let reused = reused_of(alloc, lent.book.documents, add, plan)?;
    item_with(alloc, entry, shown, reused)
}

/// How many paths the tree was asked for, that of a failed call included.
fn asked(given: &Given) -> usize
    ensures { result ≡ looks_asked given.entry.now }
{
    let looks = given.looks.as_slice();
    let failed = matches!(given.fault, Fault::Tree);
    looks.len() + usize::from(failed)
}

/// What there is at the paths that the tree was asked for, so many.
fn shown(
    alloc: Global,
    files: &TreeFiles,
    queue: &[HostPath],
    add: &AddRequest,
    plan: &AddPlan,
    asked: usize,
) -> Result<List<Holding>, WantOfMemory>
    requires { IsPlanned queue.now add.now plan.now }
    ensures { IfOk result (λ shown. map holding_told shown
        ≡ map (shown_at_path files.now.present (does_export add.now))
        (take asked (paths_of_call queue.now add.now))) }
{
    let paths = paths_shown(alloc, queue, add, plan.items.as_slice())?;
    let shown = holdings(alloc, files, first(paths.as_slice(), asked), exports(add));
    drop(paths);
    shown
}

/// The first paths, so many, or all where there are fewer.
fn first(paths: &[HostPath], count: usize) -> &[HostPath]
    ensures { result.now ≡ take count paths.now }
{
    paths.split_at(count.min(paths.len())).0
}

/// What there is at paths, where a call exports folders or doesn't.
fn holdings(
    alloc: Global,
    files: &TreeFiles,
    paths: &[HostPath],
    exported: bool,
) -> Result<List<Holding>, WantOfMemory>
    ensures { IfOk result (λ shown. map holding_told shown
        ≡ map (shown_at_path files.now.present exported) paths.now) }
{
    let mut shown = List::new(alloc);
    for path in paths {
        shown.push(holding(alloc, files, path, exported)?)?;
    }
    Ok(shown)
}

/// What is at a path, and of a folder that is exported all that is at or below it.
fn holding(
    alloc: Global,
    files: &TreeFiles,
    path: &HostPath,
    exported: bool,
) -> Result<Holding, WantOfMemory>
    ensures { IfOk result
        (λ shown. holding_told shown ≡ shown_at_path files.now.present exported path.now) }
{
    let content = content_at(alloc, files, path)?;
    holding_with(alloc, files, path, exported, content)
}

/// The same where this is what is at the path.
fn holding_with(
    alloc: Global,
    files: &TreeFiles,
    path: &HostPath,
    exported: bool,
    content: Content,
) -> Result<Holding, WantOfMemory>
    ensures { IfOk result (λ shown. holding_told shown
        ≡ shown_by_content files.now.present path.now exported (content_told content)) }
{
    match content {
        Content::Folder if exported => Ok(Holding::Below {
            files: files_below(alloc, files, path)?,
        }),
        content => Ok(Holding::Alone { content }),
    }
}

/// The item of an entry. Of an Add, `shown` is what there is at each path that the tree
/// was asked for, and `reused` the document that was there for each file; of any
/// other request they are empty.
fn item_with(
    alloc: Global,
    entry: &Entry,
    shown: List<Holding>,
    reused: List<Option<DocId>>,
) -> Result<TraceItem, WantOfMemory>
    ensures { IfOk result
        (λ item. item_told item ≡ own_told entry.now (map holding_told shown) reused) }
{
    let numbers = List::copied(alloc, entry.given.numbers.as_slice())?;
    let looks = entry.given.looks.len() as u64;
    Ok(TraceItem::Own {
        seat: entry.seat,
        request: entry.request.replica(alloc)?,
        now: entry.given.now,
        numbers,
        shown,
        reused,
        looks,
        full: entry.given.full,
        fault: entry.given.fault,
        generation: entry.given.generation,
    })
}
