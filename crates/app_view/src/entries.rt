//! The entries of a folder.

ghost use Rattle.std.specs.Prelude.{◌≡◌, ◌<◌, ◌^◌, IfOk, None, true, false};
ghost use Rattle.portal_model.specs.Place.{by_app_node, file_node, folder_node, has_views, node_of, numbers_seen, root_node, sight_of_place};
ghost use Rattle.portal_model.specs.OpenDir.{with_dots, parent_of_root, parent_of_exported, names_in_root, names_of_children, names_of_look, names_of_views, entry_of_child};
ghost use Rattle.portal_base.specs.Names.{name_of};
ghost use Rattle.portal_model.specs.State.{State};
ghost use Rattle.app_view.specs.Books.{Lends, who_is};
ghost use Rattle.app_view.specs.Entries.{AreOpened};
ghost use Rattle.app_view.specs.Places.{IsFolder};

use crate::book::{OWN_VIEW, Subject, ViewBook, subject_of};
use crate::nodes::{by_app_node, file_node, folder_node, root_node};
use crate::order::{folder_entry, names_of_views, numbers_seen};
use crate::sight::seen_document;
use document_records::{Applications, Document};
use portal_base::files::{ChildName, Look};
use portal_base::list::List;
use portal_base::memory::{Replica, WantOfMemory};
use portal_base::names::{DocId, HostPath};
use portal_base::who::Who;
use portal_model::place::Place;
use portal_model::reply::DirName;
use std::alloc::Global;

/// The name of the folder of all views.
const BY_APP: &[u8] = b"by-app";

/// The entries of a folder that the caller sees, itself and its parent first,
/// where a look at a document's path shows `look`; other folders need no look.
///
/// A root has the documents that the view's subject sees, by identifier, and the host's
/// own root the folder of all views behind them. That one has the views of all numbered
/// applications, in byte order of their names. The folder of a document has the
/// document's file where the tree has one; what a connection has made beside it isn't
/// among these. No document is looked at in which the subject has no right: n documents
/// or applications take about n log m steps, of m that there are.
pub fn listing(
    alloc: Global,
    book: &ViewBook,
    who: &Who,
    place: Place,
    look: Look,
) -> Result<List<DirName>, WantOfMemory>
    requires { (s : State) → Lends book.now s →
        IsFolder (sight_of_place s who.now None None place) }
    ensures { IfOk result (λ names. (s : State) → Lends book.now s →
        AreOpened (sight_of_place s who.now None None place) (node_of place) look names) }
{
    match place {
        Place::Root { view } => match subject_of(book, who, view) {
            Some(subject) => root(alloc, book, view, subject, has_views(who, view)),
            None => unreachable!(),
        },
        Place::ByApp => views(alloc, book.applications),
        Place::Folder { view, id } => match seen_document(book, who, view, id) {
            Some(seen) => document_folder(alloc, view, seen.document, look),
            None => unreachable!(),
        },
        Place::File { .. } => unreachable!(),
        Place::Named { .. } => unreachable!(),
        Place::Temporary { .. } => unreachable!(),
    }
}

/// The number of the node of what has none of its own yet.
const UNNAMED_NODE: u64 = 0xffff_ffff;

/// The entries of a folder at a path at or below a document that is a folder: itself,
/// by its node, and its parent first, which of the exported folder is the document's own
/// folder, and of one below it is told without a number; then the names that the tree
/// listed in it, which have no nodes before they are named. Of n names it takes about n
/// steps, and memory for them.
pub fn listing_below(
    alloc: Global,
    view: u32,
    document: &Document,
    path: &HostPath,
    node: u64,
    children: &[ChildName],
) -> Result<List<DirName>, WantOfMemory>
    requires { view < 2 ^ 28 }
    ensures { IfOk result (λ names. names
        ≡ with_dots node (parent_of_exported view document.now path.now)
        (names_of_children children.now)) }
{
    let parent = if *path == document.path {
        folder_node(view, document.id)
    } else {
        UNNAMED_NODE
    };
    let names = names_of_children(alloc, children)?;
    with_dots(alloc, node, parent, names)
}

/// The entries of the names in such a folder.
fn names_of_children(alloc: Global, children: &[ChildName]) -> Result<List<DirName>, WantOfMemory>
    ensures { IfOk result (λ names. names ≡ names_of_children children.now) }
{
    let mut names = List::new(alloc);
    for child in children {
        names.push(entry_of_child(alloc, child)?)?;
    }
    Ok(names)
}

/// The entry of a name in such a folder.
fn entry_of_child(alloc: Global, child: &ChildName) -> Result<DirName, WantOfMemory>
    ensures { IfOk result (λ entry. entry ≡ entry_of_child child.now) }
{
    Ok(DirName {
        node: UNNAMED_NODE,
        name: child.name.replica(alloc)?,
        folder: child.folder,
    })
}

/// Says whether the folder of all views stands in a caller's root of a view.
fn has_views(who: &Who, view: u32) -> bool
    ensures { result ≡ has_views who.now view }
{
    match who {
        Who::Host => view == OWN_VIEW,
        Who::App(_) => false,
    }
}

/// The entries of the root of a view.
fn root(
    alloc: Global,
    book: &ViewBook,
    view: u32,
    subject: Subject,
    has_views: bool,
) -> Result<List<DirName>, WantOfMemory>
    requires { view < 2 ^ 28 }
    ensures { IfOk result (λ names. names ≡ with_dots (root_node view) (parent_of_root view)
        (names_in_root view (numbers_seen book.now.grants.now (who_is subject.entry)
        book.now.documents.now.live) has_views)) }
{
    let numbers = numbers_seen(alloc, book, subject)?;
    let names = names_in_root(alloc, view, &numbers, has_views)?;
    with_dots(alloc, root_node(view), parent_of_root(view), names)
}

/// The node of the folder that the root of a view stands in.
fn parent_of_root(view: u32) -> u64
    ensures { result ≡ parent_of_root view }
{
    if view == OWN_VIEW {
        root_node(OWN_VIEW)
    } else {
        by_app_node()
    }
}

/// What stands in the root of a view, in which the documents of these numbers
/// are seen.
fn names_in_root(
    alloc: Global,
    view: u32,
    numbers: &[u32],
    has_views: bool,
) -> Result<List<DirName>, WantOfMemory>
    requires { view < 2 ^ 28 }
    ensures { IfOk result (λ names. names ≡ names_in_root view numbers.now has_views) }
{
    let mut names = List::new(alloc);
    for number in numbers {
        let id = DocId { number: *number };
        names.push(folder_entry(alloc, folder_node(view, id), id.text().as_slice())?)?;
    }
    // It stands behind them all, also behind those that begin with `c` to `f`.
    if has_views {
        names.push(folder_entry(alloc, by_app_node(), BY_APP)?)?;
    }
    Ok(names)
}

/// The entries of the folder of all views.
fn views(alloc: Global, applications: &Applications) -> Result<List<DirName>, WantOfMemory>
    ensures { IfOk result (λ names. names
        ≡ with_dots by_app_node (root_node 0) (names_of_views applications.now)) }
{
    let names = names_of_views(alloc, applications)?;
    with_dots(alloc, by_app_node(), root_node(OWN_VIEW), names)
}

/// The entries of the folder of a document.
fn document_folder(
    alloc: Global,
    view: u32,
    document: &Document,
    look: Look,
) -> Result<List<DirName>, WantOfMemory>
    requires { view < 2 ^ 28 }
    ensures { IfOk result (λ names. names
        ≡ with_dots (folder_node view document.now.id.number) (root_node view)
        (names_of_look (file_node view document.now.id.number) document.now look)) }
{
    let names = names_of_look(alloc, file_node(view, document.id), document, look)?;
    with_dots(
        alloc,
        folder_node(view, document.id),
        root_node(view),
        names,
    )
}

/// The file of a document, where a look shows one, or the folder that it is.
fn names_of_look(
    alloc: Global,
    node: u64,
    document: &Document,
    look: Look,
) -> Result<List<DirName>, WantOfMemory>
    ensures { IfOk result (λ names. names ≡ names_of_look node document.now look) }
{
    let mut names = List::new(alloc);
    match look {
        Look::File { .. } => names.push(own_entry(alloc, node, document, false)?)?,
        Look::Folder if document.folder => names.push(own_entry(alloc, node, document, true)?)?,
        Look::Folder | Look::Missing => {}
    }
    Ok(names)
}

/// The entry of a document's own name.
fn own_entry(
    alloc: Global,
    node: u64,
    document: &Document,
    folder: bool,
) -> Result<DirName, WantOfMemory>
    ensures { IfOk result (λ entry. entry
        ≡ record { node = node; name = name_of document.now.path; folder = folder }) }
{
    Ok(DirName {
        node,
        name: List::copied(alloc, document.path.name())?,
        folder,
    })
}

/// Entries behind those of the folder itself and of the one that it stands in.
fn with_dots(
    alloc: Global,
    node: u64,
    parent: u64,
    names: List<DirName>,
) -> Result<List<DirName>, WantOfMemory>
    ensures { IfOk result (λ all. all ≡ with_dots node parent names) }
{
    let mut all = List::new(alloc);
    all.push(folder_entry(alloc, node, b".")?)?;
    all.push(folder_entry(alloc, parent, b"..")?)?;
    all.append(names)?;
    Ok(all)
}
