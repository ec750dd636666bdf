//! What a folder lists, in its order: documents by identifier, which is the order
//! of their numbers, and applications by name.

ghost use Rattle.std.specs.Prelude.{◌≡◌, ◌<◌, ◌^◌, ◌++◌, IfOk, OnOk};
ghost use Rattle.std.specs.Cmp.Lexicographic.{slice_cmp};
ghost use Rattle.std.specs.List.Sorted.{IsPermutation, IsSortedBy};
ghost use Rattle.std.specs.Ordering.{nat_cmp};
ghost use Rattle.portal_base.specs.declared.who.Who.TheVariants as Who;
ghost use Rattle.portal_model.specs.Applications.{name_of_number};
ghost use Rattle.portal_model.specs.OpenDir.{folder_entry, names_of_views, views_from};
ghost use Rattle.portal_model.specs.Place.{numbers_seen};
ghost use Rattle.app_view.specs.Books.{who_is};
ghost use Rattle.app_view.specs.Entries.{entry_less, is_readable, view_of};
ghost use Rattle.document_records.specs.Applications.{AreNumbered};

use crate::book::{Subject, ViewBook, readable};
use crate::nodes::root_node;
use document_records::Applications;
use portal_base::list::List;
use portal_base::memory::WantOfMemory;
use portal_base::names::{AppId, DocId};
use portal_model::reply::DirName;
use std::alloc::Global;
use std::cmp::Ordering;

/// The numbers of the documents that a subject sees, in rising order.
pub(crate) fn numbers_seen(
    alloc: Global,
    book: &ViewBook,
    subject: Subject,
) -> Result<Vec<u32>, WantOfMemory>
    ensures { IfOk result (λ numbers. numbers.items ≡ numbers_seen
        book.now.grants.now (who_is subject.entry) book.now.documents.now.live) }
{
    match subject {
        Subject::Host => numbers_live(alloc, book),
        Subject::App(app) => numbers_readable(alloc, book, app),
    }
}

/// The numbers of all documents, in rising order.
fn numbers_live(alloc: Global, book: &ViewBook) -> Result<Vec<u32>, WantOfMemory>
    ensures { IfOk result (λ numbers. numbers.items
        ≡ numbers_seen book.now.grants.now Who.Host book.now.documents.now.live) }
{
    let mut numbers = Vec::new(alloc);
    for document in book.documents.live() {
        numbers.push(document.id.number)?;
    }
    // By number, which is the byte order of identifiers.
    numbers.sort_unstable();
    Ok(numbers)
}

/// The numbers of the documents that an application may read, in rising order.
fn numbers_readable(alloc: Global, book: &ViewBook, app: &AppId) -> Result<Vec<u32>, WantOfMemory>
    ensures { IfOk result (λ numbers. numbers.items
        ≡ numbers_seen book.now.grants.now (Who.App app.now) book.now.documents.now.live) }
{
    let ids = book.grants.documents_of(app)?;
    let mut numbers = Vec::new(alloc);
    for id in ids.as_slice() {
        if is_readable(book, app, *id) {
            numbers.push(id.number)?;
        }
    }
    Ok(numbers)
}

/// Says whether the document of an identifier is live, and an application may
/// read it.
fn is_readable(book: &ViewBook, app: &AppId, id: DocId) -> bool
    ensures { result ≡ is_readable book.now.grants.now (Who.App app.now)
        book.now.documents.now.live id }
{
    readable(book, Subject::App(app), id).is_some()
}

/// The views of all applications, in byte order of their names.
pub(crate) fn names_of_views(
    alloc: Global,
    applications: &Applications,
) -> Result<List<DirName>, WantOfMemory>
    ensures { IfOk result (λ names. names ≡ names_of_views applications.now) }
{
    let views = views(alloc, applications)?;
    Ok(by_name(views))
}

/// The views of all applications, in order of their numbers.
fn views(alloc: Global, applications: &Applications) -> Result<List<DirName>, WantOfMemory>
    ensures views { IfOk result (λ views. views ≡ views_from 1 applications.now) }
    ensures known { AreNumbered applications.now }
{
    let mut views = List::new(alloc);
    // Each application that has a number is listed, whatever it may do today.
    for index in 0..applications.len() {
        push_view(alloc, &mut views, applications, index + 1)?;
    }
    Ok(views)
}

/// Adds the view of the application of a number.
fn push_view(
    alloc: Global,
    views: &mut List<DirName>,
    applications: &Applications,
    view: u32,
) -> Result<(), WantOfMemory>
    requires { view < 2 ^ 28 }
    ensures { OnOk result (views.new
        ≡ views.old ++ view_of view (name_of_number applications.now view)) }
{
    match applications.name(view) {
        Some(app) => views.push(folder_entry(alloc, root_node(view), app.as_bytes())?),
        None => Ok(()),
    }
}

/// A folder that stands in another.
pub(crate) fn folder_entry(alloc: Global, node: u64, name: &[u8]) -> Result<DirName, WantOfMemory>
    ensures { IfOk result (λ entry. entry ≡ folder_entry node name.now) }
{
    Ok(DirName {
        node,
        name: List::copied(alloc, name)?,
        folder: true,
    })
}

/// Entries in byte order of their names.
fn by_name(entries: List<DirName>) -> List<DirName>
    ensures same { IsPermutation entries result }
    ensures order { IsSortedBy entry_less result }
{
    let mut entries = entries.into_vec();
    entries.sort_unstable_by(|first, second| name_order(first, second));
    List::from_vec(entries)
}

/// Which of two entries has its place first.
fn name_order(first: &DirName, second: &DirName) -> Ordering
    ensures { result ≡ slice_cmp nat_cmp first.now.name second.now.name }
{
    first.name.as_slice().cmp(second.name.as_slice())
}
