//! What a caller sees.

ghost use Rattle.std.specs.Prelude.{◌≡◌, ℕ, ◌<◌, ◌^◌, IfSome, List, OnSome, Option, is_some, option_copied, option_map, true};
ghost use Rattle.portal_base.specs.declared.files.FileName.{FileName as FileNameNow};
ghost use Rattle.portal_model.specs.declared.naming.Naming.{Naming as NamingNow};
ghost use Rattle.portal_model.specs.declared.place.Place.TheVariants as Place;
ghost use Rattle.portal_model.specs.declared.temporary.Temp.{Temp as TempNow};
ghost use Rattle.portal_model.specs.Place.{sight_below, sight_of_document, sight_of_folder, sight_of_place, sight_of_temp};
ghost use Rattle.portal_model.specs.State.{State, document_of};
ghost use Rattle.app_view.specs.Books.{Lends, who_is};
ghost use Rattle.app_view.specs.Places.{IsFolder, is_folder_place, place_seen};
ghost use Rattle.app_view.specs.Sights.{below_sight, file_sight, folder_sight, name_sight, path_sight, temp_sight};

use crate::book::{Subject, ViewBook, may_write, readable, subject_of};
use crate::nodes::place_of;
use document_records::Document;
use portal_base::files::FileName;
use portal_base::names::{DocId, HostPath};
use portal_base::who::Who;
use portal_model::naming::Naming;
use portal_model::place::Place;
use portal_model::temporary::Temp;

/// The place that a node's number names; `None` exactly where the caller
/// doesn't see it. Of n documents it takes about log n steps.
///
/// The caller sees the root of its own view, and the folder of each document in which
/// the view's subject has the right to read, and in it the file or the folder that the
/// document is; the host sees the folder of all views, and that of each numbered
/// application, too. `naming` is what the connection that asks named by the number in the
/// node below a folder that is a document, and `temp` its temporary of that number; each is
/// passed over at the nodes of other kinds. It is seen in its own view, by whoever may read
/// its document. Whether the tree has something there is not looked at.
pub fn resolve(
    book: &ViewBook,
    who: &Who,
    node: u64,
    naming: Option<&Naming>,
    temp: Option<&Temp>,
) -> Option<Place>
    ensures seen { (s : State) → Lends book.now s → result
        ≡ place_seen s who.now (option_copied naming.entry) (option_copied temp.entry) node }
    ensures folder { IfSome result (λ place. is_folder_place place ≡ true →
        (s : State) → Lends book.now s → IsFolder (sight_of_place s who.now
        (option_copied naming.entry) (option_copied temp.entry) place)) }
{
    let place = place_of(node)?;
    if is_seen(book, who, place, naming, temp) {
        Some(place)
    } else {
        None
    }
}

/// Says whether a place is a folder, whoever sees it and whatever the tree has.
pub fn is_folder(place: Place) -> bool
    ensures { result ≡ is_folder_place place }
{
    match place {
        Place::Root { .. } | Place::ByApp | Place::Folder { .. } => true,
        // Of a document that is a folder, and below it, a look tells.
        Place::File { .. } | Place::Named { .. } => false,
        Place::Temporary { .. } => false,
    }
}

/// Says whether a caller sees a place.
fn is_seen(
    book: &ViewBook,
    who: &Who,
    place: Place,
    naming: Option<&Naming>,
    temp: Option<&Temp>,
) -> bool
    ensures { (s : State) → Lends book.now s → result ≡ is_some (sight_of_place s who.now
        (option_copied naming.entry) (option_copied temp.entry) place) }
{
    match place {
        Place::Root { view } => subject_of(book, who, view).is_some(),
        Place::ByApp => *who == Who::Host,
        // A document that may not be read isn't seen: who may not read isn't told whether it is
        // there.
        Place::Folder { view, id } => seen_document(book, who, view, id).is_some(),
        Place::File { view, id } => seen_document(book, who, view, id).is_some(),
        Place::Named { view, .. } => seen_naming(book, who, view, naming).is_some(),
        Place::Temporary { view, .. } => seen_temp(book, who, view, temp).is_some(),
    }
}

/// A document that a caller sees.
#[derive(Clone, Copy)]
pub struct SeenDocument<'a> {
    /// The document.
    pub document: &'a Document,
    /// Whether the view's subject may write its file.
    pub may_write: bool,
}

/// What a caller sees at the folder and at the file of a document, in a view;
/// `None` exactly where it sees nothing there.
pub fn seen_document<'a>(
    book: &ViewBook<'a>,
    who: &Who,
    view: u32,
    id: DocId,
) -> Option<SeenDocument<'a>>
    ensures folder { (s : State) (naming : Option NamingNow) (temp : Option TempNow) →
        Lends book.now s → sight_of_place s who.now naming temp (Place.Folder view id)
        ≡ option_map (folder_sight view) result }
    ensures file { (s : State) (naming : Option NamingNow) (temp : Option TempNow) →
        Lends book.now s → sight_of_place s who.now naming temp (Place.File view id)
        ≡ option_map (file_sight view) result }
    ensures number { IfSome result (λ seen. seen.document.now.id.number ≡ id.number) }
    ensures small { OnSome result (view < 2 ^ 28) }
{
    seen_by(book, subject_of(book, who, view)?, id)
}

/// What lies at or below a folder that is a document, as a caller sees it.
#[derive(Clone, Copy)]
pub struct SeenBelow<'a> {
    /// The document, as it is seen.
    pub seen: SeenDocument<'a>,
    /// The path on the host.
    pub path: &'a HostPath,
}

/// What a caller sees at what its connection named below a folder that is a document,
/// in a view; `None` exactly where it sees nothing there.
pub fn seen_naming<'a>(
    book: &ViewBook<'a>,
    who: &Who,
    view: u32,
    naming: Option<&'a Naming>,
) -> Option<SeenBelow<'a>>
    ensures below { (k : ℕ) (s : State) (temp : Option TempNow) → Lends book.now s →
        sight_of_place s who.now (option_copied naming.entry) temp (Place.Named view k)
        ≡ option_map (below_sight view) result }
    ensures small { OnSome result (view < 2 ^ 28) }
{
    let naming = naming?;
    if naming.view != view {
        return None;
    }
    let seen = seen_by(book, subject_of(book, who, view)?, naming.document)?;
    Some(SeenBelow {
        seen,
        path: &naming.path,
    })
}

/// A temporary in a document's folder, as a caller sees it.
#[derive(Clone, Copy)]
pub struct SeenTemp<'a> {
    /// The document, as it is seen.
    pub seen: SeenDocument<'a>,
    /// The temporary's file.
    pub file: &'a FileName,
}

/// What a caller sees at a temporary of its connection, in a view; `None` exactly where
/// it sees nothing there.
pub fn seen_temp<'a>(
    book: &ViewBook<'a>,
    who: &Who,
    view: u32,
    temp: Option<&'a Temp>,
) -> Option<SeenTemp<'a>>
    ensures temp { (k : ℕ) (s : State) (naming : Option NamingNow) → Lends book.now s →
        sight_of_place s who.now naming (option_copied temp.entry) (Place.Temporary view k)
        ≡ option_map temp_sight result }
    ensures small { OnSome result (view < 2 ^ 28) }
{
    let temp = temp?;
    if temp.view != view {
        return None;
    }
    let seen = seen_by(book, subject_of(book, who, view)?, temp.document)?;
    Some(SeenTemp {
        seen,
        file: &temp.file,
    })
}

/// What the subject of a view sees of a document.
fn seen_by<'a>(book: &ViewBook<'a>, subject: Subject, id: DocId) -> Option<SeenDocument<'a>>
    ensures folder { (view : ℕ) → option_map (folder_sight view) result
        ≡ sight_of_folder view book.now.grants.now (who_is subject.entry)
        (document_of book.now.documents.now.live id.number) }
    ensures file { (view : ℕ) → option_map (file_sight view) result
        ≡ sight_of_document view book.now.grants.now (who_is subject.entry)
        (document_of book.now.documents.now.live id.number) }
    ensures below { (view : ℕ) (path : List ℕ) → option_map (path_sight view path) result
        ≡ sight_below view book.now.grants.now (who_is subject.entry) path
        (document_of book.now.documents.now.live id.number) }
    ensures temp { (file : FileNameNow) → option_map (name_sight file) result
        ≡ sight_of_temp book.now.grants.now (who_is subject.entry) file
        (document_of book.now.documents.now.live id.number) }
    ensures number { IfSome result (λ seen. seen.document.now.id.number ≡ id.number) }
{
    let document = readable(book, subject, id)?;
    Some(SeenDocument {
        document,
        may_write: may_write(book.grants, subject, document.id),
    })
}
