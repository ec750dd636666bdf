//! FUSE_LOOKUP: a name in a folder.

ghost use Rattle.std.specs.Prelude.{◌≡◌, ◌<◌, ◌^◌, ◌&&◌, ◌+◌, ◌≤◌, IfOk, IfSome, List, OnErr, Option, Some, false, true, option_map, None, IsOk};
ghost use Rattle.std.specs.List.{list_all};
ghost use Rattle.host_tree.specs.Trees.{TreeIs};
ghost use Rattle.portal_base.specs.Names.{is_same, name_of};
ghost use Rattle.portal_model.specs.declared.naming.Naming.{Naming as NamingNow};
ghost use Rattle.portal_model.specs.declared.state.Document.{Document as DocumentNow};
ghost use Rattle.portal_model.specs.declared.request.NodeOp.TheVariants as NodeOp;
ghost use Rattle.portal_model.specs.declared.temporary.OwnTemp.{OwnTemp as OwnTempNow};
ghost use Rattle.portal_model.specs.declared.temporary.Temp.{Temp as TempNow};
ghost use Rattle.portal_model.specs.Errno.{enotdir};
ghost use Rattle.portal_model.specs.Lookup.{by_app, entry_of_file, folder_in_root, found_document, found_folder, found_own, lookup, lookup_in, named_in_root, named_in_views};
ghost use Rattle.portal_model.specs.NodeVerdict.{at_file, at_name, by_place, errs_on_file, is_too_long, no_file};
ghost use Rattle.portal_model.specs.Walk.{AtPath, Looks};
ghost use Rattle.portal_model.specs.Place.{FolderOf, folder_node, has_views, numbers_seen, place_of};
ghost use Rattle.portal_model.specs.SeatNames.{found_temp};
ghost use Rattle.portal_model.specs.State.{State};
ghost use Rattle.portal_model.specs.Valid.{has_identifier};
ghost use Rattle.app_view.specs.Books.{Lends, who_is};
ghost use Rattle.node_looks.specs.Names.{where_seen};
ghost use Rattle.node_looks.specs.OwnFiles.{HasFound, IsFoundAt, IsFoundOwn};
ghost use Rattle.node_looks.specs.Served.{TellsWhere};
ghost use Rattle.node_looks.specs.Sights.{is_below, sees, sight_of, view_of};
ghost use Rattle.node_looks.specs.Walks.{ComesToBehind, ComesToLook, Follows};

use crate::asked::{Asked, done, look_of_attr, refusal, refusal_on_file, refused, told};
use crate::attributes::{attr_of_file, attr_of_folder};
use crate::names::{id_named, number_named};
use crate::rooms::LookRooms;
use crate::served::NodeDone;
use crate::sight::SeenPlace;
use app_view::{SeenDocument, Subject, ViewBook, may_read, node_of};
use document_records::{Applications, Document};
use host_tree::{HostTree, LookAnswer};
use portal_base::files::{FileName, Look};
use portal_base::memory::WantOfMemory;
use portal_base::names::{DocId, HostPath};
use portal_base::who::Who;
use portal_model::errno::{EIO, ENAMETOOLONG, ENOENT, ENOTDIR};
use portal_model::place::Place;
use portal_model::reply::{Answer, NodeAnswer};
use portal_model::request::NodeRequest;
use std::alloc::Global;

/// The greatest length of a name, in bytes.
const NAME_LIMIT: usize = 255;
/// The name of the folder of all views.
const BY_APP: &[u8] = b"by-app";

/// A temporary that the connection which asks has under a name in a document's folder.
#[derive(Clone, Copy)]
pub struct OwnFile<'a> {
    /// Its number on the connection.
    pub k: u32,
    /// Its file.
    pub file: &'a FileName,
}

/// Answers a caller's LOOKUP of a name in a folder.
///
/// A root has the folders of the documents that are seen in it, by identifier,
/// and the host's own root the folder of all views; that one has the views of the
/// numbered applications, by name; a document's folder has the document's file, or the
/// folder that it is, and the temporaries of the connection, for which one look at the
/// tree is taken. `place` is what the caller sees at the node, and doesn't lie at or below
/// a document that is a folder: names there are numbered. `own` is the temporary of the
/// name, where `place` is a document's folder. Of n documents or applications it takes
/// about n steps, and no memory but the room for that look, for which one of `rooms`
/// serves where there is none.
pub fn lookup<T: HostTree>(
    alloc: Global,
    rooms: &mut LookRooms,
    book: &ViewBook,
    tree: &mut T,
    who: &Who,
    request: &NodeRequest,
    place: Option<SeenPlace>,
    own: Option<OwnFile>,
    name: &[u8],
) -> Result<NodeDone, WantOfMemory>
    requires plain { IfSome place (λ seen. is_below seen ≡ false) }
    requires small { IfSome place (λ seen. view_of seen < 2 ^ 28) }
    ensures ok { (naming : Option NamingNow) (temp : Option TempNow) →
        ((s : State) → Lends book.now s → place_of s who.now naming temp request.now.node
        ≡ option_map (sight_of book.now who.now) place.entry) →
        request.now.op ≡ NodeOp.Lookup name.now → IfOk result (λ done.
        TellsWhere (HasFound request.now.node naming temp place.entry own.entry name.now)
        book.now who.now request.now (T.is tree.old) done (T.is tree.new)) }
    ensures unclocked { IfOk result (λ done. done.now ≡ None) }
    ensures err { OnErr result (tree.new ≡ tree.old) }
    ensures reserved { 0 < rooms.old → IsOk result }
    ensures rooms { rooms.old ≤ rooms.new + 1 }
{
    let room = rooms.take(alloc)?;
    let asked = found(book, tree, who, request, place, own, name);
    Ok(done(room, asked))
}

/// The answer.
fn found<T: HostTree>(
    book: &ViewBook,
    tree: &mut T,
    who: &Who,
    request: &NodeRequest,
    place: Option<SeenPlace>,
    own: Option<OwnFile>,
    name: &[u8],
) -> Asked
    requires plain { IfSome place (λ seen. is_below seen ≡ false) }
    requires small { IfSome place (λ seen. view_of seen < 2 ^ 28) }
    ensures { (namings : List NamingNow) (temps : List OwnTempNow) →
        list_all has_identifier book.now.documents.now.live ≡ true →
        IsFoundAt place.entry own.entry name.now temps →
        Follows (lookup request.now namings temps name.now
        (option_map (sight_of book.now who.now) place.entry)) (T.is tree.old) result
        (T.is tree.new) }
{
    if is_too_long(name) {
        return refused(ENAMETOOLONG);
    }
    match place {
        None => refused(ENOENT),
        Some(place) => in_place(book, tree, who, request, place, own, name),
    }
}

/// Says whether a name is longer than any.
pub fn is_too_long(name: &[u8]) -> bool
    ensures { result ≡ is_too_long name.now }
{
    name.len() > NAME_LIMIT
}

/// The answer at a place that the caller sees.
fn in_place<T: HostTree>(
    book: &ViewBook,
    tree: &mut T,
    who: &Who,
    request: &NodeRequest,
    place: SeenPlace,
    own: Option<OwnFile>,
    name: &[u8],
) -> Asked
    requires view { view_of place < 2 ^ 28 }
    requires plain { is_below place ≡ false }
    ensures { (namings : List NamingNow) (temps : List OwnTempNow) →
        list_all has_identifier book.now.documents.now.live ≡ true →
        IsFoundAt (Some place.entry) own.entry name.now temps →
        Follows (by_place (Some (sight_of book.now who.now place.entry)) (no_file enotdir)
        (lookup_in request.now namings temps name.now)) (T.is tree.old) result
        (T.is tree.new) }
{
    match place {
        // A request on a file's node takes its look ahead of every check of what is there.
        SeenPlace::File { seen, .. } => in_file(tree, &seen.document.path),
        SeenPlace::Below { .. } => unreachable!(),
        SeenPlace::Temporary { temp, .. } => in_named(tree, temp.file),
        SeenPlace::Folder { view, seen } => { in_folder(tree, request, view, seen, own, name) }
        SeenPlace::Root { view, subject } => {
            found_folder(request, named_in_root(book, who, view, subject, name))
        }
        SeenPlace::Views => found_folder(request, named_in_views(book.applications, name)),
    }
}

/// The answer for a file, which has no names.
fn in_file<T: HostTree>(tree: &mut T, path: &HostPath) -> Asked
    ensures { Follows (at_file path.now (errs_on_file enotdir)) (T.is tree.old) result
        (T.is tree.new) }
{
    let look = tree.look(path);
    Asked {
        answer: refusal_on_file(look, ENOTDIR),
        look: Some(look),
    }
}

/// The answer for a temporary, which has no names.
fn in_named<T: HostTree>(tree: &mut T, name: &FileName) -> Asked
    ensures { Follows (at_name name.now (errs_on_file enotdir)) (T.is tree.old) result
        (T.is tree.new) }
{
    let answer = tree.attr(name);
    let look = look_of_attr(name, answer);
    Asked {
        answer: refusal_on_file(look, ENOTDIR),
        look: Some(look),
    }
}

/// The answer for the folder of a document, which has the document's name and those of the
/// connection's temporaries.
fn in_folder<T: HostTree>(
    tree: &mut T,
    request: &NodeRequest,
    view: u32,
    seen: SeenDocument,
    own: Option<OwnFile>,
    name: &[u8],
) -> Asked
    requires { view < 2 ^ 28 }
    ensures { (namings : List NamingNow) (temps : List OwnTempNow) →
        IsFoundOwn own.entry (found_temp temps view seen.entry.document.now.id name.now) →
        Follows (lookup_in request.now namings temps name.now
        (FolderOf view seen.entry.document.now seen.entry.may_write)) (T.is tree.old) result
        (T.is tree.new) }
{
    if is_name_of(&seen.document.path, name) {
        let node = node_of(Place::File {
            view,
            id: seen.document.id,
        });
        own_entry(tree, request, seen.document, node, seen.may_write)
    } else {
        temp_entry(tree, request, view, seen.may_write, own)
    }
}

/// Says whether a name is that of the file of a path.
pub fn is_name_of(path: &HostPath, name: &[u8]) -> bool
    ensures { result ≡ is_same name.now (name_of path.now) }
{
    name == path.name()
}

/// The answer for the name of a document in its folder.
fn own_entry<T: HostTree>(
    tree: &mut T,
    request: &NodeRequest,
    document: &Document,
    node: u64,
    may_write: bool,
) -> Asked
    ensures { Follows (Looks (AtPath document.now.path)
        (found_document request.now node document.now may_write)) (T.is tree.old) result
        (T.is tree.new) }
{
    let look = tree.look(&document.path);
    Asked {
        answer: entry_by_look(request, node, document.folder, may_write, look),
        look: Some(look),
    }
}

/// The entry of a document's name, by the look for it: a file, or of a document that is
/// a folder that folder too.
fn entry_by_look(
    request: &NodeRequest,
    node: u64,
    is_folder: bool,
    may_write: bool,
    look: LookAnswer,
) -> Answer
    ensures { (d : DocumentNow) → d.folder ≡ is_folder →
        ComesToLook (found_document request.now node d may_write) look result }
{
    match look {
        LookAnswer::Is(Look::File { size, moment, .. }) => Answer::Node(NodeAnswer::Entry(
            attr_of_file(request, node, may_write, size, moment),
        )),
        LookAnswer::Is(Look::Folder) if is_folder => Answer::Node(NodeAnswer::Entry(attr_of_folder(
            request, node, may_write,
        ))),
        LookAnswer::Is(Look::Folder | Look::Missing) => refusal(ENOENT),
        LookAnswer::Failed => refusal(EIO),
    }
}

/// The answer for the name of a temporary, where there is one of that name.
fn temp_entry<T: HostTree>(
    tree: &mut T,
    request: &NodeRequest,
    view: u32,
    may_write: bool,
    own: Option<OwnFile>,
) -> Asked
    requires { view < 2 ^ 28 }
    ensures { (temp : Option OwnTempNow) → IsFoundOwn own.entry temp →
        Follows (found_own request.now view may_write temp) (T.is tree.old) result
        (T.is tree.new) }
{
    match own {
        Some(found) => {
            let node = node_of(Place::Temporary { view, k: found.k });
            named_entry(tree, request, found.file, node, may_write)
        }
        None => refused(ENOENT),
    }
}

/// The answer for the file of a name, as the entry of a node.
fn named_entry<T: HostTree>(
    tree: &mut T,
    request: &NodeRequest,
    file: &FileName,
    node: u64,
    may_write: bool,
) -> Asked
    ensures { Follows (at_name file.now (entry_of_file request.now node may_write))
        (T.is tree.old) result (T.is tree.new) }
{
    let answer = tree.attr(file);
    let look = look_of_attr(file, answer);
    Asked {
        answer: file_by_look(request, node, may_write, look),
        look: Some(look),
    }
}

/// The entry of a file, by the look for it.
fn file_by_look(request: &NodeRequest, node: u64, may_write: bool, look: LookAnswer) -> Answer
    ensures { ComesToBehind (entry_of_file request.now node may_write) look result }
{
    match look {
        LookAnswer::Is(Look::File { size, moment, .. }) => Answer::Node(NodeAnswer::Entry(
            attr_of_file(request, node, may_write, size, moment),
        )),
        LookAnswer::Is(Look::Folder | Look::Missing) => refusal(ENOENT),
        LookAnswer::Failed => refusal(EIO),
    }
}

/// The answer for a folder that has the name, where there is one.
fn found_folder(request: &NodeRequest, node: Option<u64>) -> Asked
    ensures { (tree : TreeIs) → Follows (found_folder request.now node) tree result tree }
{
    match node {
        None => refused(ENOENT),
        Some(node) => told(NodeAnswer::Entry(attr_of_folder(request, node, false))),
    }
}

/// Says whether a name is that of the folder of all views, which stands in the
/// host's own root.
fn is_views(who: &Who, view: u32, name: &[u8]) -> bool
    ensures { result ≡ (has_views who.now view && is_same name.now by_app) }
{
    match who {
        Who::Host => view == 0 && name == BY_APP,
        Who::App(_) => false,
    }
}

/// The folder of a name in the root of a view.
fn named_in_root(
    book: &ViewBook,
    who: &Who,
    view: u32,
    subject: Subject,
    name: &[u8],
) -> Option<u64>
    requires { view < 2 ^ 28 }
    ensures { list_all has_identifier book.now.documents.now.live ≡ true →
        result ≡ named_in_root view
        (numbers_seen book.now.grants.now (who_is subject.entry) book.now.documents.now.live)
        (has_views who.now view) name.now }
{
    if is_views(who, view, name) {
        Some(node_of(Place::ByApp))
    } else {
        folder_named(book, view, subject, name)
    }
}

/// The folder of the document that a name identifies, where it is seen.
fn folder_named(book: &ViewBook, view: u32, subject: Subject, name: &[u8]) -> Option<u64>
    requires { view < 2 ^ 28 }
    ensures { list_all has_identifier book.now.documents.now.live ≡ true →
        result ≡ folder_in_root view
        (numbers_seen book.now.grants.now (who_is subject.entry) book.now.documents.now.live)
        name.now }
{
    match id_named(name) {
        Some(id) => seen_folder(book, view, subject, id),
        None => None,
    }
}

/// The folder of a document, where it is seen.
fn seen_folder(book: &ViewBook, view: u32, subject: Subject, id: DocId) -> Option<u64>
    requires { view < 2 ^ 28 }
    ensures { result ≡ option_map (folder_node view) (where_seen (Some id)
        (sees book.now.grants.now (who_is subject.entry) book.now.documents.now.live)) }
{
    if sees(book, subject, id) {
        Some(node_of(Place::Folder { view, id }))
    } else {
        None
    }
}

/// Says whether a document is live, and a subject may read it.
fn sees(book: &ViewBook, subject: Subject, id: DocId) -> bool
    ensures { result ≡ sees book.now.grants.now (who_is subject.entry)
        book.now.documents.now.live id.number }
{
    book.documents.find(id).is_some() && may_read(book.grants, subject, id)
}

/// The view of the application of a name.
fn named_in_views(applications: &Applications, name: &[u8]) -> Option<u64>
    ensures { result ≡ named_in_views applications.now name.now }
{
    match number_named(applications, name) {
        Some(view) => Some(node_of(Place::Root { view })),
        None => None,
    }
}
