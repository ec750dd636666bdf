//! FUSE_GETATTR: the attributes of a node, or of an open file.

ghost use Rattle.std.specs.Prelude.{◌≡◌, ℕ, List, ◌+◌, ◌<◌, ◌≤◌, IfOk, OnErr, Some, false, not, option_copied, None, IsOk};
ghost use Rattle.host_tree.specs.Trees.{TreeIs};
ghost use Rattle.portal_model.specs.declared.request.NodeOp.TheVariants as NodeOp;
ghost use Rattle.portal_model.specs.declared.state.Document.{Document};
ghost use Rattle.portal_model.specs.Attributes.{is_writable, on_node};
ghost use Rattle.portal_model.specs.Errno.{eacces};
ghost use Rattle.portal_model.specs.GetAttr.{get_attr, get_attr_by_handle, get_attr_by_place, get_attr_open, tells_file, tells_folder};
ghost use Rattle.portal_model.specs.NodeVerdict.{at_file, at_name, by_look, by_place, errs_if, spot};
ghost use Rattle.portal_model.specs.Place.{Folder, reach_at};
ghost use Rattle.portal_model.specs.State.{State};
ghost use Rattle.portal_model.specs.Walk.{AtPath, Looks};
ghost use Rattle.app_view.specs.Books.{Lends};
ghost use Rattle.node_looks.specs.Done.{DoesAt};
ghost use Rattle.app_view.specs.Opened.{file_of};
ghost use Rattle.node_looks.specs.Sights.{naming_by, node_seen, sight_of, temp_by};
ghost use Rattle.node_looks.specs.Walks.{ComesToBehind, ComesToLook, Follows};

use crate::asked::{Asked, done, look_of_attr, refusal, refused, told};
use crate::attributes::{attr_of_file, attr_of_folder};
use crate::rooms::LookRooms;
use crate::served::{ByNumber, FileBook, NodeCall, NodeDone};
use crate::sight::{SeenPlace, seen_place};
use app_view::{OpenFile, ViewBook, allowed_now};
use host_tree::{HostTree, LookAnswer};
use open_handles::{Handle, Handles};
use portal_base::files::{FileName, Look};
use portal_base::memory::WantOfMemory;
use portal_base::names::HostPath;
use portal_base::who::Who;
use portal_model::errno::{EACCES, EBADF, EIO, ENOENT};
use portal_model::reply::{Answer, NodeAnswer};
use portal_model::request::{NodeRequest, names_handle};
use std::alloc::Global;

/// Answers a caller's GETATTR with these flags, of a node or of the open handle of
/// the number that it names.
///
/// An open file is told by the node that was opened and by whether it may itself be
/// written, whatever its document and the rights in it have become; but that of a
/// strict document is EACCES where the subject of the node's view may not read the
/// document now, and goes by its right to write it. An open folder leaves the request
/// to the node. A number of no handle is EBADF. A file takes one look at the tree, and so
/// does what is at or below a document that is a folder; `own` is what the connection has
/// by the number in the node. Of n documents it takes about n steps, and no memory but the
/// room for that look, for which one of `rooms` serves where there is none.
pub fn get_attr<T: HostTree>(
    alloc: Global,
    rooms: &mut LookRooms,
    book: &FileBook,
    handles: &Handles,
    tree: &mut T,
    call: &NodeCall,
    own: ByNumber,
    flags: u32,
    fh: u64,
) -> Result<NodeDone, WantOfMemory>
    ensures ok { call.now.request.now.op ≡ NodeOp.GetAttr flags fh → IfOk result (λ done.
        DoesAt (naming_by own.entry) (temp_by own.entry) book.now call.now handles.now
        (T.is tree.old) done handles.now (T.is tree.new)) }
    ensures unclocked { IfOk result (λ done. done.now ≡ None) }
    ensures err { OnErr result (tree.new ≡ tree.old) }
    ensures reserved { 0 < rooms.old → IsOk result }
    ensures rooms { rooms.old ≤ rooms.new + 1 }
{
    let room = rooms.take(alloc)?;
    let handle = handles.get(call.seat, fh);
    let asked = described(&book.view, tree, call.who, call.request, own, flags, handle);
    Ok(done(room, asked))
}

/// The answer.
fn described<T: HostTree>(
    book: &ViewBook,
    tree: &mut T,
    who: &Who,
    request: &NodeRequest,
    own: ByNumber,
    flags: u32,
    handle: Option<&Handle>,
) -> Asked
    ensures { (s : State) → Lends book.now s → Follows (get_attr (reach_at s who.now) request.now
        flags (node_seen s who.now own.entry request.now.node)
        (option_copied handle.entry)) (T.is tree.old) result (T.is tree.new) }
{
    // By the handle the node of the header isn't looked at.
    if names_handle(flags) {
        of_handle(book, tree, who, request, own, handle)
    } else {
        of_node(book, tree, who, request, own)
    }
}

/// The answer to a request that names a handle.
fn of_handle<T: HostTree>(
    book: &ViewBook,
    tree: &mut T,
    who: &Who,
    request: &NodeRequest,
    own: ByNumber,
    handle: Option<&Handle>,
) -> Asked
    ensures { (s : State) → Lends book.now s → Follows (get_attr_by_handle (reach_at s who.now)
        request.now (node_seen s who.now own.entry request.now.node)
        (option_copied handle.entry)) (T.is tree.old) result (T.is tree.new) }
{
    match handle {
        None => refused(EBADF),
        Some(handle) => of_open(book, tree, who, request, own, handle),
    }
}

/// The answer to a request that names an open handle.
fn of_open<T: HostTree>(
    book: &ViewBook,
    tree: &mut T,
    who: &Who,
    request: &NodeRequest,
    own: ByNumber,
    handle: &Handle,
) -> Asked
    ensures { (s : State) → Lends book.now s → Follows (get_attr_by_handle (reach_at s who.now)
        request.now (node_seen s who.now own.entry request.now.node)
        (Some handle.now)) (T.is tree.old) result (T.is tree.new) }
{
    match handle {
        Handle::File {
            name,
            node,
            document,
            strict,
            read,
            write,
        } => {
            let file = OpenFile {
                name,
                node: *node,
                document: *document,
                strict: *strict,
                read: *read,
                write: *write,
            };
            of_open_file(book, tree, who, request, file)
        }
        Handle::Folder { .. } => of_node(book, tree, who, request, own),
    }
}

/// The answer to a request on a node.
fn of_node<T: HostTree>(
    book: &ViewBook,
    tree: &mut T,
    who: &Who,
    request: &NodeRequest,
    own: ByNumber,
) -> Asked
    ensures { (s : State) → Lends book.now s → Follows (get_attr_by_place request.now
        (node_seen s who.now own.entry request.now.node)) (T.is tree.old) result
        (T.is tree.new) }
{
    match seen_place(book, who, request.node, own) {
        None => refused(ENOENT),
        Some(place) => at_place(book, tree, who, request, place),
    }
}

/// The answer at a place that the caller sees.
fn at_place<T: HostTree>(
    book: &ViewBook,
    tree: &mut T,
    who: &Who,
    request: &NodeRequest,
    place: SeenPlace,
) -> Asked
    ensures { Follows (by_place (Some (sight_of book.now who.now place.entry))
        (λ at. tells_file request.now at.may_write) (tells_folder request.now))
        (T.is tree.old) result (T.is tree.new) }
{
    match place {
        SeenPlace::File { seen, .. } => {
            of_file(tree, request, &seen.document.path, seen.may_write)
        }
        SeenPlace::Below { below, .. } => {
            of_below(tree, request, below.path, below.seen.may_write)
        }
        SeenPlace::Temporary { temp, .. } => {
            of_file_named(tree, request, temp.file, request.node, temp.seen.may_write)
        }
        SeenPlace::Folder { .. } => of_folder(request),
        SeenPlace::Root { .. } => of_folder(request),
        SeenPlace::Views => of_folder(request),
    }
}

/// The answer for a folder that isn't at or below a document that is one.
fn of_folder(request: &NodeRequest) -> Asked
    ensures { (tree : TreeIs) (folder : Folder) → is_writable folder ≡ false →
        Follows (tells_folder request.now folder) tree result tree }
{
    told(NodeAnswer::Attr(attr_of_folder(request, request.node, false)))
}

/// The answer for what is at or below a document that is a folder.
fn of_below<T: HostTree>(
    tree: &mut T,
    request: &NodeRequest,
    path: &HostPath,
    may_write: bool,
) -> Asked
    ensures { (view : ℕ) (d : Document) → Follows
        (Looks (AtPath path.now) (by_look view (spot d path.now may_write)
        (λ at. tells_file request.now at.may_write) (tells_folder request.now)))
        (T.is tree.old) result (T.is tree.new) }
{
    let look = tree.look(path);
    Asked {
        answer: attr_below(request, may_write, look),
        look: Some(look),
    }
}

/// The attributes of a file or a folder, by the look for it.
fn attr_below(request: &NodeRequest, may_write: bool, look: LookAnswer) -> Answer
    ensures { (view : ℕ) (d : Document) (path : List ℕ) → ComesToLook
        (by_look view (spot d path may_write) (λ at. tells_file request.now at.may_write)
        (tells_folder request.now)) look result }
{
    match look {
        LookAnswer::Is(Look::File { size, moment, .. }) => Answer::Node(NodeAnswer::Attr(
            attr_of_file(request, request.node, may_write, size, moment),
        )),
        LookAnswer::Is(Look::Folder) => Answer::Node(NodeAnswer::Attr(attr_of_folder(
            request,
            request.node,
            may_write,
        ))),
        LookAnswer::Is(Look::Missing) => refusal(ENOENT),
        LookAnswer::Failed => refusal(EIO),
    }
}

/// The answer for the file of a path.
fn of_file<T: HostTree>(
    tree: &mut T,
    request: &NodeRequest,
    path: &HostPath,
    may_write: bool,
) -> Asked
    ensures { Follows (at_file path.now (tells_file request.now may_write)) (T.is tree.old)
        result (T.is tree.new) }
{
    let look = tree.look(path);
    Asked {
        answer: attr_by_look(request, request.node, may_write, look),
        look: Some(look),
    }
}

/// The answer for an open file.
fn of_open_file<T: HostTree>(
    book: &ViewBook,
    tree: &mut T,
    who: &Who,
    request: &NodeRequest,
    file: OpenFile,
) -> Asked
    ensures { (s : State) → Lends book.now s → Follows (get_attr_open (reach_at s who.now)
        request.now (file_of file.entry)) (T.is tree.old) result (T.is tree.new) }
{
    let allowed = allowed_now(book, who, file);
    of_file_where(
        allowed.reach,
        tree,
        request,
        file.name,
        file.node,
        allowed.write,
    )
}

/// The answer for an open file that may be told now or not.
fn of_file_where<T: HostTree>(
    reaches: bool,
    tree: &mut T,
    request: &NodeRequest,
    name: &FileName,
    node: u64,
    may_write: bool,
) -> Asked
    ensures { Follows (errs_if (not reaches) eacces
        (at_name name.now (tells_file (on_node request.now node) may_write))) (T.is tree.old)
        result (T.is tree.new) }
{
    if reaches {
        of_file_named(tree, request, name, node, may_write)
    } else {
        refused(EACCES)
    }
}

/// The answer for the file of a name, told at a node.
fn of_file_named<T: HostTree>(
    tree: &mut T,
    request: &NodeRequest,
    name: &FileName,
    node: u64,
    may_write: bool,
) -> Asked
    ensures { Follows (at_name name.now (tells_file (on_node request.now node) may_write))
        (T.is tree.old) result (T.is tree.new) }
{
    let answer = tree.attr(name);
    let look = look_of_attr(name, answer);
    Asked {
        answer: attr_by_look(request, node, may_write, look),
        look: Some(look),
    }
}

/// The attributes of a file, by the look for it.
fn attr_by_look(request: &NodeRequest, node: u64, may_write: bool, look: LookAnswer) -> Answer
    ensures { ComesToBehind (tells_file (on_node request.now node) may_write) look result }
{
    match look {
        LookAnswer::Is(Look::File { size, moment, .. }) => Answer::Node(NodeAnswer::Attr(
            attr_of_file(request, node, may_write, size, moment),
        )),
        LookAnswer::Is(Look::Folder | Look::Missing) => refusal(ENOENT),
        LookAnswer::Failed => refusal(EIO),
    }
}
