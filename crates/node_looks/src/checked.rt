//! FUSE_ACCESS: what the caller may do at a node, with the mask of access(2).

ghost use Rattle.std.specs.Prelude.{ℕ, List, ◌≡◌, ◌&&◌, ◌||◌, ◌+◌, ◌<◌, ◌≤◌, IfOk, OnErr, Some, false, nat_lt, not, None, IsOk};
ghost use Rattle.portal_model.specs.declared.request.NodeOp.TheVariants as NodeOp;
ghost use Rattle.portal_model.specs.Access.{access, access_file, access_folder, executes, writes_to};
ghost use Rattle.portal_model.specs.declared.state.Document.{Document};
ghost use Rattle.portal_model.specs.Attributes.{is_writable};
ghost use Rattle.portal_model.specs.NodeVerdict.{at_file, at_name, by_look, by_place, spot};
ghost use Rattle.portal_model.specs.Place.{Folder};
ghost use Rattle.portal_model.specs.Walk.{AtPath, Looks};
ghost use Rattle.portal_model.specs.State.{State};
ghost use Rattle.host_tree.specs.Trees.{TreeIs};
ghost use Rattle.app_view.specs.Books.{Lends};
ghost use Rattle.node_looks.specs.Served.{Tells};
ghost use Rattle.node_looks.specs.Sights.{naming_by, node_seen, sight_of, temp_by};
ghost use Rattle.node_looks.specs.Walks.{ComesToBehind, ComesToLook, Follows, by_denial};

use crate::asked::{Asked, done, look_of_attr, refusal, refused, told};
use crate::rooms::LookRooms;
use crate::served::{ByNumber, NodeDone};
use crate::sight::{SeenPlace, seen_place};
use app_view::ViewBook;
use host_tree::{HostTree, LookAnswer};
use portal_base::files::{FileName, Look};
use portal_base::memory::WantOfMemory;
use portal_base::names::HostPath;
use portal_base::who::Who;
use portal_model::errno::{EACCES, EINVAL, EIO, ENOENT};
use portal_model::reply::{Answer, NodeAnswer};
use portal_model::request::NodeRequest;
use std::alloc::Global;

/// All bits of a mask.
const ALL_BITS: u32 = 7;

/// Answers a caller's ACCESS of a node with this mask.
///
/// Each place may be read, a file may be written by who may write the document,
/// and a folder may be gone through; one that is a document or lies below one may be
/// written by who may write the document. A file takes one look at the tree, and so does
/// what is at or below a document that is a folder. `own` is what the connection has by
/// the number in the node. Of n documents it takes about n steps, and no memory but the
/// room for that look, for which one of `rooms` serves where there is none.
pub fn access<T: HostTree>(
    alloc: Global,
    rooms: &mut LookRooms,
    book: &ViewBook,
    tree: &mut T,
    who: &Who,
    request: &NodeRequest,
    own: ByNumber,
    mask: u32,
) -> Result<NodeDone, WantOfMemory>
    ensures ok { request.now.op ≡ NodeOp.Access mask → IfOk result (λ done.
        Tells (naming_by own.entry) (temp_by own.entry) book.now who.now request.now
        (T.is tree.old) done (T.is tree.new)) }
    ensures unclocked { IfOk result (λ done. done.now ≡ None) }
    ensures err { OnErr result (tree.new ≡ tree.old) }
    ensures reserved { 0 < rooms.old → IsOk result }
    ensures rooms { rooms.old ≤ rooms.new + 1 }
{
    let room = rooms.take(alloc)?;
    let asked = checked(book, tree, who, request, own, mask);
    Ok(done(room, asked))
}

/// The answer.
fn checked<T: HostTree>(
    book: &ViewBook,
    tree: &mut T,
    who: &Who,
    request: &NodeRequest,
    own: ByNumber,
    mask: u32,
) -> Asked
    ensures { (s : State) → Lends book.now s → Follows (access mask
        (node_seen s who.now own.entry request.now.node)) (T.is tree.old) result
        (T.is tree.new) }
{
    if has_other_bits(mask) {
        return refused(EINVAL);
    }
    match seen_place(book, who, request.node, own) {
        None => refused(ENOENT),
        Some(place) => at_place(book, tree, who, place, mask),
    }
}

/// Says whether a mask has a bit that access(2) doesn't have.
fn has_other_bits(mask: u32) -> bool
    ensures { result ≡ nat_lt 7 mask }
{
    mask > ALL_BITS
}

/// Says whether it is asked to execute.
fn executes(mask: u32) -> bool
    ensures { result ≡ executes mask }
{
    mask % 2 == 1
}

/// Says whether it is asked to write.
fn writes(mask: u32) -> bool
    ensures { result ≡ writes_to mask }
{
    mask / 2 % 2 == 1
}

/// The answer at a place that the caller sees.
fn at_place<T: HostTree>(
    book: &ViewBook,
    tree: &mut T,
    who: &Who,
    place: SeenPlace,
    mask: u32,
) -> Asked
    ensures { Follows (by_place (Some (sight_of book.now who.now place.entry))
        (access_file mask) (access_folder mask)) (T.is tree.old) result (T.is tree.new) }
{
    match place {
        SeenPlace::File { seen, .. } => { in_file(tree, &seen.document.path, seen.may_write, mask) }
        SeenPlace::Below { below, .. } => { in_below(tree, below.path, below.seen.may_write, mask) }
        SeenPlace::Temporary { temp, .. } => in_named(tree, temp.file, temp.seen.may_write, mask),
        SeenPlace::Folder { .. } => in_folder(mask),
        SeenPlace::Root { .. } => in_folder(mask),
        SeenPlace::Views => in_folder(mask),
    }
}

/// The answer for a folder that isn't at or below a document that is one.
fn in_folder(mask: u32) -> Asked
    ensures { (tree : TreeIs) (folder : Folder) → is_writable folder ≡ false →
        Follows (access_folder mask folder) tree result tree }
{
    // ACCESS asks what a later request would: a folder may be listed and searched where it is
    // seen.
    if writes(mask) {
        refused(EACCES)
    } else {
        told(NodeAnswer::Empty)
    }
}

/// The answer for what is at or below a document that is a folder.
fn in_below<T: HostTree>(tree: &mut T, path: &HostPath, may_write: bool, mask: u32) -> Asked
    ensures { (view : ℕ) (d : Document) → Follows
        (Looks (AtPath path.now) (by_look view (spot d path.now may_write)
        (access_file mask) (access_folder mask))) (T.is tree.old) result (T.is tree.new) }
{
    let look = tree.look(path);
    Asked {
        answer: answer_below(look, may_write, mask),
        look: Some(look),
    }
}

/// The answer by the look there.
fn answer_below(look: LookAnswer, may_write: bool, mask: u32) -> Answer
    ensures { (view : ℕ) (d : Document) (path : List ℕ) → ComesToLook
        (by_look view (spot d path may_write) (access_file mask) (access_folder mask)) look
        result }
{
    match look {
        LookAnswer::Is(Look::File { .. }) if is_denied(may_write, mask) => refusal(EACCES),
        LookAnswer::Is(Look::Folder) if writes(mask) && !may_write => refusal(EACCES),
        LookAnswer::Is(Look::File { .. } | Look::Folder) => Answer::Node(NodeAnswer::Empty),
        LookAnswer::Is(Look::Missing) => refusal(ENOENT),
        LookAnswer::Failed => refusal(EIO),
    }
}

/// The answer for a file.
fn in_file<T: HostTree>(tree: &mut T, path: &HostPath, may_write: bool, mask: u32) -> Asked
    ensures { Follows (at_file path.now
        (by_denial (executes mask || writes_to mask && not may_write))) (T.is tree.old) result
        (T.is tree.new) }
{
    let look = tree.look(path);
    Asked {
        answer: answer_to_look(look, is_denied(may_write, mask)),
        look: Some(look),
    }
}

/// The answer for the file of a name.
fn in_named<T: HostTree>(tree: &mut T, name: &FileName, may_write: bool, mask: u32) -> Asked
    ensures { Follows (at_name name.now
        (by_denial (executes mask || writes_to mask && not may_write))) (T.is tree.old) result
        (T.is tree.new) }
{
    let answer = tree.attr(name);
    let look = look_of_attr(name, answer);
    Asked {
        answer: answer_to_look(look, is_denied(may_write, mask)),
        look: Some(look),
    }
}

/// Says whether the mask asks more of a file than it allows.
fn is_denied(may_write: bool, mask: u32) -> bool
    ensures { result ≡ (executes mask || writes_to mask && not may_write) }
{
    executes(mask) || writes(mask) && !may_write
}

/// The answer by the look for the file.
fn answer_to_look(look: LookAnswer, denied: bool) -> Answer
    ensures { ComesToBehind (by_denial denied) look result }
{
    match look {
        LookAnswer::Is(Look::File { .. }) if denied => refusal(EACCES),
        LookAnswer::Is(Look::File { .. }) => Answer::Node(NodeAnswer::Empty),
        LookAnswer::Is(Look::Folder | Look::Missing) => refusal(ENOENT),
        LookAnswer::Failed => refusal(EIO),
    }
}
