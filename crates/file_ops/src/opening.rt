//! FUSE_OPEN: a file is opened, by the flags of open(2).

ghost use Rattle.std.specs.Prelude.{◌≡◌, ℕ, IfOk, IsSome, IsSomeAnd, OnErr, false, true};
ghost use Rattle.host_tree.specs.Trees.{is_look_fault};
ghost use Rattle.open_handles.specs.Opened.{CanAdd, opened_on};
ghost use Rattle.portal_model.specs.declared.reply.NodeAnswer.TheVariants as NodeAnswer;
ghost use Rattle.portal_model.specs.declared.request.NodeOp.TheVariants as NodeOp;
ghost use Rattle.portal_model.specs.NodeVerdict.{Opens, at_file, at_name, by_look, if_file, next_handle, spot};
ghost use Rattle.portal_model.specs.Open.{file_handle, open_file, open_folder, open_name, open_node, truncates};
ghost use Rattle.portal_model.specs.State.{State};
ghost use Rattle.portal_model.specs.Walk.{AtPath, Looks};
ghost use Rattle.app_view.specs.Books.{Lends};
ghost use Rattle.node_looks.specs.Done.{DoesAt, MayRead, Reads, Wants, room_in};
ghost use Rattle.node_looks.specs.OpenHandles.{Handled};
ghost use Rattle.node_looks.specs.Sights.{naming_by, node_seen, temp_by};
ghost use Rattle.file_ops.specs.Creates.{Opening, OpeningBehind};
ghost use Rattle.file_ops.specs.Tries.{done_of_ended, done_of_tried, moment_of};

use crate::opened::look_named;
use crate::tried::{Came, Ended, Tried, came_of, room_for_looks};
use app_view::{SeenBelow, SeenDocument, SeenTemp, ViewBook};
use document_records::Document;
use host_tree::{HostTree, LookAnswer};
use node_looks::handed::{hand_out, take_room};
use node_looks::served::{ByNumber, FileBook, NodeCall, NodeDone};
use node_looks::sight::{SeenPlace, seen_place};
use open_handles::Handles;
use open_handles::open_flags::{file_handle, has_no_mode, is_denied, truncates};
use portal_base::files::{FileName, Look};
use portal_base::memory::{Replica, WantOfMemory};
use portal_base::names::HostPath;
use portal_base::outside::Clock;
use portal_model::errno::{EACCES, EINVAL, EIO, EISDIR, EMFILE, ENOENT};
use portal_model::reply::NodeAnswer;
use std::alloc::Global;

/// Answers a caller's OPEN of a file with these flags: the next handle of its
/// connection, which was entered. Who may not write the document may open its file
/// neither to write nor to cut it; of a document that is a folder these are the files
/// below it.
///
/// `own` is what the connection has by the number in the node. It takes a look at the
/// file, and room for the handle; with O_TRUNC then one more call of the tree, and for
/// that the moment of now. Of n documents it takes about n steps.
pub fn open<T: HostTree, C: Clock>(
    alloc: Global,
    book: &FileBook,
    handles: &mut Handles,
    tree: &mut T,
    clock: &mut C,
    call: &NodeCall,
    own: ByNumber,
    flags: u32,
) -> Result<NodeDone, WantOfMemory>
    requires { IsSome (opened_on handles.old.seats call.now.seat) }
    ensures ok { call.now.request.now.op ≡ NodeOp.Open flags → IfOk result (λ done.
        DoesAt (naming_by own.entry) (temp_by own.entry) book.now call.now handles.old
        (T.is tree.old) done handles.new (T.is tree.new)) }
    ensures clock { IfOk result (λ done. Reads C.reads clock.old done.now clock.new) }
    ensures err { OnErr result
        (Wants 2 handles.old (T.is tree.old) handles.new (T.is tree.new)) }
    ensures clock_err { OnErr result (MayRead C.reads clock.old clock.new) }
{
    let room = room_for_looks(alloc)?;
    let tried = opened(alloc, &book.view, handles, tree, clock, call, own, flags)?;
    Ok(tried.done(room))
}

/// How the request ends.
fn opened<T: HostTree, C: Clock>(
    alloc: Global,
    book: &ViewBook,
    handles: &mut Handles,
    tree: &mut T,
    clock: &mut C,
    call: &NodeCall,
    own: ByNumber,
    flags: u32,
) -> Result<Tried, WantOfMemory>
    requires { IsSome (opened_on handles.old.seats call.now.seat) }
    ensures ok { IfOk result (λ tried. (s : State) → Lends book.now s → Opening
        (open_node call.now.request.now flags
        (node_seen s call.now.who.now own.entry call.now.request.now.node)
        (room_in handles.old call.now.seat)) call.now.seat handles.old (T.is tree.old)
        (done_of_tried tried) handles.new (T.is tree.new)) }
    ensures clock { IfOk result (λ tried.
        Reads C.reads clock.old (moment_of tried.ended.call) clock.new) }
    ensures err { OnErr result
        (Wants 2 handles.old (T.is tree.old) handles.new (T.is tree.new)) }
    ensures clock_err { OnErr result (MayRead C.reads clock.old clock.new) }
{
    if has_no_mode(flags) {
        return Ok(Tried::unlooked(Ended::refused(EINVAL)));
    }
    match seen_place(book, call.who, call.request.node, own) {
        None => Ok(Tried::unlooked(Ended::refused(ENOENT))),
        Some(SeenPlace::File { seen, .. }) => {
            open_document(alloc, handles, tree, clock, call, flags, seen)
        }
        Some(SeenPlace::Below { below, .. }) => {
            open_below(alloc, handles, tree, clock, call, flags, below)
        }
        Some(SeenPlace::Temporary { temp, .. }) => {
            open_temp(alloc, handles, tree, clock, call, flags, temp)
        }
        Some(SeenPlace::Folder { .. } | SeenPlace::Root { .. } | SeenPlace::Views) => {
            Ok(Tried::unlooked(Ended::refused(EISDIR)))
        }
    }
}

/// How the request ends on the file of a document.
fn open_document<T: HostTree, C: Clock>(
    alloc: Global,
    handles: &mut Handles,
    tree: &mut T,
    clock: &mut C,
    call: &NodeCall,
    flags: u32,
    seen: SeenDocument,
) -> Result<Tried, WantOfMemory>
    requires { IsSome (opened_on handles.old.seats call.now.seat) }
    ensures ok { IfOk result (λ tried. Opening (at_file seen.entry.document.now.path
        (open_file call.now.request.now flags (room_in handles.old call.now.seat)
        (spot seen.entry.document.now seen.entry.document.now.path seen.entry.may_write)))
        call.now.seat handles.old (T.is tree.old) (done_of_tried tried) handles.new
        (T.is tree.new)) }
    ensures clock { IfOk result (λ tried.
        Reads C.reads clock.old (moment_of tried.ended.call) clock.new) }
    ensures err { OnErr result
        (Wants 2 handles.old (T.is tree.old) handles.new (T.is tree.new)) }
    ensures clock_err { OnErr result (MayRead C.reads clock.old clock.new) }
{
    let path = &seen.document.path;
    let look = tree.look(path);
    let ended = open_looked(alloc, handles, tree, clock, call, flags, seen, path, look)?;
    Ok(Tried {
        look: Some(look),
        ended,
    })
}

/// How the request ends on a temporary.
fn open_temp<T: HostTree, C: Clock>(
    alloc: Global,
    handles: &mut Handles,
    tree: &mut T,
    clock: &mut C,
    call: &NodeCall,
    flags: u32,
    temp: SeenTemp,
) -> Result<Tried, WantOfMemory>
    requires { IsSome (opened_on handles.old.seats call.now.seat) }
    ensures ok { IfOk result (λ tried. Opening (at_name temp.entry.file.now
        (open_file call.now.request.now flags (room_in handles.old call.now.seat)
        (spot temp.entry.seen.document.now temp.entry.file.now.path temp.entry.seen.may_write)))
        call.now.seat handles.old (T.is tree.old) (done_of_tried tried) handles.new
        (T.is tree.new)) }
    ensures clock { IfOk result (λ tried.
        Reads C.reads clock.old (moment_of tried.ended.call) clock.new) }
    ensures err { OnErr result
        (Wants 2 handles.old (T.is tree.old) handles.new (T.is tree.new)) }
    ensures clock_err { OnErr result (MayRead C.reads clock.old clock.new) }
{
    let SeenTemp { seen, file } = temp;
    let path = &file.path;
    let look = look_named(tree, file);
    let ended = open_looked(alloc, handles, tree, clock, call, flags, seen, path, look)?;
    Ok(Tried {
        look: Some(look),
        ended,
    })
}

/// How the request ends behind the look for the file.
fn open_looked<T: HostTree, C: Clock>(
    alloc: Global,
    handles: &mut Handles,
    tree: &mut T,
    clock: &mut C,
    call: &NodeCall,
    flags: u32,
    seen: SeenDocument,
    path: &HostPath,
    look: LookAnswer,
) -> Result<Ended, WantOfMemory>
    requires { IsSome (opened_on handles.old.seats call.now.seat) }
    ensures ok { IfOk result (λ ended. OpeningBehind (if_file
        (open_file call.now.request.now flags (room_in handles.old call.now.seat)
        (spot seen.entry.document.now path.now seen.entry.may_write)))
        look call.now.seat handles.old (T.is tree.old) ended handles.new (T.is tree.new)) }
    ensures clock { IfOk result (λ ended. Reads C.reads clock.old
        (moment_of ended.call) clock.new) }
    ensures err { OnErr result
        (Wants 1 handles.old (T.is tree.old) handles.new (T.is tree.new)) }
    ensures shown { OnErr result (is_look_fault look ≡ false) }
    ensures clock_err { OnErr result (MayRead C.reads clock.old clock.new) }
{
    match look {
        LookAnswer::Is(Look::File { generation, .. }) => open_shown(
            alloc, handles, tree, clock, call, flags, seen, path, generation,
        ),
        LookAnswer::Is(Look::Folder | Look::Missing) => Ok(Ended::refused(ENOENT)),
        LookAnswer::Failed => Ok(Ended::refused(EIO)),
    }
}

/// How the request ends on what lies at or below a document that is a folder.
fn open_below<T: HostTree, C: Clock>(
    alloc: Global,
    handles: &mut Handles,
    tree: &mut T,
    clock: &mut C,
    call: &NodeCall,
    flags: u32,
    below: SeenBelow,
) -> Result<Tried, WantOfMemory>
    requires { IsSome (opened_on handles.old.seats call.now.seat) }
    ensures ok { (view : ℕ) → IfOk result (λ tried. Opening (Looks (AtPath below.entry.path.now)
        (by_look view
        (spot below.entry.seen.document.now below.entry.path.now below.entry.seen.may_write)
        (open_file call.now.request.now flags (room_in handles.old call.now.seat)) open_folder))
        call.now.seat handles.old (T.is tree.old) (done_of_tried tried) handles.new
        (T.is tree.new)) }
    ensures clock { IfOk result (λ tried.
        Reads C.reads clock.old (moment_of tried.ended.call) clock.new) }
    ensures err { OnErr result
        (Wants 2 handles.old (T.is tree.old) handles.new (T.is tree.new)) }
    ensures clock_err { OnErr result (MayRead C.reads clock.old clock.new) }
{
    let look = tree.look(below.path);
    let ended = open_looked_below(alloc, handles, tree, clock, call, flags, below, look)?;
    Ok(Tried {
        look: Some(look),
        ended,
    })
}

/// How the request ends behind the look for what is there.
fn open_looked_below<T: HostTree, C: Clock>(
    alloc: Global,
    handles: &mut Handles,
    tree: &mut T,
    clock: &mut C,
    call: &NodeCall,
    flags: u32,
    below: SeenBelow,
    look: LookAnswer,
) -> Result<Ended, WantOfMemory>
    requires { IsSome (opened_on handles.old.seats call.now.seat) }
    ensures ok { (view : ℕ) → IfOk result (λ ended. OpeningBehind (by_look view
        (spot below.entry.seen.document.now below.entry.path.now below.entry.seen.may_write)
        (open_file call.now.request.now flags (room_in handles.old call.now.seat)) open_folder)
        look call.now.seat handles.old (T.is tree.old) ended handles.new (T.is tree.new)) }
    ensures clock { IfOk result (λ ended. Reads C.reads clock.old
        (moment_of ended.call) clock.new) }
    ensures err { OnErr result
        (Wants 1 handles.old (T.is tree.old) handles.new (T.is tree.new)) }
    ensures shown { OnErr result (is_look_fault look ≡ false) }
    ensures clock_err { OnErr result (MayRead C.reads clock.old clock.new) }
{
    match look {
        LookAnswer::Is(Look::File { generation, .. }) => {
            let SeenBelow { seen, path } = below;
            open_shown(
                alloc, handles, tree, clock, call, flags, seen, path, generation,
            )
        }
        LookAnswer::Is(Look::Folder) => Ok(Ended::refused(EISDIR)),
        LookAnswer::Is(Look::Missing) => Ok(Ended::refused(ENOENT)),
        LookAnswer::Failed => Ok(Ended::refused(EIO)),
    }
}

/// How the request ends on a file that is there, at this path.
fn open_shown<T: HostTree, C: Clock>(
    alloc: Global,
    handles: &mut Handles,
    tree: &mut T,
    clock: &mut C,
    call: &NodeCall,
    flags: u32,
    seen: SeenDocument,
    path: &HostPath,
    generation: u64,
) -> Result<Ended, WantOfMemory>
    requires { IsSome (opened_on handles.old.seats call.now.seat) }
    ensures ok { (size moment : ℕ) → IfOk result (λ ended. Opening
        (open_file call.now.request.now flags (room_in handles.old call.now.seat)
        (spot seen.entry.document.now path.now seen.entry.may_write) generation size moment)
        call.now.seat handles.old (T.is tree.old) (done_of_ended ended) handles.new
        (T.is tree.new)) }
    ensures clock { IfOk result (λ ended. Reads C.reads clock.old
        (moment_of ended.call) clock.new) }
    ensures err { OnErr result
        (Wants 1 handles.old (T.is tree.old) handles.new (T.is tree.new)) }
    ensures clock_err { OnErr result (MayRead C.reads clock.old clock.new) }
{
    if is_denied(flags, seen.may_write) {
        return Ok(Ended::refused(EACCES));
    }
    let name = FileName {
        path: path.replica(alloc)?,
        generation,
    };
    // It comes ahead of O_TRUNC: where no handle can be had nothing is cut.
    if !take_room(handles, call.seat)? {
        return Ok(Ended::refused(EMFILE));
    }
    open_name(handles, tree, clock, call, flags, seen.document, name)
}

/// How the request ends on a file for which there is room among the handles.
fn open_name<T: HostTree, C: Clock>(
    handles: &mut Handles,
    tree: &mut T,
    clock: &mut C,
    call: &NodeCall,
    flags: u32,
    document: &Document,
    name: FileName,
) -> Result<Ended, WantOfMemory>
    requires { IsSomeAnd (opened_on handles.old.seats call.now.seat) (CanAdd handles.old.most) }
    ensures ok { IfOk result (λ ended. Opening (open_name call.now.request.now flags
        (room_in handles.old call.now.seat) document.now name) call.now.seat handles.old
        (T.is tree.old) (done_of_ended ended) handles.new (T.is tree.new)) }
    ensures clock { IfOk result (λ ended. Reads C.reads clock.old
        (moment_of ended.call) clock.new) }
    ensures err { OnErr result
        (Wants 1 handles.old (T.is tree.old) handles.new (T.is tree.new)) }
    ensures clock_err { OnErr result (MayRead C.reads clock.old clock.new) }
{
    if truncates(flags) {
        open_cut(handles, tree, clock, call, flags, document, name)
    } else {
        Ok(Ended::told(handed(handles, call, flags, document, name)))
    }
}

/// How the request ends on a file that is cut to no bytes first.
fn open_cut<T: HostTree, C: Clock>(
    handles: &mut Handles,
    tree: &mut T,
    clock: &mut C,
    call: &NodeCall,
    flags: u32,
    document: &Document,
    name: FileName,
) -> Result<Ended, WantOfMemory>
    requires room { IsSomeAnd (opened_on handles.old.seats call.now.seat)
        (CanAdd handles.old.most) }
    requires cuts { truncates flags ≡ true }
    ensures ok { IfOk result (λ ended. Opening (open_name call.now.request.now flags
        (room_in handles.old call.now.seat) document.now name) call.now.seat handles.old
        (T.is tree.old) (done_of_ended ended) handles.new (T.is tree.new)) }
    ensures clock { IfOk result (λ ended. Reads C.reads clock.old
        (moment_of ended.call) clock.new) }
    ensures err { OnErr result
        (Wants 1 handles.old (T.is tree.old) handles.new (T.is tree.new)) }
    ensures clock_err { OnErr result (MayRead C.reads clock.old clock.new) }
{
    let now = clock.now();
    match came_of(tree.set_len(&name, 0, now))? {
        Came::Done => {
            let answer = handed(handles, call, flags, document, name);
            Ok(Ended::by_call(now, Came::Done, answer))
        }
        Came::NotFile => Ok(Ended::missing(now)),
        Came::Failed => Ok(Ended::failed(now)),
    }
}

/// The handle on an open file, for which there is room.
fn handed(
    handles: &mut Handles,
    call: &NodeCall,
    flags: u32,
    document: &Document,
    name: FileName,
) -> NodeAnswer
    requires { IsSomeAnd (opened_on handles.old.seats call.now.seat) (CanAdd handles.old.most) }
    ensures answer { result ≡ NodeAnswer.Opened (next_handle (room_in handles.old call.now.seat)) }
    ensures opens { Handled call.now.seat
        (Opens (file_handle document.now name call.now.request.now.node flags)) handles.old
        handles.new }
{
    let handle = file_handle(document, name, call.request.node, flags);
    NodeAnswer::Opened {
        fh: hand_out(handles, call.seat, handle),
    }
}
