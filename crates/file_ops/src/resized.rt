//! FUSE_SETATTR: of the attributes a file's length alone may be set.

ghost use Rattle.std.specs.Prelude.{◌≡◌, ℕ, IfOk, List, OnErr, None, Some, false, not, option_copied};
ghost use Rattle.open_handles.specs.Opened.{HandleTable, handle_of, opened_on};
ghost use Rattle.portal_model.specs.declared.request.NodeOp.TheVariants as NodeOp;
ghost use Rattle.host_tree.specs.Trees.{TreeIs, is_look_fault};
ghost use Rattle.portal_model.specs.declared.state.Document.{Document as DocumentNow};
ghost use Rattle.portal_model.specs.Attributes.{is_writable, on_node};
ghost use Rattle.portal_model.specs.Errno.{eacces};
ghost use Rattle.portal_model.specs.NodeVerdict.{HandlesStay, at_file, at_name, by_file_handle, by_look, by_place, errs_if, if_file, spot};
ghost use Rattle.portal_model.specs.Place.{Folder, reach_at};
ghost use Rattle.portal_model.specs.SetAttr.{set_attr, set_attr_at, set_attr_of_folder, set_attr_open, sets_by_handle, sets_owner_or_mode, sets_size};
ghost use Rattle.portal_model.specs.State.{State};
ghost use Rattle.portal_model.specs.Walk.{AtPath, Looks};
ghost use Rattle.app_view.specs.Books.{Lends};
ghost use Rattle.node_looks.specs.Done.{DoesAt, MayRead, Reads};
ghost use Rattle.app_view.specs.Opened.{file_of};
ghost use Rattle.file_ops.specs.Sets.{denial_of, generation_of, set_subject, sets_file, sets_length, sets_of};
ghost use Rattle.node_looks.specs.Sights.{naming_by, node_seen, sight_of, temp_by};
ghost use Rattle.node_looks.specs.TreeCalls.{WasCalledUpTo};
ghost use Rattle.file_ops.specs.Tries.{Goes, GoesBehind, done_of_ended, done_of_tried, moment_of};

use crate::opened::look_named;
use crate::tried::{Ended, Tried, came_of, room_for_looks};
use app_view::{OpenFile, SeenBelow, SeenTemp, ViewBook, allowed_now, open_file};
use document_records::Document;
use host_tree::{HostTree, LookAnswer};
use node_looks::attributes::{attr_of_file, attr_of_folder};
use node_looks::served::{ByNumber, FileBook, NodeCall, NodeDone};
use node_looks::sight::{SeenPlace, seen_place};
use portal_base::files::{FileName, Look};
use portal_base::memory::{Replica, WantOfMemory};
use portal_base::outside::Clock;
use portal_base::who::Who;
use portal_model::errno::{EACCES, EBADF, EFBIG, EIO, EISDIR, ENOENT, EPERM};
use portal_model::handle::Handle;
use portal_model::reply::NodeAnswer;
use portal_model::request::NodeRequest;
use std::alloc::Global;

/// What a SETATTR asks.
#[derive(Clone, Copy)]
struct Setting {
    /// The bits say which attributes are to be set.
    valid: u32,
    /// The length that is asked for, in bytes.
    size: u64,
    /// How long a file may be, in bytes.
    limit: u64,
}

/// Answers a caller's SETATTR, on a node or on the open file of a handle. A number
/// of no open file is EBADF, and so is a length where it wasn't opened to be written.
///
/// By a handle it goes by what the file was opened to do; but that of a strict document
/// is EACCES where the subject of the node's view may not read the document now, and
/// for a length where it may not write it.
///
/// `own` is what the connection has by the number in the node. It takes a look at the
/// file, and where the length is to be set one more call of the tree, and for that
/// the moment of now. Where memory is wanting the tree was called twice at most, and no
/// file has changed. Of n documents it takes about n steps.
pub fn set_attr<T: HostTree, C: Clock>(
    alloc: Global,
    book: &FileBook,
    tree: &mut T,
    clock: &mut C,
    call: &NodeCall,
    own: ByNumber,
    handle: Option<&Handle>,
    valid: u32,
    size: u64,
) -> Result<NodeDone, WantOfMemory>
    ensures ok { (table : HandleTable) (fh : ℕ) →
        handle_of (opened_on table.seats call.now.seat) fh ≡ option_copied handle.entry →
        call.now.request.now.op ≡ NodeOp.SetAttr valid fh size → IfOk result (λ done.
        DoesAt (naming_by own.entry) (temp_by own.entry) book.now call.now table
        (T.is tree.old) done table (T.is tree.new)) }
    ensures clock { IfOk result (λ done. Reads C.reads clock.old done.now clock.new) }
    ensures err { OnErr result (WasCalledUpTo 2 (T.is tree.old) (T.is tree.new)) }
    ensures clock_err { OnErr result (MayRead C.reads clock.old clock.new) }
{
    let room = room_for_looks(alloc)?;
    let setting = Setting {
        valid,
        size,
        limit: book.file_limit,
    };
    let tried = set(
        alloc,
        &book.view,
        tree,
        clock,
        call.who,
        call.request,
        own,
        setting,
        handle,
    )?;
    Ok(tried.done(room))
}

/// How the request ends.
fn set<T: HostTree, C: Clock>(
    alloc: Global,
    book: &ViewBook,
    tree: &mut T,
    clock: &mut C,
    who: &Who,
    request: &NodeRequest,
    own: ByNumber,
    setting: Setting,
    handle: Option<&Handle>,
) -> Result<Tried, WantOfMemory>
    ensures ok { IfOk result (λ tried. (s : State) → Lends book.now s →
        Goes (set_attr (reach_at s who.now) request.now (sets_of setting)
        (node_seen s who.now own.entry request.now.node)
        (option_copied handle.entry)) (T.is tree.old) (done_of_tried tried) HandlesStay
        (T.is tree.new)) }
    ensures clock { IfOk result (λ tried.
        Reads C.reads clock.old (moment_of tried.ended.call) clock.new) }
    ensures err { OnErr result (WasCalledUpTo 2 (T.is tree.old) (T.is tree.new)) }
    ensures clock_err { OnErr result (MayRead C.reads clock.old clock.new) }
{
    // Times are passed over instead: a program that sets them behind a write is to go on.
    if sets_owner_or_mode(setting.valid) {
        return Ok(Tried::unlooked(Ended::refused(EPERM)));
    }
    if sets_by_handle(setting.valid) {
        return set_open(book, tree, clock, who, request, setting, handle);
    }
    match seen_place(book, who, request.node, own) {
        Some(place) => set_place(alloc, book, tree, clock, who, request, setting, place),
        None => Ok(Tried::unlooked(Ended::refused(ENOENT))),
    }
}

/// Says whether the mode or the owner is to be set.
fn sets_owner_or_mode(valid: u32) -> bool
    ensures { result ≡ sets_owner_or_mode valid }
{
    valid % 8 != 0
}

/// Says whether the length is to be set.
fn sets_size(valid: u32) -> bool
    ensures { result ≡ sets_size valid }
{
    valid / 8 % 2 == 1
}

/// Says whether a handle is named.
fn sets_by_handle(valid: u32) -> bool
    ensures { result ≡ sets_by_handle valid }
{
    valid / 64 % 2 == 1
}

/// How the request ends on a handle.
fn set_open<T: HostTree, C: Clock>(
    book: &ViewBook,
    tree: &mut T,
    clock: &mut C,
    who: &Who,
    request: &NodeRequest,
    setting: Setting,
    handle: Option<&Handle>,
) -> Result<Tried, WantOfMemory>
    ensures ok { IfOk result (λ tried. (s : State) → Lends book.now s → Goes
        (by_file_handle (option_copied handle.entry)
        (set_attr_open (reach_at s who.now) request.now (sets_of setting))) (T.is tree.old)
        (done_of_tried tried) HandlesStay (T.is tree.new)) }
    ensures clock { IfOk result (λ tried.
        Reads C.reads clock.old (moment_of tried.ended.call) clock.new) }
    ensures err { OnErr result (WasCalledUpTo 2 (T.is tree.old) (T.is tree.new)) }
    ensures clock_err { OnErr result (MayRead C.reads clock.old clock.new) }
{
    match open_file(handle) {
        Some(file) => set_open_file(book, tree, clock, who, request, setting, file),
        None => Ok(Tried::unlooked(Ended::refused(EBADF))),
    }
}

/// How the request ends on an open file.
fn set_open_file<T: HostTree, C: Clock>(
    book: &ViewBook,
    tree: &mut T,
    clock: &mut C,
    who: &Who,
    request: &NodeRequest,
    setting: Setting,
    file: OpenFile,
) -> Result<Tried, WantOfMemory>
    ensures ok { IfOk result (λ tried. (s : State) → Lends book.now s → Goes
        (set_attr_open (reach_at s who.now) request.now (sets_of setting) (file_of file.entry))
        (T.is tree.old) (done_of_tried tried) HandlesStay (T.is tree.new)) }
    ensures clock { IfOk result (λ tried.
        Reads C.reads clock.old (moment_of tried.ended.call) clock.new) }
    ensures err { OnErr result (WasCalledUpTo 2 (T.is tree.old) (T.is tree.new)) }
    ensures clock_err { OnErr result (MayRead C.reads clock.old clock.new) }
{
    let allowed = allowed_now(book, who, file);
    let subject = Subject {
        node: file.node,
        may_write: allowed.write,
        denial: denial_of(file.write),
    };
    set_where(
        allowed.reach,
        tree,
        clock,
        request,
        setting,
        file.name,
        subject,
    )
}

/// The error of a file whose length may not be set: whether it was opened to be
/// written tells the two apart.
fn denial_of(opened: bool) -> u32
    ensures { result ≡ denial_of opened }
{
    if opened { EACCES } else { EBADF }
}

/// How the request ends on an open file that may be told now or not.
fn set_where<T: HostTree, C: Clock>(
    reaches: bool,
    tree: &mut T,
    clock: &mut C,
    request: &NodeRequest,
    setting: Setting,
    name: &FileName,
    subject: Subject,
) -> Result<Tried, WantOfMemory>
    ensures ok { IfOk result (λ tried. Goes (errs_if (not reaches) eacces
        (at_name name.now (set_subject request.now (sets_of setting) subject name.now)))
        (T.is tree.old) (done_of_tried tried) HandlesStay (T.is tree.new)) }
    ensures clock { IfOk result (λ tried.
        Reads C.reads clock.old (moment_of tried.ended.call) clock.new) }
    ensures err { OnErr result (WasCalledUpTo 2 (T.is tree.old) (T.is tree.new)) }
    ensures clock_err { OnErr result (MayRead C.reads clock.old clock.new) }
{
    if !reaches {
        return Ok(Tried::unlooked(Ended::refused(EACCES)));
    }
    set_named(tree, clock, request, setting, name, subject)
}

/// How the request ends on a file of this name.
fn set_named<T: HostTree, C: Clock>(
    tree: &mut T,
    clock: &mut C,
    request: &NodeRequest,
    setting: Setting,
    name: &FileName,
    subject: Subject,
) -> Result<Tried, WantOfMemory>
    ensures ok { IfOk result (λ tried. Goes
        (at_name name.now (set_subject request.now (sets_of setting) subject name.now))
        (T.is tree.old) (done_of_tried tried) HandlesStay (T.is tree.new)) }
    ensures clock { IfOk result (λ tried.
        Reads C.reads clock.old (moment_of tried.ended.call) clock.new) }
    ensures err { OnErr result (WasCalledUpTo 2 (T.is tree.old) (T.is tree.new)) }
    ensures clock_err { OnErr result (MayRead C.reads clock.old clock.new) }
{
    let look = look_named(tree, name);
    let ended = set_looked(tree, clock, request, setting, name, subject, look)?;
    Ok(Tried {
        look: Some(look),
        ended,
    })
}

/// A file whose attributes are to be set.
#[derive(Clone, Copy)]
struct Subject {
    /// The node that is told.
    node: u64,
    /// Whether it may be written.
    may_write: bool,
    /// The error of one that may not.
    denial: u32,
}

/// How the request ends behind the look for a file.
fn set_looked<T: HostTree, C: Clock>(
    tree: &mut T,
    clock: &mut C,
    request: &NodeRequest,
    setting: Setting,
    name: &FileName,
    subject: Subject,
    look: LookAnswer,
) -> Result<Ended, WantOfMemory>
    ensures ok { IfOk result (λ ended. GoesBehind
        (if_file (set_subject request.now (sets_of setting) subject name.now)) look
        (T.is tree.old) ended HandlesStay (T.is tree.new)) }
    ensures clock { IfOk result (λ ended. Reads C.reads clock.old
        (moment_of ended.call) clock.new) }
    ensures err { OnErr result (WasCalledUpTo 1 (T.is tree.old) (T.is tree.new)) }
    ensures shown { OnErr result (is_look_fault look ≡ false) }
    ensures clock_err { OnErr result (MayRead C.reads clock.old clock.new) }
{
    match look {
        LookAnswer::Is(Look::File { size, moment, .. }) => {
            set_file(tree, clock, request, setting, name, subject, size, moment)
        }
        LookAnswer::Is(Look::Folder | Look::Missing) => Ok(Ended::refused(ENOENT)),
        LookAnswer::Failed => Ok(Ended::refused(EIO)),
    }
}

/// How the request ends on a file of this length and moment.
fn set_file<T: HostTree, C: Clock>(
    tree: &mut T,
    clock: &mut C,
    request: &NodeRequest,
    setting: Setting,
    name: &FileName,
    subject: Subject,
    size: u64,
    moment: u64,
) -> Result<Ended, WantOfMemory>
    ensures ok { IfOk result (λ ended. Goes
        (sets_file (on_node request.now subject.node) (sets_of setting) subject.denial name.now
        subject.may_write size moment) (T.is tree.old) (done_of_ended ended) HandlesStay
        (T.is tree.new)) }
    ensures clock { IfOk result (λ ended. Reads C.reads clock.old
        (moment_of ended.call) clock.new) }
    ensures err { OnErr result (WasCalledUpTo 1 (T.is tree.old) (T.is tree.new)) }
    ensures clock_err { OnErr result (MayRead C.reads clock.old clock.new) }
{
    if sets_size(setting.valid) {
        set_size(tree, clock, request, setting, name, subject)
    } else {
        let attr = attr_of_file(request, subject.node, subject.may_write, size, moment);
        Ok(Ended::told(NodeAnswer::Attr(attr)))
    }
}

/// How the request ends where the length of a file is to be set.
fn set_size<T: HostTree, C: Clock>(
    tree: &mut T,
    clock: &mut C,
    request: &NodeRequest,
    setting: Setting,
    name: &FileName,
    subject: Subject,
) -> Result<Ended, WantOfMemory>
    ensures ok { IfOk result (λ ended. Goes
        (sets_length (on_node request.now subject.node) (sets_of setting) subject.denial name.now
        subject.may_write) (T.is tree.old) (done_of_ended ended) HandlesStay (T.is tree.new)) }
    ensures clock { IfOk result (λ ended. Reads C.reads clock.old
        (moment_of ended.call) clock.new) }
    ensures err { OnErr result (WasCalledUpTo 1 (T.is tree.old) (T.is tree.new)) }
    ensures clock_err { OnErr result (MayRead C.reads clock.old clock.new) }
{
    if !subject.may_write {
        return Ok(Ended::refused(subject.denial));
    }
    // The limit binds new lengths, and not what the tree has already.
    if setting.size > setting.limit {
        return Ok(Ended::refused(EFBIG));
    }
    let now = clock.now();
    let came = came_of(tree.set_len(name, setting.size, now))?;
    let attr = attr_of_file(request, subject.node, subject.may_write, setting.size, now);
    Ok(Ended::by_call(now, came, NodeAnswer::Attr(attr)))
}

/// How the request ends at a place that the caller sees.
fn set_place<T: HostTree, C: Clock>(
    alloc: Global,
    book: &ViewBook,
    tree: &mut T,
    clock: &mut C,
    who: &Who,
    request: &NodeRequest,
    setting: Setting,
    place: SeenPlace,
) -> Result<Tried, WantOfMemory>
    ensures ok { IfOk result (λ tried. Goes
        (by_place (Some (sight_of book.now who.now place.entry))
        (set_attr_at request.now (sets_of setting))
        (set_attr_of_folder request.now (sets_of setting))) (T.is tree.old) (done_of_tried tried)
        HandlesStay (T.is tree.new)) }
    ensures clock { IfOk result (λ tried.
        Reads C.reads clock.old (moment_of tried.ended.call) clock.new) }
    ensures err { OnErr result (WasCalledUpTo 2 (T.is tree.old) (T.is tree.new)) }
    ensures clock_err { OnErr result (MayRead C.reads clock.old clock.new) }
{
    match place {
        SeenPlace::File { seen, .. } => set_placed(
            alloc,
            tree,
            clock,
            request,
            setting,
            seen.document,
            seen.may_write,
        ),
        SeenPlace::Below { below, .. } => { set_below(alloc, tree, clock, request, setting, below) }
        SeenPlace::Temporary { temp, .. } => set_temp(tree, clock, request, setting, temp),
        SeenPlace::Folder { .. } => Ok(set_plain(request, setting)),
        SeenPlace::Root { .. } => Ok(set_plain(request, setting)),
        SeenPlace::Views => Ok(set_plain(request, setting)),
    }
}

/// How the request ends on a folder that isn't at or below a document that is one.
fn set_plain(request: &NodeRequest, setting: Setting) -> Tried
    ensures goes { (tree : TreeIs) (folder : Folder) → is_writable folder ≡ false →
        Goes (set_attr_of_folder request.now (sets_of setting) folder) tree
        (done_of_tried result) HandlesStay tree }
    ensures call { result.ended.call ≡ None }
{
    Tried::unlooked(set_folder(request, setting, false))
}

/// How the request ends on a folder.
fn set_folder(request: &NodeRequest, setting: Setting, may_write: bool) -> Ended
    ensures goes { (tree : TreeIs) (folder : Folder) → is_writable folder ≡ may_write →
        Goes (set_attr_of_folder request.now (sets_of setting) folder) tree
        (done_of_ended result) HandlesStay tree }
    ensures call { result.call ≡ None }
{
    if sets_size(setting.valid) {
        Ended::refused(EISDIR)
    } else {
        let attr = attr_of_folder(request, request.node, may_write);
        Ended::told(NodeAnswer::Attr(attr))
    }
}

/// How the request ends on what lies at or below a document that is a folder.
fn set_below<T: HostTree, C: Clock>(
    alloc: Global,
    tree: &mut T,
    clock: &mut C,
    request: &NodeRequest,
    setting: Setting,
    below: SeenBelow,
) -> Result<Tried, WantOfMemory>
    ensures ok { (view : ℕ) → IfOk result (λ tried. Goes (Looks (AtPath below.entry.path.now)
        (by_look view
        (spot below.entry.seen.document.now below.entry.path.now below.entry.seen.may_write)
        (set_attr_at request.now (sets_of setting))
        (set_attr_of_folder request.now (sets_of setting)))) (T.is tree.old)
        (done_of_tried tried) HandlesStay (T.is tree.new)) }
    ensures clock { IfOk result (λ tried.
        Reads C.reads clock.old (moment_of tried.ended.call) clock.new) }
    ensures err { OnErr result (WasCalledUpTo 2 (T.is tree.old) (T.is tree.new)) }
    ensures clock_err { OnErr result (MayRead C.reads clock.old clock.new) }
{
    let path_copy = below.path.replica(alloc)?;
    let look = tree.look(below.path);
    let name = FileName {
        path: path_copy,
        generation: generation_of(look),
    };
    let subject = Subject {
        node: request.node,
        may_write: below.seen.may_write,
        denial: EACCES,
    };
    let ended = set_looked_below(tree, clock, request, setting, &name, subject, look)?;
    Ok(Tried {
        look: Some(look),
        ended,
    })
}

/// How the request ends behind the look for what is there.
fn set_looked_below<T: HostTree, C: Clock>(
    tree: &mut T,
    clock: &mut C,
    request: &NodeRequest,
    setting: Setting,
    name: &FileName,
    subject: Subject,
    look: LookAnswer,
) -> Result<Ended, WantOfMemory>
    ensures ok { (view : ℕ) (d : DocumentNow) (path : List ℕ) → IfOk result (λ ended.
        GoesBehind (by_look view (spot d path subject.may_write)
        (λ at. set_subject request.now (sets_of setting) subject name.now)
        (set_attr_of_folder request.now (sets_of setting))) look
        (T.is tree.old) ended HandlesStay (T.is tree.new)) }
    ensures clock { IfOk result (λ ended. Reads C.reads clock.old
        (moment_of ended.call) clock.new) }
    ensures err { OnErr result (WasCalledUpTo 1 (T.is tree.old) (T.is tree.new)) }
    ensures shown { OnErr result (is_look_fault look ≡ false) }
    ensures clock_err { OnErr result (MayRead C.reads clock.old clock.new) }
{
    match look {
        LookAnswer::Is(Look::File { size, moment, .. }) => {
            set_file(tree, clock, request, setting, name, subject, size, moment)
        }
        LookAnswer::Is(Look::Folder) => Ok(set_folder(request, setting, subject.may_write)),
        LookAnswer::Is(Look::Missing) => Ok(Ended::refused(ENOENT)),
        LookAnswer::Failed => Ok(Ended::refused(EIO)),
    }
}

/// How the request ends on a temporary.
fn set_temp<T: HostTree, C: Clock>(
    tree: &mut T,
    clock: &mut C,
    request: &NodeRequest,
    setting: Setting,
    temp: SeenTemp,
) -> Result<Tried, WantOfMemory>
    ensures ok { IfOk result (λ tried. Goes (at_name temp.entry.file.now
        (set_attr_at request.now (sets_of setting) (spot temp.entry.seen.document.now
        temp.entry.file.now.path temp.entry.seen.may_write))) (T.is tree.old)
        (done_of_tried tried) HandlesStay (T.is tree.new)) }
    ensures clock { IfOk result (λ tried.
        Reads C.reads clock.old (moment_of tried.ended.call) clock.new) }
    ensures err { OnErr result (WasCalledUpTo 2 (T.is tree.old) (T.is tree.new)) }
    ensures clock_err { OnErr result (MayRead C.reads clock.old clock.new) }
{
    let look = look_named(tree, temp.file);
    let subject = Subject {
        node: request.node,
        may_write: temp.seen.may_write,
        denial: EACCES,
    };
    let ended = set_looked(tree, clock, request, setting, temp.file, subject, look)?;
    Ok(Tried {
        look: Some(look),
        ended,
    })
}

/// How the request ends on the file of a document.
fn set_placed<T: HostTree, C: Clock>(
    alloc: Global,
    tree: &mut T,
    clock: &mut C,
    request: &NodeRequest,
    setting: Setting,
    document: &Document,
    may_write: bool,
) -> Result<Tried, WantOfMemory>
    ensures ok { IfOk result (λ tried. Goes (at_file document.now.path
        (set_attr_at request.now (sets_of setting)
        (spot document.now document.now.path may_write))) (T.is tree.old) (done_of_tried tried)
        HandlesStay (T.is tree.new)) }
    ensures clock { IfOk result (λ tried.
        Reads C.reads clock.old (moment_of tried.ended.call) clock.new) }
    ensures err { OnErr result (WasCalledUpTo 2 (T.is tree.old) (T.is tree.new)) }
    ensures clock_err { OnErr result (MayRead C.reads clock.old clock.new) }
{
    let path_copy = document.path.replica(alloc)?;
    let look = tree.look(&document.path);
    let name = FileName {
        path: path_copy,
        generation: generation_of(look),
    };
    let subject = Subject {
        node: request.node,
        may_write,
        denial: EACCES,
    };
    let ended = set_looked(tree, clock, request, setting, &name, subject, look)?;
    Ok(Tried {
        look: Some(look),
        ended,
    })
}

/// Which of the files of a path was shown, or 0 where there is none.
fn generation_of(look: LookAnswer) -> u64
    ensures { result ≡ generation_of look }
{
    match look {
        LookAnswer::Is(Look::File { generation, .. }) => generation,
        LookAnswer::Is(Look::Folder | Look::Missing) => 0,
        LookAnswer::Failed => 0,
    }
}
