//! FUSE_LOOKUP and FUSE_CREATE of a name in a folder that is a document, or lies below one.

ghost use Rattle.std.specs.Prelude.{◌≡◌, List, ◌<◌, ◌^◌, IfOk, IfSome, IsSome, IsSomeAnd, None, OnErr, Some, false, true};
ghost use Rattle.host_tree.specs.Trees.{Looks as Shows, TreeIs, is_look_fault};
ghost use Rattle.portal_base.specs.Content.{look_at};
ghost use Rattle.portal_base.specs.Names.{named_child};
ghost use Rattle.portal_base.specs.declared.files.Look.TheVariants as Look;
ghost use Rattle.open_handles.specs.Opened.{CanAdd, HandleTable, opened_on};
ghost use Rattle.folder_documents.specs.Named.{CanName, named_on};
ghost use Rattle.portal_model.specs.declared.naming.Naming.{Naming as NamingNow};
ghost use Rattle.portal_model.specs.declared.temporary.OwnTemp.{OwnTemp as OwnTempNow};
ghost use Rattle.portal_model.specs.SeatNames.{SeatTemps as SeatTempsNow};
ghost use Rattle.portal_model.specs.Attributes.{on_node};
ghost use Rattle.portal_model.specs.Create.{create};
ghost use Rattle.portal_model.specs.Lookup.{lookup};
ghost use Rattle.portal_model.specs.NodeVerdict.{HandlesStay, NamesStay};
ghost use Rattle.node_looks.specs.Done.{MayRead, Reads, room_in};
ghost use Rattle.node_looks.specs.OpenHandles.{Handled};
ghost use Rattle.node_looks.specs.TreeCalls.{WasCalledUpTo};
ghost use Rattle.file_ops.specs.Children.{IsThere, NumberingBelow, attr_shown, found_below, made_below, named_below, parent_seen, parent_sight, refused_there, shown_below, there_below};
ghost use Rattle.file_ops.specs.Creates.{Numbering, NumberingBehind, NumberingWith};
ghost use Rattle.file_ops.specs.SeatNames.{SeatNamed, namings_on};
ghost use Rattle.file_ops.specs.Tries.{done_of_ended, done_of_tried, moment_of};

use crate::numbered::{give_number, take_number};
use crate::tried::{Came, Ended, Tried, TriedBelow, came_of, room_below};
use app_view::SeenBelow;
use document_records::Document;
use folder_documents::{Namings, child_path};
use host_tree::{HostTree, LookAnswer};
use node_looks::asked::refusal_on_file;
use node_looks::attributes::{attr_of_file, attr_of_folder};
use node_looks::entry::is_too_long;
use node_looks::handed::{hand_out, take_room};
use node_looks::served::{NodeCall, NodeDone};
use open_handles::Handles;
use open_handles::open_flags::{file_handle, has_no_mode};
use portal_base::files::{FileName, Look};
use portal_base::memory::{Replica, WantOfMemory};
use portal_base::names::HostPath;
use portal_base::outside::Clock;
use portal_model::errno::{EACCES, EEXIST, EINVAL, EIO, EMFILE, ENAMETOOLONG, ENOENT, ENOTDIR};
use portal_model::naming::Naming;
use portal_model::reply::{Attr, NodeAnswer};
use portal_model::request::NodeRequest;
use std::alloc::Global;

/// A folder that is a document, or lies below one, as a caller sees it: by copies, since
/// what a connection has named is lent, and more is named meanwhile.
#[derive(Drop)]
pub(crate) struct Parent {
    /// The view.
    pub view: u32,
    /// The document.
    pub document: Document,
    /// The path on the host.
    pub path: HostPath,
    /// Whether the view's subject may write there.
    pub may_write: bool,
}

/// What is seen there, by copies.
pub(crate) fn parent_of(alloc: Global, view: u32, below: SeenBelow) -> Result<Parent, WantOfMemory>
    ensures { IfOk result (λ parent. parent ≡ parent_seen view below.entry) }
{
    Ok(Parent {
        view,
        document: below.seen.document.replica(alloc)?,
        path: below.path.replica(alloc)?,
        may_write: below.seen.may_write,
    })
}

/// Answers a LOOKUP of a name there: what a look shows gets its number on the connection
/// of the seat, or has it already.
///
/// It takes a look at the folder, and one at the path of the name. Where memory is
/// wanting the tree was called twice at most.
pub(crate) fn lookup_below<T: HostTree>(
    alloc: Global,
    namings: &mut Namings,
    tree: &mut T,
    call: &NodeCall,
    parent: &Parent,
    name: &[u8],
) -> Result<NodeDone, WantOfMemory>
    requires named { IsSome (named_on namings.old call.now.seat) }
    requires view { parent.now.view < 2 ^ 28 }
    ensures ok { (table : HandleTable) (temps : List OwnTempNow) → IfOk result (λ done.
        NumberingWith (λ has. lookup call.now.request.now has temps name.now
        (Some (parent_sight parent.now))) call.now.seat table namings.old (T.is tree.old) done
        table namings.new (T.is tree.new)) }
    ensures err { OnErr result (WasCalledUpTo 2 (T.is tree.old) (T.is tree.new)) }
    ensures names_err { OnErr result
        (SeatNamed call.now.seat NamesStay namings.old namings.new) }
    ensures unclocked { IfOk result (λ done. done.now ≡ None) }
{
    let room = room_below(alloc)?;
    if is_too_long(name) {
        let refused = Tried::unlooked(Ended::refused(ENAMETOOLONG));
        return Ok(TriedBelow::at_once(refused).done(room));
    }
    let look = tree.look(&parent.path);
    let tried = found_behind(alloc, namings, tree, call, parent, name, look)?;
    Ok(tried.done(room))
}

/// How a LOOKUP ends behind the look for the folder.
fn found_behind<T: HostTree>(
    alloc: Global,
    namings: &mut Namings,
    tree: &mut T,
    call: &NodeCall,
    parent: &Parent,
    name: &[u8],
    look: LookAnswer,
) -> Result<TriedBelow, WantOfMemory>
    requires named { IsSome (named_on namings.old call.now.seat) }
    requires view { parent.now.view < 2 ^ 28 }
    ensures ok { (table : HandleTable) → IfOk result (λ tried. NumberingBelow
        (found_below call.now.request.now parent.now (named_child parent.now.path name.now))
        look call.now.seat table namings.old (T.is tree.old) tried table namings.new
        (T.is tree.new)) }
    ensures err { OnErr result (WasCalledUpTo 1 (T.is tree.old) (T.is tree.new)) }
    ensures shown { OnErr result (is_look_fault look ≡ false) }
    ensures names_err { OnErr result
        (SeatNamed call.now.seat NamesStay namings.old namings.new) }
    ensures call { IfOk result (λ tried. tried.then.ended.call ≡ None) }
{
    match look {
        LookAnswer::Is(Look::Folder) => Ok(TriedBelow {
            first: Some(Look::Folder),
            then: found_in(alloc, namings, tree, call, parent, name)?,
        }),
        LookAnswer::Is(Look::File { .. } | Look::Missing) | LookAnswer::Failed => {
            Ok(no_folder(look))
        }
    }
}

/// How a request on names ends where a look shows no folder.
fn no_folder(look: LookAnswer) -> TriedBelow
    ensures { result ≡ refused_there look }
{
    TriedBelow::at_once(Tried {
        look: Some(look),
        ended: Ended {
            answer: refusal_on_file(look, ENOTDIR),
            call: None,
        },
    })
}

/// How a LOOKUP ends in a folder that was shown.
fn found_in<T: HostTree>(
    alloc: Global,
    namings: &mut Namings,
    tree: &mut T,
    call: &NodeCall,
    parent: &Parent,
    name: &[u8],
) -> Result<Tried, WantOfMemory>
    requires named { IsSome (named_on namings.old call.now.seat) }
    requires view { parent.now.view < 2 ^ 28 }
    ensures ok { (table : HandleTable) → IfOk result (λ tried. NumberingWith
        (found_below call.now.request.now parent.now (named_child parent.now.path name.now))
        call.now.seat table namings.old (T.is tree.old) (done_of_tried tried) table namings.new
        (T.is tree.new)) }
    ensures err { OnErr result (WasCalledUpTo 1 (T.is tree.old) (T.is tree.new)) }
    ensures names_err { OnErr result
        (SeatNamed call.now.seat NamesStay namings.old namings.new) }
    ensures call { IfOk result (λ tried. tried.ended.call ≡ None) }
{
    match child_path(alloc, &parent.path, name)? {
        Some(path) => found_at(namings, tree, call, parent, path),
        None => Ok(Tried::unlooked(Ended::refused(ENOENT))),
    }
}

/// How a LOOKUP ends at the path of the name.
fn found_at<T: HostTree>(
    namings: &mut Namings,
    tree: &mut T,
    call: &NodeCall,
    parent: &Parent,
    path: HostPath,
) -> Result<Tried, WantOfMemory>
    requires named { IsSome (named_on namings.old call.now.seat) }
    requires view { parent.now.view < 2 ^ 28 }
    ensures ok { (table : HandleTable) → IfOk result (λ tried. NumberingWith
        (found_below call.now.request.now parent.now (Some path)) call.now.seat table
        namings.old (T.is tree.old) (done_of_tried tried) table namings.new (T.is tree.new)) }
    ensures err { OnErr result (WasCalledUpTo 1 (T.is tree.old) (T.is tree.new)) }
    ensures names_err { OnErr result
        (SeatNamed call.now.seat NamesStay namings.old namings.new) }
    ensures call { IfOk result (λ tried. tried.ended.call ≡ None) }
{
    let look = tree.look(&path);
    let ended = found_looked(namings, call, parent, path, look)?;
    Ok(Tried {
        look: Some(look),
        ended,
    })
}

/// How a LOOKUP ends behind the look for the name.
fn found_looked(
    namings: &mut Namings,
    call: &NodeCall,
    parent: &Parent,
    path: HostPath,
    look: LookAnswer,
) -> Result<Ended, WantOfMemory>
    requires named { IsSome (named_on namings.old call.now.seat) }
    requires view { parent.now.view < 2 ^ 28 }
    ensures ok { (table : HandleTable) (tree : TreeIs) (has : List NamingNow) →
        namings_on namings.old call.now.seat ≡ Some has → IfOk result (λ ended. NumberingBehind
        (λ shown. shown_below call.now.request.now parent.now path shown has) look call.now.seat
        table namings.old tree ended table namings.new tree) }
    ensures shown { OnErr result (is_look_fault look ≡ false) }
    ensures names_err { OnErr result
        (SeatNamed call.now.seat NamesStay namings.old namings.new) }
    ensures call { IfOk result (λ ended. ended.call ≡ None) }
{
    match look {
        LookAnswer::Is(Look::Missing) => Ok(Ended::refused(ENOENT)),
        LookAnswer::Is(shown) => entry(namings, call, parent, path, shown),
        LookAnswer::Failed => Ok(Ended::refused(EIO)),
    }
}

/// The entry of a name that is there, with its number.
fn entry(
    namings: &mut Namings,
    call: &NodeCall,
    parent: &Parent,
    path: HostPath,
    shown: Look,
) -> Result<Ended, WantOfMemory>
    requires named { IsSome (named_on namings.old call.now.seat) }
    requires view { parent.now.view < 2 ^ 28 }
    requires there { IsThere shown }
    ensures ok { (table : HandleTable) (tree : TreeIs) (has : List NamingNow) →
        namings_on namings.old call.now.seat ≡ Some has → IfOk result (λ ended. Numbering
        (shown_below call.now.request.now parent.now path shown has) call.now.seat
        table namings.old tree (done_of_ended ended) table namings.new tree) }
    ensures names_err { OnErr result
        (SeatNamed call.now.seat NamesStay namings.old namings.new) }
    ensures call { IfOk result (λ ended. ended.call ≡ None) }
{
    let naming = Naming {
        view: parent.view,
        document: parent.document.id,
        path,
    };
    if !take_number(namings, call.seat, &naming)? {
        return Ok(Ended::refused(EMFILE));
    }
    let node = give_number(namings, call.seat, naming);
    let attr = attr_shown(call.request, node, parent.may_write, shown);
    Ok(Ended::told(NodeAnswer::Entry(attr)))
}

/// The attributes of what is there.
fn attr_shown(request: &NodeRequest, node: u64, may_write: bool, shown: Look) -> Attr
    ensures { result ≡ attr_shown (on_node request.now node) may_write shown }
{
    match shown {
        Look::File { size, moment, .. } => attr_of_file(request, node, may_write, size, moment),
        Look::Folder | Look::Missing => attr_of_folder(request, node, may_write),
    }
}

/// Answers a CREATE of a name there, with the flags of open(2): a file is made where the
/// document may be written and nothing is there; it is opened, and gets its number on the
/// connection of the seat.
///
/// It takes a look at the folder, and one at the path of the name; room for the handle and
/// for the number is taken ahead of that, and the path of the name ahead of the call that
/// makes the file. For that call it takes the moment of now. Where memory is wanting the
/// tree was called three times at most, and no file has changed.
pub(crate) fn create_below<T: HostTree, C: Clock>(
    alloc: Global,
    handles: &mut Handles,
    namings: &mut Namings,
    tree: &mut T,
    clock: &mut C,
    call: &NodeCall,
    parent: &Parent,
    name: &[u8],
    flags: u32,
) -> Result<NodeDone, WantOfMemory>
    requires entered { IsSome (opened_on handles.old.seats call.now.seat) }
    requires named { IsSome (named_on namings.old call.now.seat) }
    requires view { parent.now.view < 2 ^ 28 }
    ensures ok { (temps : SeatTempsNow) → IfOk result (λ done. NumberingWith
        (λ has. create call.now.request.now name.now flags (Some (parent_sight parent.now))
        (room_in handles.old call.now.seat) has temps) call.now.seat handles.old namings.old
        (T.is tree.old) done handles.new namings.new (T.is tree.new)) }
    ensures clock { IfOk result (λ done. Reads C.reads clock.old done.now clock.new) }
    ensures err { OnErr result (WasCalledUpTo 3 (T.is tree.old) (T.is tree.new)) }
    ensures handles_err { OnErr result
        (Handled call.now.seat HandlesStay handles.old handles.new) }
    ensures names_err { OnErr result
        (SeatNamed call.now.seat NamesStay namings.old namings.new) }
    ensures clock_err { OnErr result (MayRead C.reads clock.old clock.new) }
{
    let room = room_below(alloc)?;
    if has_no_mode(flags) {
        let refused = Tried::unlooked(Ended::refused(EINVAL));
        return Ok(TriedBelow::at_once(refused).done(room));
    }
    if is_too_long(name) {
        let refused = Tried::unlooked(Ended::refused(ENAMETOOLONG));
        return Ok(TriedBelow::at_once(refused).done(room));
    }
    let look = tree.look(&parent.path);
    let tried = made_behind(
        alloc, handles, namings, tree, clock, call, parent, name, flags, look,
    )?;
    Ok(tried.done(room))
}

/// How a CREATE ends behind the look for the folder.
fn made_behind<T: HostTree, C: Clock>(
    alloc: Global,
    handles: &mut Handles,
    namings: &mut Namings,
    tree: &mut T,
    clock: &mut C,
    call: &NodeCall,
    parent: &Parent,
    name: &[u8],
    flags: u32,
    look: LookAnswer,
) -> Result<TriedBelow, WantOfMemory>
    requires entered { IsSome (opened_on handles.old.seats call.now.seat) }
    requires named { IsSome (named_on namings.old call.now.seat) }
    requires view { parent.now.view < 2 ^ 28 }
    ensures ok { IfOk result (λ tried. NumberingBelow
        (made_below call.now.request.now flags (room_in handles.old call.now.seat) parent.now
        (named_child parent.now.path name.now)) look call.now.seat handles.old namings.old
        (T.is tree.old) tried handles.new namings.new (T.is tree.new)) }
    ensures clock { IfOk result (λ tried.
        Reads C.reads clock.old (moment_of tried.then.ended.call) clock.new) }
    ensures err { OnErr result (WasCalledUpTo 2 (T.is tree.old) (T.is tree.new)) }
    ensures shown { OnErr result (is_look_fault look ≡ false) }
    ensures handles_err { OnErr result
        (Handled call.now.seat HandlesStay handles.old handles.new) }
    ensures names_err { OnErr result
        (SeatNamed call.now.seat NamesStay namings.old namings.new) }
    ensures clock_err { OnErr result (MayRead C.reads clock.old clock.new) }
{
    match look {
        LookAnswer::Is(Look::Folder) => Ok(TriedBelow {
            first: Some(Look::Folder),
            then: made_in(
                alloc, handles, namings, tree, clock, call, parent, name, flags,
            )?,
        }),
        LookAnswer::Is(Look::File { .. } | Look::Missing) | LookAnswer::Failed => {
            Ok(no_folder(look))
        }
    }
}

/// How a CREATE ends in a folder that was shown.
fn made_in<T: HostTree, C: Clock>(
    alloc: Global,
    handles: &mut Handles,
    namings: &mut Namings,
    tree: &mut T,
    clock: &mut C,
    call: &NodeCall,
    parent: &Parent,
    name: &[u8],
    flags: u32,
) -> Result<Tried, WantOfMemory>
    requires entered { IsSome (opened_on handles.old.seats call.now.seat) }
    requires named { IsSome (named_on namings.old call.now.seat) }
    requires view { parent.now.view < 2 ^ 28 }
    ensures ok { IfOk result (λ tried. NumberingWith
        (made_below call.now.request.now flags (room_in handles.old call.now.seat) parent.now
        (named_child parent.now.path name.now)) call.now.seat handles.old namings.old
        (T.is tree.old) (done_of_tried tried) handles.new namings.new (T.is tree.new)) }
    ensures clock { IfOk result (λ tried.
        Reads C.reads clock.old (moment_of tried.ended.call) clock.new) }
    ensures err { OnErr result (WasCalledUpTo 2 (T.is tree.old) (T.is tree.new)) }
    ensures handles_err { OnErr result
        (Handled call.now.seat HandlesStay handles.old handles.new) }
    ensures names_err { OnErr result
        (SeatNamed call.now.seat NamesStay namings.old namings.new) }
    ensures clock_err { OnErr result (MayRead C.reads clock.old clock.new) }
{
    let Some(path) = child_path(alloc, &parent.path, name)? else {
        return Ok(Tried::unlooked(Ended::refused(EACCES)));
    };
    if !parent.may_write {
        return Ok(Tried::unlooked(Ended::refused(EACCES)));
    }
    let naming = Naming {
        view: parent.view,
        document: parent.document.id,
        path,
    };
    made_named(
        alloc, handles, namings, tree, clock, call, parent, naming, flags,
    )
}

/// How a CREATE ends on a name that may be made.
fn made_named<T: HostTree, C: Clock>(
    alloc: Global,
    handles: &mut Handles,
    namings: &mut Namings,
    tree: &mut T,
    clock: &mut C,
    call: &NodeCall,
    parent: &Parent,
    naming: Naming,
    flags: u32,
) -> Result<Tried, WantOfMemory>
    requires entered { IsSome (opened_on handles.old.seats call.now.seat) }
    requires named { IsSome (named_on namings.old call.now.seat) }
    requires view { naming.view < 2 ^ 28 }
    requires writes { parent.now.may_write ≡ true }
    ensures ok { IfOk result (λ tried. NumberingWith
        (named_below call.now.request.now flags (room_in handles.old call.now.seat) parent.now
        naming) call.now.seat handles.old namings.old (T.is tree.old) (done_of_tried tried)
        handles.new namings.new (T.is tree.new)) }
    ensures clock { IfOk result (λ tried.
        Reads C.reads clock.old (moment_of tried.ended.call) clock.new) }
    ensures err { OnErr result (WasCalledUpTo 2 (T.is tree.old) (T.is tree.new)) }
    ensures handles_err { OnErr result
        (Handled call.now.seat HandlesStay handles.old handles.new) }
    ensures names_err { OnErr result
        (SeatNamed call.now.seat NamesStay namings.old namings.new) }
    ensures clock_err { OnErr result (MayRead C.reads clock.old clock.new) }
{
    // Where no handle or no number can be had nothing is to be made, so the room for both comes
    // ahead of the call.
    if !take_room(handles, call.seat)? {
        return Ok(Tried::unlooked(Ended::refused(EMFILE)));
    }
    if !take_number(namings, call.seat, &naming)? {
        return Ok(Tried::unlooked(Ended::refused(EMFILE)));
    }
    let file = FileName {
        path: naming.path.replica(alloc)?,
        generation: 0,
    };
    let look = tree.look(&naming.path);
    let ended = made_looked(
        handles, namings, tree, clock, call, parent, naming, flags, file, look,
    )?;
    Ok(Tried {
        look: Some(look),
        ended,
    })
}

/// How a CREATE ends behind the look for the name.
fn made_looked<T: HostTree, C: Clock>(
    handles: &mut Handles,
    namings: &mut Namings,
    tree: &mut T,
    clock: &mut C,
    call: &NodeCall,
    parent: &Parent,
    naming: Naming,
    flags: u32,
    file: FileName,
    look: LookAnswer,
) -> Result<Ended, WantOfMemory>
    requires room { IsSomeAnd (opened_on handles.old.seats call.now.seat)
        (CanAdd handles.old.most) }
    requires number { IsSomeAnd (named_on namings.old call.now.seat) (CanName naming) }
    requires view { naming.view < 2 ^ 28 }
    requires first { file ≡ record { path = naming.path; generation = 0 } }
    requires looks { Shows (T.is tree.old).told file.path look }
    ensures ok { (has : List NamingNow) → namings_on namings.old call.now.seat ≡ Some has →
        IfOk result (λ ended. NumberingBehind
        (λ shown. there_below call.now.request.now flags (room_in handles.old call.now.seat)
        parent.now naming shown has) look call.now.seat handles.old namings.old (T.is tree.old)
        ended handles.new namings.new (T.is tree.new)) }
    ensures clock { IfOk result (λ ended. Reads C.reads clock.old
        (moment_of ended.call) clock.new) }
    ensures err { OnErr result (WasCalledUpTo 1 (T.is tree.old) (T.is tree.new)) }
    ensures shown { OnErr result (is_look_fault look ≡ false) }
    ensures handles_err { OnErr result
        (Handled call.now.seat HandlesStay handles.old handles.new) }
    ensures names_err { OnErr result
        (SeatNamed call.now.seat NamesStay namings.old namings.new) }
    ensures clock_err { OnErr result (MayRead C.reads clock.old clock.new) }
{
    match look {
        LookAnswer::Is(Look::Missing) => {
            made_file(
                handles, namings, tree, clock, call, parent, naming, flags, file,
            )
        }
        // Also without O_EXCL: a kernel looks the name up first, and opens what it finds.
        LookAnswer::Is(Look::Folder | Look::File { .. }) => Ok(Ended::refused(EEXIST)),
        LookAnswer::Failed => Ok(Ended::refused(EIO)),
    }
}

/// How a CREATE ends where nothing stands at the path.
fn made_file<T: HostTree, C: Clock>(
    handles: &mut Handles,
    namings: &mut Namings,
    tree: &mut T,
    clock: &mut C,
    call: &NodeCall,
    parent: &Parent,
    naming: Naming,
    flags: u32,
    file: FileName,
) -> Result<Ended, WantOfMemory>
    requires room { IsSomeAnd (opened_on handles.old.seats call.now.seat)
        (CanAdd handles.old.most) }
    requires number { IsSomeAnd (named_on namings.old call.now.seat) (CanName naming) }
    requires view { naming.view < 2 ^ 28 }
    requires first { file ≡ record { path = naming.path; generation = 0 } }
    requires missing { IfSome (T.is tree.old).told (λ held.
        Look.Missing ≡ look_at held.present file.path) }
    ensures ok { (has : List NamingNow) → namings_on namings.old call.now.seat ≡ Some has →
        IfOk result (λ ended. Numbering
        (there_below call.now.request.now flags (room_in handles.old call.now.seat) parent.now
        naming Look.Missing has) call.now.seat handles.old namings.old (T.is tree.old)
        (done_of_ended ended) handles.new namings.new (T.is tree.new)) }
    ensures clock { IfOk result (λ ended. Reads C.reads clock.old
        (moment_of ended.call) clock.new) }
    ensures err { OnErr result (WasCalledUpTo 1 (T.is tree.old) (T.is tree.new)) }
    ensures handles_err { OnErr result
        (Handled call.now.seat HandlesStay handles.old handles.new) }
    ensures names_err { OnErr result
        (SeatNamed call.now.seat NamesStay namings.old namings.new) }
    ensures clock_err { OnErr result (MayRead C.reads clock.old clock.new) }
{
    let now = clock.now();
    let came = came_of(tree.create(&file.path, now))?;
    match came {
        Came::Done => {
            let node = give_number(namings, call.seat, naming);
            let attr = attr_of_file(call.request, node, true, 0, now);
            let fh = hand_out(
                handles,
                call.seat,
                file_handle(&parent.document, file, node, flags),
            );
            Ok(Ended::by_call(now, came, NodeAnswer::Created { attr, fh }))
        }
        Came::NotFile => Ok(Ended::missing(now)),
        Came::Failed => Ok(Ended::failed(now)),
    }
}
