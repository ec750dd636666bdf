//! FUSE_CREATE in the folder of a document, and where no file can be made.

ghost use Rattle.std.specs.Prelude.{◌≡◌, ℕ, ◌<◌, ◌^◌, IfOk, IfSome, IsSome, IsSomeAnd, List, None, OnErr, Some, false, option_map, true};
ghost use Rattle.host_tree.specs.Trees.{Looks, is_look_fault};
ghost use Rattle.portal_base.specs.Content.{look_at};
ghost use Rattle.portal_base.specs.declared.files.Look.TheVariants as Look;
ghost use Rattle.open_handles.specs.Opened.{CanAdd, opened_on};
ghost use Rattle.portal_base.specs.declared.who.Who.{Who};
ghost use Rattle.portal_model.specs.declared.naming.Naming.{Naming as NamingNow};
ghost use Rattle.portal_model.specs.declared.request.NodeRequest.{NodeRequest};
ghost use Rattle.portal_model.specs.Create.{create, create_at, create_in, create_own, create_there};
ghost use Rattle.portal_model.specs.Errno.{enotdir};
ghost use Rattle.portal_model.specs.NodeVerdict.{HandlesStay, Room, by_place, no_file};
ghost use Rattle.portal_model.specs.Place.{FolderOf};
ghost use Rattle.portal_model.specs.SeatNames.{SeatTemps as SeatTempsNow};
ghost use Rattle.app_view.specs.declared.book.ViewBook.{ViewBook};
ghost use Rattle.save_files.specs.Own.{own_on};
ghost use Rattle.node_looks.specs.Done.{MayRead, Reads, room_in};
ghost use Rattle.node_looks.specs.OpenHandles.{Handled};
ghost use Rattle.node_looks.specs.Sights.{sight_of};
ghost use Rattle.node_looks.specs.TreeCalls.{WasCalledUpTo};
ghost use Rattle.file_ops.specs.Creates.{Opening, OpeningBehind, SavingWith, folder_seen, folder_sight, is_nowhere, own_file, target_walk};
ghost use Rattle.file_ops.specs.SeatTemps.{TempsKept};
ghost use Rattle.file_ops.specs.Tries.{Goes, done_of_ended, done_of_tried, moment_of};

use crate::beside::make_other;
use crate::tried::{Came, Ended, Tried, came_of, room_for_looks};
use app_view::{SeenDocument, node_of};
use document_records::Document;
use host_tree::{HostTree, LookAnswer};
use node_looks::attributes::attr_of_file;
use node_looks::entry::{is_name_of, is_too_long};
use node_looks::handed::{hand_out, take_room};
use node_looks::served::{NodeCall, NodeDone};
use node_looks::sight::SeenPlace;
use open_handles::Handles;
use open_handles::open_flags::{file_handle, has_no_mode};
use portal_base::files::{FileName, Look};
use portal_base::memory::{Replica, WantOfMemory};
use portal_base::names::HostPath;
use portal_base::outside::Clock;
use portal_model::errno::{
    EACCES, EEXIST, EINVAL, EIO, EMFILE, ENAMETOOLONG, ENOENT, ENOTDIR, EPERM,
};
use portal_model::place::Place;
use portal_model::reply::NodeAnswer;
use save_files::Temps;
use std::alloc::Global;

/// What a CREATE comes to where no file can be made.
#[derive(Clone, Copy)]
enum Target<'a> {
    /// It is refused.
    Refused(u32),
    /// A file of this path stands in the place of the folder.
    File(&'a HostPath),
    /// A file of this name does.
    Named(&'a FileName),
}

/// The folder of a document as a caller sees it: by a copy, since what a connection has made
/// is lent, and more is made meanwhile.
#[derive(Drop)]
pub(crate) struct DocumentFolder {
    /// The view.
    pub view: u32,
    /// The document.
    pub document: Document,
    /// Whether the view's subject may write its file.
    pub may_write: bool,
}

/// What is seen there, by a copy.
pub(crate) fn folder_of(
    alloc: Global,
    view: u32,
    seen: SeenDocument,
) -> Result<DocumentFolder, WantOfMemory>
    ensures { IfOk result (λ folder. folder ≡ folder_seen view seen.entry) }
{
    Ok(DocumentFolder {
        view,
        document: seen.document.replica(alloc)?,
        may_write: seen.may_write,
    })
}

/// Answers a CREATE of a name at a place where no file can be made, with the flags of
/// open(2). It takes a look at what stands there, where that is a file.
pub(crate) fn create_nowhere<T: HostTree>(
    alloc: Global,
    tree: &mut T,
    place: Option<SeenPlace>,
    name: &[u8],
    flags: u32,
) -> Result<NodeDone, WantOfMemory>
    requires { IfSome place (λ seen. is_nowhere seen ≡ true) }
    ensures ok { (b : ViewBook) (who : Who) (r : NodeRequest) (room : Room)
        (namings : List NamingNow) (temps : SeatTempsNow) → IfOk result (λ done. Goes
        (create r name.now flags (option_map (sight_of b who) place.entry) room namings temps)
        (T.is tree.old) done HandlesStay (T.is tree.new)) }
    ensures unclocked { IfOk result (λ done. done.now ≡ None) }
    ensures err { OnErr result (tree.new ≡ tree.old) }
{
    let room = room_for_looks(alloc)?;
    let tried = refused_at(tree, find_target(place, name, flags));
    Ok(tried.done(room))
}

/// What the request comes to by the name that it gives and by what the caller sees.
fn find_target<'a>(place: Option<SeenPlace<'a>>, name: &[u8], flags: u32) -> Target<'a>
    requires { IfSome place (λ seen. is_nowhere seen ≡ true) }
    ensures { (b : ViewBook) (who : Who) (r : NodeRequest) (room : Room)
        (namings : List NamingNow) (temps : SeatTempsNow) →
        create r name.now flags (option_map (sight_of b who) place.entry) room namings temps
        ≡ target_walk result }
{
    if has_no_mode(flags) {
        return Target::Refused(EINVAL);
    }
    if is_too_long(name) {
        return Target::Refused(ENAMETOOLONG);
    }
    match place {
        Some(place) => target_at(place),
        None => Target::Refused(ENOENT),
    }
}

/// What the request comes to at a place that the caller sees.
fn target_at<'a>(place: SeenPlace<'a>) -> Target<'a>
    requires { is_nowhere place ≡ true }
    ensures { (b : ViewBook) (who : Who) (r : NodeRequest) (name : List ℕ) (flags : ℕ)
        (room : Room) (namings : List NamingNow) (temps : SeatTempsNow) →
        by_place (Some (sight_of b who place.entry)) (no_file enotdir)
        (create_in r name flags room namings temps) ≡ target_walk result }
{
    match place {
        SeenPlace::File { seen, .. } => Target::File(&seen.document.path),
        SeenPlace::Temporary { temp, .. } => Target::Named(temp.file),
        SeenPlace::Root { .. } => Target::Refused(EPERM),
        SeenPlace::Views => Target::Refused(EPERM),
        SeenPlace::Below { .. } => unreachable!(),
        SeenPlace::Folder { .. } => unreachable!(),
    }
}

/// How the request ends there.
fn refused_at<T: HostTree>(tree: &mut T, target: Target) -> Tried
    ensures goes { Goes (target_walk target.entry) (T.is tree.old) (done_of_tried result)
        HandlesStay (T.is tree.new) }
    ensures call { result.ended.call ≡ None }
{
    match target {
        Target::Refused(errno) => Tried::unlooked(Ended::refused(errno)),
        Target::File(path) => Tried::refused_on_file(tree, path, ENOTDIR),
        Target::Named(name) => Tried::refused_on_name(tree, name, ENOTDIR),
    }
}

/// Answers a CREATE of a name in the folder of a document, with the flags of open(2): the
/// document's file is made, where it isn't there, or another file that is to be renamed
/// onto it; it is opened.
///
/// The room for the handle is taken before the tree is called, and for a temporary that for
/// its number. The document's own file takes a look and one more call of the tree, a
/// temporary one call, and for that the moment of now. Where memory is wanting the tree was
/// called twice at most, and no file has changed.
pub(crate) fn create_in_folder<T: HostTree, C: Clock>(
    alloc: Global,
    handles: &mut Handles,
    temps: &mut Temps,
    tree: &mut T,
    clock: &mut C,
    call: &NodeCall,
    folder: &DocumentFolder,
    name: &[u8],
    flags: u32,
) -> Result<NodeDone, WantOfMemory>
    requires entered { IsSome (opened_on handles.old.seats call.now.seat) }
    requires kept { IsSome (own_on temps.old.seats call.now.seat) }
    requires view { folder.now.view < 2 ^ 28 }
    ensures ok { (namings : List NamingNow) → IfOk result (λ done. SavingWith
        (create call.now.request.now name.now flags (Some (folder_sight folder.now))
        (room_in handles.old call.now.seat) namings) call.now.seat handles.old temps.old
        (T.is tree.old) done handles.new temps.new (T.is tree.new)) }
    ensures clock { IfOk result (λ done. Reads C.reads clock.old done.now clock.new) }
    ensures err { OnErr result (WasCalledUpTo 2 (T.is tree.old) (T.is tree.new)) }
    ensures handles_err { OnErr result
        (Handled call.now.seat HandlesStay handles.old handles.new) }
    ensures temps_err { OnErr result (TempsKept temps.old temps.new) }
    ensures clock_err { OnErr result (MayRead C.reads clock.old clock.new) }
{
    let room = room_for_looks(alloc)?;
    if has_no_mode(flags) {
        return Ok(Tried::unlooked(Ended::refused(EINVAL)).done(room));
    }
    if is_too_long(name) {
        return Ok(Tried::unlooked(Ended::refused(ENAMETOOLONG)).done(room));
    }
    let tried = made_in(
        alloc, handles, temps, tree, clock, call, folder, name, flags,
    )?;
    Ok(tried.done(room))
}

/// How the request ends on a name that isn't too long.
fn made_in<T: HostTree, C: Clock>(
    alloc: Global,
    handles: &mut Handles,
    temps: &mut Temps,
    tree: &mut T,
    clock: &mut C,
    call: &NodeCall,
    folder: &DocumentFolder,
    name: &[u8],
    flags: u32,
) -> Result<Tried, WantOfMemory>
    requires entered { IsSome (opened_on handles.old.seats call.now.seat) }
    requires kept { IsSome (own_on temps.old.seats call.now.seat) }
    requires view { folder.now.view < 2 ^ 28 }
    ensures ok { (namings : List NamingNow) → IfOk result (λ tried. SavingWith
        (λ has. create_in call.now.request.now name.now flags
        (room_in handles.old call.now.seat) namings has
        (FolderOf folder.now.view folder.now.document folder.now.may_write)) call.now.seat
        handles.old temps.old (T.is tree.old) (done_of_tried tried) handles.new temps.new
        (T.is tree.new)) }
    ensures clock { IfOk result (λ tried.
        Reads C.reads clock.old (moment_of tried.ended.call) clock.new) }
    ensures err { OnErr result (WasCalledUpTo 2 (T.is tree.old) (T.is tree.new)) }
    ensures handles_err { OnErr result
        (Handled call.now.seat HandlesStay handles.old handles.new) }
    ensures temps_err { OnErr result (TempsKept temps.old temps.new) }
    ensures clock_err { OnErr result (MayRead C.reads clock.old clock.new) }
{
    if is_name_of(&folder.document.path, name) {
        make_own(alloc, handles, tree, clock, call, folder, flags)
    } else {
        make_other(
            alloc, handles, temps, tree, clock, call, folder, name, flags,
        )
    }
}

/// How the request ends on the document's own name.
fn make_own<T: HostTree, C: Clock>(
    alloc: Global,
    handles: &mut Handles,
    tree: &mut T,
    clock: &mut C,
    call: &NodeCall,
    folder: &DocumentFolder,
    flags: u32,
) -> Result<Tried, WantOfMemory>
    requires entered { IsSome (opened_on handles.old.seats call.now.seat) }
    requires view { folder.now.view < 2 ^ 28 }
    ensures ok { IfOk result (λ tried. Opening
        (create_own call.now.request.now flags (room_in handles.old call.now.seat)
        folder.now.view folder.now.document folder.now.may_write) call.now.seat handles.old
        (T.is tree.old) (done_of_tried tried) handles.new (T.is tree.new)) }
    ensures clock { IfOk result (λ tried.
        Reads C.reads clock.old (moment_of tried.ended.call) clock.new) }
    ensures err { OnErr result (WasCalledUpTo 2 (T.is tree.old) (T.is tree.new)) }
    ensures handles_err { OnErr result
        (Handled call.now.seat HandlesStay handles.old handles.new) }
    ensures clock_err { OnErr result (MayRead C.reads clock.old clock.new) }
{
    if !folder.may_write {
        return Ok(Tried::unlooked(Ended::refused(EACCES)));
    }
    // Where no handle can be had nothing is to be made, so the room for it comes ahead of the
    // call.
    if !take_room(handles, call.seat)? {
        return Ok(Tried::unlooked(Ended::refused(EMFILE)));
    }
    make_new(alloc, handles, tree, clock, call, folder, flags)
}

/// How the request ends on a file that is to be made; room was taken for the handle.
fn make_new<T: HostTree, C: Clock>(
    alloc: Global,
    handles: &mut Handles,
    tree: &mut T,
    clock: &mut C,
    call: &NodeCall,
    folder: &DocumentFolder,
    flags: u32,
) -> Result<Tried, WantOfMemory>
    requires room { IsSomeAnd (opened_on handles.old.seats call.now.seat)
        (CanAdd handles.old.most) }
    requires view { folder.now.view < 2 ^ 28 }
    ensures ok { IfOk result (λ tried. Opening
        (create_at call.now.request.now flags (room_in handles.old call.now.seat)
        (own_file folder.now)) call.now.seat handles.old (T.is tree.old) (done_of_tried tried)
        handles.new (T.is tree.new)) }
    ensures clock { IfOk result (λ tried.
        Reads C.reads clock.old (moment_of tried.ended.call) clock.new) }
    ensures err { OnErr result (WasCalledUpTo 2 (T.is tree.old) (T.is tree.new)) }
    ensures handles_err { OnErr result
        (Handled call.now.seat HandlesStay handles.old handles.new) }
    ensures clock_err { OnErr result (MayRead C.reads clock.old clock.new) }
{
    // Memory for the handle's path is taken ahead of the call that makes the file.
    let path = folder.document.path.replica(alloc)?;
    let look = tree.look(&folder.document.path);
    let file = FileName {
        path,
        generation: 0,
    };
    let ended = make_looked(handles, tree, clock, call, flags, folder, file, look)?;
    Ok(Tried {
        look: Some(look),
        ended,
    })
}

/// How the request ends behind the look for the file.
fn make_looked<T: HostTree, C: Clock>(
    handles: &mut Handles,
    tree: &mut T,
    clock: &mut C,
    call: &NodeCall,
    flags: u32,
    folder: &DocumentFolder,
    file: FileName,
    look: LookAnswer,
) -> Result<Ended, WantOfMemory>
    requires room { IsSomeAnd (opened_on handles.old.seats call.now.seat)
        (CanAdd handles.old.most) }
    requires view { folder.now.view < 2 ^ 28 }
    requires first { file ≡ record { path = folder.now.document.path; generation = 0 } }
    requires looks { Looks (T.is tree.old).told file.path look }
    ensures ok { IfOk result (λ ended. OpeningBehind
        (create_there call.now.request.now flags (room_in handles.old call.now.seat)
        (own_file folder.now)) look call.now.seat handles.old (T.is tree.old)
        ended handles.new (T.is tree.new)) }
    ensures clock { IfOk result (λ ended. Reads C.reads clock.old
        (moment_of ended.call) clock.new) }
    ensures err { OnErr result (WasCalledUpTo 1 (T.is tree.old) (T.is tree.new)) }
    ensures shown { OnErr result (is_look_fault look ≡ false) }
    ensures handles_err { OnErr result
        (Handled call.now.seat HandlesStay handles.old handles.new) }
    ensures clock_err { OnErr result (MayRead C.reads clock.old clock.new) }
{
    match look {
        LookAnswer::Is(Look::Missing) => make_file(handles, tree, clock, call, flags, folder, file),
        // Also without O_EXCL: a kernel looks the name up first, and opens what it finds.
        LookAnswer::Is(Look::Folder | Look::File { .. }) => Ok(Ended::refused(EEXIST)),
        LookAnswer::Failed => Ok(Ended::refused(EIO)),
    }
}

/// How the request ends where nothing stands at the path.
fn make_file<T: HostTree, C: Clock>(
    handles: &mut Handles,
    tree: &mut T,
    clock: &mut C,
    call: &NodeCall,
    flags: u32,
    folder: &DocumentFolder,
    file: FileName,
) -> Result<Ended, WantOfMemory>
    requires room { IsSomeAnd (opened_on handles.old.seats call.now.seat)
        (CanAdd handles.old.most) }
    requires view { folder.now.view < 2 ^ 28 }
    requires first { file ≡ record { path = folder.now.document.path; generation = 0 } }
    requires missing { IfSome (T.is tree.old).told (λ held.
        Look.Missing ≡ look_at held.present file.path) }
    ensures ok { IfOk result (λ ended. Opening
        (create_there call.now.request.now flags (room_in handles.old call.now.seat)
        (own_file folder.now) Look.Missing) call.now.seat handles.old
        (T.is tree.old) (done_of_ended ended) handles.new (T.is tree.new)) }
    ensures clock { IfOk result (λ ended. Reads C.reads clock.old
        (moment_of ended.call) clock.new) }
    ensures err { OnErr result (WasCalledUpTo 1 (T.is tree.old) (T.is tree.new)) }
    ensures handles_err { OnErr result
        (Handled call.now.seat HandlesStay handles.old handles.new) }
    ensures clock_err { OnErr result (MayRead C.reads clock.old clock.new) }
{
    let now = clock.now();
    let came = came_of(tree.create(&file.path, now))?;
    match came {
        Came::Done => {
            let node = node_of(Place::File {
                view: folder.view,
                id: folder.document.id,
            });
            let attr = attr_of_file(call.request, node, true, 0, now);
            let fh = hand_out(
                handles,
                call.seat,
                file_handle(&folder.document, file, node, flags),
            );
            Ok(Ended::by_call(now, came, NodeAnswer::Created { attr, fh }))
        }
        Came::NotFile => Ok(Ended::missing(now)),
        Came::Failed => Ok(Ended::failed(now)),
    }
}
