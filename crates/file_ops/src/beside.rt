//! FUSE_CREATE of another name than the document's in its folder: a temporary is made, and
//! opened.

ghost use Rattle.std.specs.Prelude.{◌≡◌, ◌||◌, ◌<◌, ◌^◌, IfOk, IsSome, IsSomeAnd, OnErr, not};
ghost use Rattle.open_handles.specs.Opened.{CanAdd, opened_on};
ghost use Rattle.portal_model.specs.NodeVerdict.{HandlesStay};
ghost use Rattle.portal_model.specs.NodeVerdict.{is_dots};
ghost use Rattle.portal_model.specs.Create.{add_temp, next_temp_node};
ghost use Rattle.save_files.specs.Own.{CanAdd as CanAddTemp, own_on};
ghost use Rattle.node_looks.specs.Done.{MayRead, Reads, room_in};
ghost use Rattle.node_looks.specs.OpenHandles.{Handled};
ghost use Rattle.node_looks.specs.TreeCalls.{WasCalledUpTo};
ghost use Rattle.file_ops.specs.Creates.{SavingWith, other_made, temp_added};
ghost use Rattle.file_ops.specs.SeatTemps.{TempsKept};
ghost use Rattle.file_ops.specs.Temporaries.{next_name};
ghost use Rattle.file_ops.specs.Tries.{done_of_ended, done_of_tried, moment_of};

use crate::created::DocumentFolder;
use crate::temporaries::{add_temp, is_dots, next_temp, own_called, take_temp};
use crate::tried::{CallMade, Came, Ended, Tried, came_of};
use app_view::node_of;
use host_tree::HostTree;
use node_looks::attributes::attr_of_file;
use node_looks::handed::{hand_out, take_room};
use node_looks::served::NodeCall;
use open_handles::Handles;
use open_handles::open_flags::file_handle;
use portal_base::files::FileName;
use portal_base::memory::{Replica, WantOfMemory};
use portal_base::outside::Clock;
use portal_model::errno::{EACCES, EEXIST, EMFILE};
use portal_model::place::Place;
use portal_model::reply::NodeAnswer;
use portal_model::temporary::Temp;
use save_files::Temps;
use std::alloc::Global;

/// How a CREATE of another name than the document's ends in the folder of a document.
pub(crate) fn make_other<T: HostTree, C: Clock>(
    alloc: Global,
    handles: &mut Handles,
    temps: &mut Temps,
    tree: &mut T,
    clock: &mut C,
    call: &NodeCall,
    folder: &DocumentFolder,
    name: &[u8],
    flags: u32,
) -> Result<Tried, WantOfMemory>
    requires entered { IsSome (opened_on handles.old.seats call.now.seat) }
    requires kept { IsSome (own_on temps.old.seats call.now.seat) }
    requires view { folder.now.view < 2 ^ 28 }
    ensures ok { IfOk result (λ tried. SavingWith
        (other_made call.now.request.now name.now flags (room_in handles.old call.now.seat)
        folder.now) call.now.seat handles.old temps.old (T.is tree.old) (done_of_tried tried)
        handles.new temps.new (T.is tree.new)) }
    ensures clock { IfOk result (λ tried.
        Reads C.reads clock.old (moment_of tried.ended.call) clock.new) }
    ensures err { OnErr result (WasCalledUpTo 1 (T.is tree.old) (T.is tree.new)) }
    ensures handles_err { OnErr result
        (Handled call.now.seat HandlesStay handles.old handles.new) }
    ensures temps_err { OnErr result (TempsKept temps.old temps.new) }
    ensures clock_err { OnErr result (MayRead C.reads clock.old clock.new) }
{
    // In the folder of a document that is a folder itself no other name may be made.
    if is_denied(folder, name) {
        return Ok(Tried::unlooked(Ended::refused(EACCES)));
    }
    let document = folder.document.id;
    if own_called(temps, call.seat, folder.view, document, name).is_some() {
        return Ok(Tried::unlooked(Ended::refused(EEXIST)));
    }
    // Where no handle or no number can be had nothing is to be made, so the room for both comes
    // ahead of the call.
    if !take_room(handles, call.seat)? {
        return Ok(Tried::unlooked(Ended::refused(EMFILE)));
    }
    if !take_temp(temps, call.seat)? {
        return Ok(Tried::unlooked(Ended::refused(EMFILE)));
    }
    let ended = make_temp(
        alloc, handles, temps, tree, clock, call, folder, name, flags,
    )?;
    Ok(Tried::unlooked(ended))
}

/// Says whether a name that isn't the document's may not be made in its folder.
fn is_denied(folder: &DocumentFolder, name: &[u8]) -> bool
    ensures { result ≡ (folder.now.document.folder || (is_dots name.now
        || not folder.now.may_write)) }
{
    folder.document.folder || is_dots(name) || !folder.may_write
}

/// How the request ends on a temporary for which there is room.
fn make_temp<T: HostTree, C: Clock>(
    alloc: Global,
    handles: &mut Handles,
    temps: &mut Temps,
    tree: &mut T,
    clock: &mut C,
    call: &NodeCall,
    folder: &DocumentFolder,
    name: &[u8],
    flags: u32,
) -> Result<Ended, WantOfMemory>
    requires room { IsSomeAnd (opened_on handles.old.seats call.now.seat)
        (CanAdd handles.old.most) }
    requires number { IsSomeAnd (own_on temps.old.seats call.now.seat) CanAddTemp }
    requires path { 0 < temps.old.room }
    requires view { folder.now.view < 2 ^ 28 }
    ensures ok { IfOk result (λ ended. SavingWith
        (temp_added call.now.request.now name.now flags (room_in handles.old call.now.seat)
        folder.now) call.now.seat handles.old temps.old (T.is tree.old) (done_of_ended ended)
        handles.new temps.new (T.is tree.new)) }
    ensures clock { IfOk result (λ ended. Reads C.reads clock.old
        (moment_of ended.call) clock.new) }
    ensures err { OnErr result (WasCalledUpTo 1 (T.is tree.old) (T.is tree.new)) }
    ensures handles_err { OnErr result (handles.new ≡ handles.old) }
    ensures temps_err { OnErr result (temps.new ≡ temps.old) }
    ensures clock_err { OnErr result (MayRead C.reads clock.old clock.new) }
{
    // Memory for the names is taken ahead of the call that makes the file.
    let temp = next_temp(alloc, temps, folder.view, &folder.document, name)?;
    let file = temp.file.replica(alloc)?;
    make_fresh(handles, temps, tree, clock, call, folder, flags, temp, file)
}

/// How the request ends on a temporary whose file is to be made.
fn make_fresh<T: HostTree, C: Clock>(
    handles: &mut Handles,
    temps: &mut Temps,
    tree: &mut T,
    clock: &mut C,
    call: &NodeCall,
    folder: &DocumentFolder,
    flags: u32,
    temp: Temp,
    file: FileName,
) -> Result<Ended, WantOfMemory>
    requires room { IsSomeAnd (opened_on handles.old.seats call.now.seat)
        (CanAdd handles.old.most) }
    requires number { IsSomeAnd (own_on temps.old.seats call.now.seat) CanAddTemp }
    requires path { 0 < temps.old.room }
    requires view { folder.now.view < 2 ^ 28 }
    requires file { file ≡ temp.file }
    requires next { file ≡ next_name temps.old folder.now.document }
    ensures ok { IfOk result (λ ended. SavingWith (λ has. add_temp call.now.request.now flags
        (room_in handles.old call.now.seat) (next_temp_node has folder.now.view)
        folder.now.document temp) call.now.seat handles.old temps.old (T.is tree.old)
        (done_of_ended ended) handles.new temps.new (T.is tree.new)) }
    ensures clock { IfOk result (λ ended. Reads C.reads clock.old
        (moment_of ended.call) clock.new) }
    ensures err { OnErr result (WasCalledUpTo 1 (T.is tree.old) (T.is tree.new)) }
    ensures handles_err { OnErr result (handles.new ≡ handles.old) }
    ensures temps_err { OnErr result (temps.new ≡ temps.old) }
    ensures clock_err { OnErr result (MayRead C.reads clock.old clock.new) }
{
    let now = clock.now();
    let came = came_of(tree.fresh(&file, now))?;
    let made = CallMade {
        now: Some(now),
        generation: Some(file.generation),
        came,
    };
    match came {
        Came::Done => {
            let k = add_temp(temps, call.seat, temp);
            let node = node_of(Place::Temporary {
                view: folder.view,
                k,
            });
            let attr = attr_of_file(call.request, node, true, 0, now);
            let fh = hand_out(
                handles,
                call.seat,
                file_handle(&folder.document, file, node, flags),
            );
            Ok(Ended::of_call(made, NodeAnswer::Created { attr, fh }))
        }
        Came::NotFile => Ok(Ended::of_call(made, NodeAnswer::Empty)),
        Came::Failed => Ok(Ended::of_call(made, NodeAnswer::Empty)),
    }
}
