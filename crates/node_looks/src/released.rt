//! FUSE_RELEASE and FUSE_RELEASEDIR: an open handle is closed.

ghost use Rattle.std.specs.Prelude.{◌≡◌, None};
ghost use Rattle.host_tree.specs.Trees.{TreeIs};
ghost use Rattle.open_handles.specs.Opened.{handle_of, opened_on};
ghost use Rattle.portal_model.specs.declared.request.NodeOp.TheVariants as NodeOp;
ghost use Rattle.portal_model.specs.Release.{release};
ghost use Rattle.portal_model.specs.ReleaseDir.{release_dir};
ghost use Rattle.node_looks.specs.Done.{Does, DoneBy, is_file, is_folder, unasked};
ghost use Rattle.node_looks.specs.declared.served.FileBook.{FileBook};

use crate::asked::refusal;
use crate::handed::unasked;
use crate::served::{NodeCall, NodeDone};
use open_handles::{Handle, Handles};
use portal_model::errno::EBADF;
use portal_model::reply::{Answer, NodeAnswer};
use std::alloc::Global;

/// Answers a caller's RELEASE of the open file of a number: the handle is gone. A
/// number of no open file is EBADF.
pub fn release(alloc: Global, handles: &mut Handles, call: &NodeCall, fh: u64) -> NodeDone
    ensures done { call.now.request.now.op ≡ NodeOp.Release fh → (book : FileBook)
        (tree : TreeIs) → Does book call.now handles.old tree result handles.new tree }
    ensures unclocked { result.now ≡ None }
{
    unasked(alloc, released(handles, call.seat, fh))
}

/// Answers a caller's RELEASEDIR of the open folder of a number: the handle is gone.
/// A number of no open folder is EBADF.
pub fn release_dir(alloc: Global, handles: &mut Handles, call: &NodeCall, fh: u64) -> NodeDone
    ensures done { call.now.request.now.op ≡ NodeOp.ReleaseDir fh → (book : FileBook)
        (tree : TreeIs) → Does book call.now handles.old tree result handles.new tree }
    ensures unclocked { result.now ≡ None }
{
    unasked(alloc, released_dir(handles, call.seat, fh))
}

/// The answer to a RELEASE.
fn released(handles: &mut Handles, seat: u32, fh: u64) -> Answer
    ensures { (tree : TreeIs) → DoneBy
        (release fh (handle_of (opened_on handles.old.seats seat) fh)) (NodeOp.Release fh)
        seat handles.old tree (unasked result) handles.new tree }
{
    if !is_open_file(handles, seat, fh) {
        return refusal(EBADF);
    }
    handles.release(seat, fh);
    Answer::Node(NodeAnswer::Empty)
}

/// The answer to a RELEASEDIR.
fn released_dir(handles: &mut Handles, seat: u32, fh: u64) -> Answer
    ensures { (tree : TreeIs) → DoneBy
        (release_dir fh (handle_of (opened_on handles.old.seats seat) fh)) (NodeOp.ReleaseDir fh)
        seat handles.old tree (unasked result) handles.new tree }
{
    // A handle ends only by a request that is done: that of an open file stays.
    if !is_open_folder(handles, seat, fh) {
        return refusal(EBADF);
    }
    handles.release(seat, fh);
    Answer::Node(NodeAnswer::Empty)
}

/// Says whether a number names an open file of a seat.
fn is_open_file(handles: &Handles, seat: u32, fh: u64) -> bool
    ensures { result ≡ is_file (handle_of (opened_on handles.now.seats seat) fh) }
{
    matches!(handles.get(seat, fh), Some(Handle::File { .. }))
}

/// Says whether a number names an open folder of a seat.
fn is_open_folder(handles: &Handles, seat: u32, fh: u64) -> bool
    ensures { result ≡ is_folder (handle_of (opened_on handles.now.seats seat) fh) }
{
    matches!(handles.get(seat, fh), Some(Handle::Folder { .. }))
}
