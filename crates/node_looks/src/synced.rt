//! FUSE_FLUSH and FUSE_FSYNC: what was written to an open file is to be kept.

ghost use Rattle.std.specs.Prelude.{◌≡◌, [], ◌∷◌, IfOk, OnErr, Some, option_copied, None};
ghost use Rattle.host_tree.specs.Trees.{TreeIs};
ghost use Rattle.host_tree.specs.declared.tree.TreeCall.TheVariants as TreeCall;
ghost use Rattle.portal_model.specs.declared.reply.NodeAnswer.TheVariants as NodeAnswer;
ghost use Rattle.portal_model.specs.declared.request.NodeOp.TheVariants as NodeOp;
ghost use Rattle.portal_model.specs.Flush.{flush};
ghost use Rattle.portal_model.specs.Fsync.{fsync};
ghost use Rattle.node_looks.specs.Done.{Does};
ghost use Rattle.node_looks.specs.TreeCalls.{Calling, WasCalledOnce, unfailed};
ghost use Rattle.node_looks.specs.Walks.{ComesTo, Follows, used};
ghost use Rattle.node_looks.specs.declared.served.FileBook.{FileBook};

use crate::asked::{Asked, done, no_such_file, refusal, refused, room_for_look, tree_failed};
use crate::handed::unasked;
use crate::served::{NodeCall, NodeDone};
use host_tree::{HostTree, TreeDone};
use open_handles::{Handle, Handles};
use portal_base::files::FileName;
use portal_base::memory::WantOfMemory;
use portal_model::errno::EBADF;
use portal_model::reply::{Answer, NodeAnswer};
use std::alloc::Global;

/// Answers a caller's FLUSH of the open file of a number: nothing waits to be
/// written. A number of no open file is EBADF.
pub fn flush(alloc: Global, handles: &Handles, call: &NodeCall, fh: u64) -> NodeDone
    ensures done { call.now.request.now.op ≡ NodeOp.Flush fh → (book : FileBook) (tree : TreeIs) →
        Does book call.now handles.now tree result handles.now tree }
    ensures unclocked { result.now ≡ None }
{
    unasked(alloc, flushed(handles.get(call.seat, fh)))
}

/// The answer to a FLUSH.
fn flushed(handle: Option<&Handle>) -> Answer
    ensures { ComesTo (flush (option_copied handle.entry)) result }
{
    // No byte waits in the portal, so there is nothing to ask of the tree.
    match handle {
        Some(Handle::File { .. }) => Answer::Node(NodeAnswer::Empty),
        Some(Handle::Folder { .. }) | None => refusal(EBADF),
    }
}

/// Answers a caller's FSYNC of the open file of a number: the tree brings its bytes
/// to rest, whatever has become of its document. A number of no open file is EBADF.
///
/// Where memory is wanting, the tree was called once at most.
pub fn fsync<T: HostTree>(
    alloc: Global,
    handles: &Handles,
    tree: &mut T,
    call: &NodeCall,
    fh: u64,
) -> Result<NodeDone, WantOfMemory>
    ensures ok { call.now.request.now.op ≡ NodeOp.Fsync fh → (book : FileBook) →
        IfOk result (λ done. Does book call.now handles.now (T.is tree.old) done handles.now
        (T.is tree.new)) }
    ensures unclocked { IfOk result (λ done. done.now ≡ None) }
    ensures err { OnErr result (WasCalledOnce (T.is tree.old) (T.is tree.new)) }
{
    let room = room_for_look(alloc)?;
    let asked = synced(tree, handles.get(call.seat, fh))?;
    Ok(done(room, asked))
}

/// The answer to an FSYNC.
fn synced<T: HostTree>(tree: &mut T, handle: Option<&Handle>) -> Result<Asked, WantOfMemory>
    ensures ok { IfOk result (λ asked. Follows (fsync (option_copied handle.entry))
        (T.is tree.old) asked (T.is tree.new)) }
    ensures err { OnErr result (Calling (T.is tree.old) (unfailed TreeCall.Sync ∷ [])
        (T.is tree.old).told (T.is tree.new)) }
{
    match handle {
        None => Ok(refused(EBADF)),
        Some(handle) => synced_open(tree, handle),
    }
}

/// The answer to an FSYNC of an open handle.
fn synced_open<T: HostTree>(tree: &mut T, handle: &Handle) -> Result<Asked, WantOfMemory>
    ensures ok { IfOk result (λ asked. Follows (fsync (Some handle.now)) (T.is tree.old) asked
        (T.is tree.new)) }
    ensures err { OnErr result (Calling (T.is tree.old) (unfailed TreeCall.Sync ∷ [])
        (T.is tree.old).told (T.is tree.new)) }
{
    match handle {
        Handle::File { name, .. } => synced_file(tree, name),
        Handle::Folder { .. } => Ok(refused(EBADF)),
    }
}

/// The answer to an FSYNC of an open file.
fn synced_file<T: HostTree>(tree: &mut T, name: &FileName) -> Result<Asked, WantOfMemory>
    ensures ok { IfOk result (λ asked. Follows (used name.now NodeAnswer.Empty) (T.is tree.old)
        asked (T.is tree.new)) }
    ensures err { OnErr result (Calling (T.is tree.old) (unfailed TreeCall.Sync ∷ [])
        (T.is tree.old).told (T.is tree.new)) }
{
    match tree.sync(name) {
        TreeDone::Done => Ok(Asked {
            answer: Answer::Node(NodeAnswer::Empty),
            look: None,
        }),
        TreeDone::NotFile => Ok(no_such_file()),
        TreeDone::Failed => Ok(tree_failed()),
        TreeDone::Memory => Err(WantOfMemory),
    }
}
