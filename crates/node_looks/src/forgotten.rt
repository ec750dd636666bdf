//! FUSE_FORGET and FUSE_BATCH_FORGET, which have no reply.

ghost use Rattle.std.specs.Prelude.{◌≡◌, None};
ghost use Rattle.host_tree.specs.Trees.{TreeIs};
ghost use Rattle.open_handles.specs.Opened.{HandleTable};
ghost use Rattle.node_looks.specs.Done.{Does, Forgets};
ghost use Rattle.node_looks.specs.declared.served.FileBook.{FileBook};
ghost use Rattle.node_looks.specs.declared.served.NodeCall.{NodeCall};

use crate::handed::unasked;
use crate::served::NodeDone;
use portal_model::reply::{Answer, NodeAnswer};
use std::alloc::Global;

/// Answers a FORGET or a BATCH_FORGET: nothing changes, and nothing is replied. No
/// answer depends on what the kernel remembers.
pub fn forget(alloc: Global) -> NodeDone
    ensures done { (book : FileBook) (call : NodeCall) (table : HandleTable) (tree : TreeIs) →
        Forgets call.request.now.op → Does book call table tree result table tree }
    ensures unclocked { result.now ≡ None }
{
    // Look-ups are counted elsewhere, and no answer depends on the counts.
    unasked(alloc, Answer::Node(NodeAnswer::Quiet))
}
