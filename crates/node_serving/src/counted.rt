//! The nodes that the kernel was told of.

ghost use Rattle.std.specs.Prelude.{◌+◌, ◌<◌, ◌≤◌};
ghost use Rattle.node_serving.specs.Counted.{AreForgotten, Counts, CountsEntry, IsCounted};

use inode_table::InodeTable;
use portal_model::reply::{Answer, NodeAnswer};
use portal_model::request::{ForgetItem, NodeOp, NodeRequest};

/// Counts what a served request tells of the kernel's look-ups: an entry is one more
/// of its node, and what the kernel forgets is taken back.
pub(crate) fn count(counts: &mut InodeTable, seat: u32, request: &NodeRequest, answer: &Answer)
    requires { 0 < counts.old.room }
    ensures counts { Counts seat request.now answer.now counts.old.counts counts.new.counts }
    ensures room { counts.old.room ≤ counts.new.room + 1 }
{
    let Answer::Node(told) = answer else {
        return;
    };
    match &request.op {
        NodeOp::Forget { count } => counts.forget(seat, request.node, *count),
        NodeOp::BatchForget { nodes } => forget_each(counts, seat, nodes.as_slice()),
        _ => count_entry(counts, seat, told),
    }
}

/// Counts the node of an entry that is answered.
fn count_entry(counts: &mut InodeTable, seat: u32, told: &NodeAnswer)
    requires { 0 < counts.old.room }
    ensures counts { CountsEntry seat told.now counts.old.counts counts.new.counts }
    ensures room { counts.old.room ≤ counts.new.room + 1 }
{
    match told {
        NodeAnswer::Entry(attr) => remember(counts, seat, attr.node),
        NodeAnswer::Created { attr, .. } => remember(counts, seat, attr.node),
        _ => {}
    }
}

/// Counts a node once more, for which there is room.
fn remember(counts: &mut InodeTable, seat: u32, node: u64)
    requires { 0 < counts.old.room }
    ensures counts { IsCounted seat node counts.old.counts counts.new.counts }
    ensures room { counts.old.room ≤ counts.new.room + 1 }
{
    let _counted = counts.remember(seat, node);
}

/// Takes look-ups of several nodes back, one node after another.
fn forget_each(counts: &mut InodeTable, seat: u32, items: &[ForgetItem])
    ensures counts { AreForgotten seat items.now counts.old.counts counts.new.counts }
    ensures room { counts.old.room ≤ counts.new.room }
{
    for item in items {
        counts.forget(seat, item.node, item.count);
    }
}
