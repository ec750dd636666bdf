//! The presented files that a call takes.

ghost use Rattle.std.specs.Prelude.{◌≡◌, ◌≤◌, drop, length, take};
ghost use Rattle.portal_model.specs.AddArguments.{are_presented};
ghost use Rattle.add_files.specs.Items.{are_below};
ghost use Rattle.add_serving.specs.Outcomes.{queue_left};

use portal_base::list::List;
use portal_base::names::HostPath;
use portal_model::entry::Fault;
use portal_model::request::AddRequest;

/// Says whether a call takes presented files that are there, and names some of
/// these.
pub(crate) fn are_presented(queue: &[HostPath], add: &AddRequest) -> bool
    ensures { result ≡ are_presented queue.now add.now }
{
    add.fds as usize <= queue.len() && are_below(add.fds, add.handles.as_slice())
}

/// Says whether each handle names one of so many files.
fn are_below(count: u32, handles: &[u32]) -> bool
    ensures { result ≡ are_below count handles.now }
{
    handles.iter().all(|handle| *handle < count)
}

/// The first files, of which there are so many.
pub(crate) fn taken(queue: &[HostPath], count: u32) -> &[HostPath]
    requires { count ≤ length queue.now }
    ensures { result.now ≡ take count queue.now }
{
    queue.split_at(count as usize).0
}

/// The first files leave the queue, unless a device failed.
pub(crate) fn leave(queue: &mut List<HostPath>, count: u32, fault: Fault)
    requires { count ≤ length queue.old }
    ensures { queue.new ≡ queue_left fault count queue.old }
{
    match fault {
        Fault::None => take_first(queue, count),
        // Where a device failed all is as before, the queue too.
        Fault::Tree | Fault::Keeper => {}
    }
}

/// The first files leave the queue.
fn take_first(queue: &mut List<HostPath>, count: u32)
    requires { count ≤ length queue.old }
    ensures { queue.new ≡ drop count queue.old }
{
    for taken in 0..count {
        queue.remove(0);
    }
}
