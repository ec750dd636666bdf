//! Handles that are handed out, and what is answered without the tree.

ghost use Rattle.std.specs.Prelude.{◌≡◌, IfOk, IsSome, IsSomeAnd, not, true};
ghost use Rattle.open_handles.specs.Opened.{CanAdd, opened_on};
ghost use Rattle.portal_model.specs.NodeVerdict.{HandlesStay, Opens, next_handle};
ghost use Rattle.node_looks.specs.Done.{room_in, unasked};
ghost use Rattle.node_looks.specs.OpenHandles.{Handled};

use crate::served::NodeDone;
use open_handles::{Handle, HandleError, Handles};
use portal_base::list::List;
use portal_base::memory::WantOfMemory;
use portal_model::entry::Fault;
use portal_model::reply::Answer;
use std::alloc::Global;

/// Takes room for the next handle of a seat; `false` exactly where the seat may open
/// no more.
pub fn take_room(handles: &mut Handles, seat: u32) -> Result<bool, WantOfMemory>
    requires { IsSome (opened_on handles.old.seats seat) }
    ensures full { IfOk result (λ free. (room_in handles.old seat).full ≡ not free) }
    ensures room { IfOk result (λ free. free ≡ true →
        IsSomeAnd (opened_on handles.new.seats seat) (CanAdd handles.new.most)) }
    ensures kept { Handled seat HandlesStay handles.old handles.new }
{
    match handles.reserve(seat) {
        Ok(()) => Ok(true),
        Err(HandleError::Full) => Ok(false),
        Err(HandleError::Memory) => Err(WantOfMemory),
    }
}

/// Hands out a handle for which room was taken: its number.
pub fn hand_out(handles: &mut Handles, seat: u32, handle: Handle) -> u64
    requires { IsSomeAnd (opened_on handles.old.seats seat) (CanAdd handles.old.most) }
    ensures number { result ≡ next_handle (room_in handles.old seat) }
    ensures opens { Handled seat (Opens handle) handles.old handles.new }
{
    match handles.add(seat, handle) {
        Ok(fh) => fh,
        Err(_) => unreachable!(),
    }
}

/// What was done without the tree and the clock.
pub fn unasked(alloc: Global, answer: Answer) -> NodeDone
    ensures { result ≡ unasked answer }
{
    NodeDone {
        answer,
        looks: List::new(alloc),
        listed: None,
        now: None,
        generation: None,
        fault: Fault::None,
    }
}
