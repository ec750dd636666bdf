//! The answer to a call whose request is no entry of the history.

ghost use Rattle.std.specs.Prelude.{◌≡◌, IfOk};
ghost use Rattle.dbus_calls.specs.Errors.{error_to};
ghost use Rattle.dbus_dispatch.specs.Replies.{refusal_of};
ghost use Rattle.dbus_dispatch.specs.Writable.{IsWritable};

use crate::ask::fits;
use dbus_calls::error_name::ErrorName;
use dbus_types::message::{Message, OutMessage};
use portal_base::memory::WantOfMemory;
use portal_model::reply::Refused;
use std::alloc::Global;

/// The error that answers a call whose request was refused. It can be written,
/// with each serial that isn't 0.
pub fn refused_message(
    alloc: Global,
    refused: &Refused,
    call: &Message,
) -> Result<OutMessage, WantOfMemory>
    ensures refuses { IfOk result (λ reply. reply ≡ error_to call.now (refusal_of refused.now)) }
    ensures writable { IfOk result IsWritable }
{
    fits(call.serial);
    let error = match refused {
        Refused::Memory => ErrorName::NoMemory,
        Refused::Full { .. } => ErrorName::LimitsExceeded,
    };
    error.answer_to(alloc, call)
}
