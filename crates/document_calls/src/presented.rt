//! Present: a file joins the queue of its connection.

ghost use Rattle.std.specs.Prelude.{◌≡◌, ◌<◌, ◌^◌, IfOk, OnErr};
ghost use Rattle.portal_model.specs.declared.request.Request.TheVariants as Request;
ghost use Rattle.portal_model.specs.declared.state.Connection.{Connection};
ghost use Rattle.portal_model.specs.Present.{may_present};
ghost use Rattle.portal_model.specs.State.{State};
ghost use Rattle.portal_model.specs.Valid.{Valid};
ghost use Rattle.document_calls.specs.Books.{IsQueue, queue_set};
ghost use Rattle.document_calls.specs.Queues.{presented, queued};
ghost use Rattle.document_calls.specs.Serves.{Serves};

use crate::arguments::ended_path;
use crate::served::{ServedCall, answered};
use portal_base::list::List;
use portal_base::memory::WantOfMemory;
use portal_base::names::HostPath;
use portal_base::who::Who;
use portal_model::reply::{Answer, Code};
use std::alloc::Global;

/// Puts a path at the end of the queue of its connection, and answers its place
/// there. The limit of queued files is below 2^32.
///
/// A path that is none is `InvalidArgument`; of an application, one that is not
/// in its own folder is `NotAllowed`; behind as many as the limit it is
/// `LimitsExceeded`. The queue is then as before.
pub fn present(
    alloc: Global,
    queue: &mut List<HostPath>,
    limit: u64,
    who: &Who,
    path: &[u8],
) -> Result<ServedCall, WantOfMemory>
    requires { limit < 2 ^ 32 }
    ensures ok { IfOk result (λ served. (s : State) (c : Connection) → Valid s →
        IsQueue s c queue.old limit → c.who ≡ who.now →
        Serves s c (Request.Present path.now) served.given (queue_set s c queue.new)
        served.answer) }
    ensures err { OnErr result (queue.new ≡ queue.old) }
{
    match put(alloc, queue, limit, who, path) {
        Ok(answer) => Ok(answered(alloc, answer)),
        Err(error) => Err(error),
    }
}

/// The answer.
fn put(
    alloc: Global,
    queue: &mut List<HostPath>,
    limit: u64,
    who: &Who,
    path: &[u8],
) -> Result<Answer, WantOfMemory>
    requires { limit < 2 ^ 32 }
    ensures ok { IfOk result (λ answer. (queue.new, answer)
        ≡ presented queue.old limit who.now path.now) }
    ensures err { OnErr result (queue.new ≡ queue.old) }
{
    match ended_path(alloc, path)? {
        None => Ok(Answer::Refused(Code::InvalidArgument)),
        Some(path) if may_present(who, &path) => push(queue, limit, path),
        Some(_) => Ok(Answer::Refused(Code::NotAllowed)),
    }
}

/// Puts a path at the end of a queue that has room for it.
fn push(queue: &mut List<HostPath>, limit: u64, path: HostPath) -> Result<Answer, WantOfMemory>
    requires { limit < 2 ^ 32 }
    ensures ok { IfOk result (λ answer. (queue.new, answer) ≡ queued queue.old limit path) }
    ensures err { OnErr result (queue.new ≡ queue.old) }
{
    let place = queue.len() as u64;
    if place >= limit {
        return Ok(Answer::Refused(Code::LimitsExceeded));
    }
    queue.push(path)?;
    Ok(Answer::Place(place as u32))
}

/// Says whether a caller may present a path.
fn may_present(who: &Who, path: &HostPath) -> bool
    ensures { result ≡ may_present who.now path.now }
{
    match who {
        Who::Host => true,
        Who::App(app) => path.in_folder_of(app),
    }
}
