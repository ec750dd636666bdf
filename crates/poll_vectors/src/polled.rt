//! Connections that are polled.

ghost use Rattle.std.specs.Prelude.{◌≡◌, [], IfOk, IsSome, false};
ghost use Rattle.portal_model.specs.Seated.{is_open, state_seen};

use crate::client::{Line, SCRIPT, client_of, limits_for};
use crate::log::Log;
use crate::outside::{ShyDesk, StepSink, StepSource};
use crate::served::{Came, Half};
use futures::Future;
use futures::task::Poll;
use futures::test::MockTask;
use poll_session::connection::{Ended, PollConnection};
use poll_session::poll_session::{Parts, PollSession};
use portal_base::list::List;
use portal_core::local_desk::LocalDesk;
use portal_core::storied::Storied;
use portal_desk::TryDesk;
use portal_lines::opened_by;
use session::act::Client;
use std::alloc::Global;
use std::cell::Cell;
use vector_lines::error::{VectorError, bad};

/// More polls than a line's connections have.
const MOST_POLLS: u32 = 100_000;

/// A connection that is polled.
pub type Connection<'a, D> = PollConnection<ShyDesk<D>, StepSource<'a>, StepSink<'a>>;

/// What one is made of, once it is over.
pub type End<'a, D> = Ended<ShyDesk<D>, StepSource<'a>, StepSink<'a>>;

/// What the connection of a line comes to, polled. Each poll that is pending is put to a
/// log.
pub fn polled(
    task: &MockTask,
    alloc: Global,
    line: &Line<'_>,
    log: &mut Log<'_>,
) -> Result<Came, VectorError> {
    match opened_by(alloc, SCRIPT, limits_for(line)) {
        Ok(portal) => polled_over(task, alloc, portal, line, log),
        Err(error) => Err(error),
    }
}

/// The same over a portal that has no connection yet.
#[tactic(auto, using(crate::proofs::Closed::none_open))]
fn polled_over<S: Storied + Drop>(
    task: &MockTask,
    alloc: Global,
    portal: S,
    line: &Line<'_>,
    log: &mut Log<'_>,
) -> Result<Came, VectorError>
    requires { S.entries portal ≡ [] }
{
    portal.known();
    let mut portal = portal;
    let half = polled_at(task, alloc, LocalDesk::new(&mut portal, 1), line, log);
    let entries = portal.entry_count();
    drop(portal);
    Ok(Came {
        half: half?,
        entries,
    })
}

/// The same at a desk.
fn polled_at<D: TryDesk + Drop>(
    task: &MockTask,
    alloc: Global,
    desk: D,
    line: &Line<'_>,
    log: &mut Log<'_>,
) -> Result<Half, VectorError>
    requires { is_open (state_seen (D.seated desk)) (D.seated desk).seat ≡ false }
{
    let connection = connect(alloc, desk, line, log.written)?;
    let ended = until_over(task, connection, log)?;
    Ok(half_of(ended))
}

/// The connection of a line at a desk.
pub fn connect<'a, D: TryDesk + Drop>(
    alloc: Global,
    desk: D,
    line: &Line<'a>,
    written: &'a Cell<u64>,
) -> Result<Connection<'a, D>, VectorError>
    requires { is_open (state_seen (D.seated desk)) (D.seated desk).seat ≡ false }
    ensures { IfOk result (λ c. IsSome c.session) }
{
    let client = client_of(alloc, line)?;
    Ok(connection_of(alloc, desk, client, line, written))
}

/// The same of its client.
fn connection_of<'a, D: TryDesk>(
    alloc: Global,
    desk: D,
    client: Client,
    line: &Line<'a>,
    written: &'a Cell<u64>,
) -> Connection<'a, D>
    requires { is_open (state_seen (D.seated desk)) (D.seated desk).seat ≡ false }
    ensures { IsSome result.session }
{
    let desk = ShyDesk {
        desk,
        every: line.manner.busy,
        tries: 0,
        busy: 0,
    };
    let source = StepSource {
        bytes: line.bytes,
        at: 0,
        steps: line.manner.reads,
        faults: 0,
        waits: 0,
    };
    let sink = StepSink {
        bytes: List::new(alloc),
        steps: line.manner.writes,
        written,
        faults: 0,
        waits: 0,
    };
    let Client {
        who,
        kind,
        settings,
    } = client;
    PollConnection::new(PollSession::new(alloc, desk, who, kind, settings, source, sink))
}

/// Polls a future until it is over, and puts each poll that is pending to a log.
pub fn until_over<F: Future>(
    task: &MockTask,
    future: F,
    log: &mut Log<'_>,
) -> Result<F::Output, VectorError>
    requires { F.can_poll future }
{
    let mut future = future;
    'polls: for _ in 0..MOST_POLLS {
        match task.poll(&mut future) {
            Poll::Ready(output) => return Ok(output),
            // Who is pending has its task polled again.
            Poll::Pending if task.is_woken() => log.put_pending(),
            Poll::Pending => return bad(),
        }
    }
    bad()
}

/// How a connection ended, and what was written on it.
pub fn half_of<D: TryDesk + Drop>(ended: End<'_, D>) -> Half {
    let Ended { served, parts } = ended;
    let Parts { desk, source, sink } = parts;
    drop(desk);
    drop(source);
    let StepSink { bytes, .. } = sink;
    Half {
        served,
        written: bytes,
    }
}
