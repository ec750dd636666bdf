//! Serving a connection poll by poll, over ends that wait themselves.

ghost use Rattle.std.specs.Prelude.{◌≡◌, Bool, false};
ghost use Rattle.futures.specs.Poll.{IfReady};
ghost use Rattle.poll_ends.specs.Outside.{faults_alone, flat};
ghost use Rattle.poll_laws.specs.Courses.{sight, standing};
ghost use Rattle.poll_laws.specs.Polls.{Polls};
ghost use Rattle.portal_desk.specs.Knowing.{Known};
ghost use Rattle.portal_model.specs.Seated.{is_open, state_seen};
ghost use Rattle.session.specs.Ledger.{world};
ghost use Rattle.session.specs.Pumps.{spring};
ghost use Rattle.worker_gate.specs.Polled.{ServesPolled};

use crate::listener::Link;
use futures::Future;
use futures::task::{Poll, Solo};
use poll_ends::prompt::{PromptSink, PromptSource};
use poll_session::poll_session::{Parts, PollSession};
use portal_base::outside::{Sink, Source};
use portal_desk::TryDesk;
use session::act::Client;
use session::served::Served;
use std::alloc::Global;
use std::sync::Wait;

/// How a connection ended that was polled, and its desk and its link again.
#[derive(Drop)]
pub struct PolledEnd<D, S, K> {
    /// How it ended.
    pub served: Served,
    /// The desk.
    pub desk: D,
    /// The link.
    pub link: Link<S, K>,
}

/// Serves one connection from Enter to Leave, poll by poll, as this task, which stays for the
/// next one.
///
/// A poll that is pending asks to be polled again, since neither end says "not yet": so nothing
/// is waited for between two polls. The desk's seat has no open connection.
pub fn serve_polled<R: Wait, D: TryDesk + Drop, S: Source + Drop, K: Sink + Drop>(
    alloc: Global,
    rt: &R,
    task: &Solo,
    client: Client,
    desk: D,
    link: Link<S, K>,
) -> PolledEnd<D, S, K>
    requires { is_open (state_seen (D.seated desk)) (D.seated desk).seat ≡ false }
    // What the ending means, in bytes: which items were read, asked and answered.
    ensures serves { ServesPolled client result.served
        (spring (S.left link.source) (S.faults link.source))
        (spring (S.left result.link.source) (S.faults result.link.source))
        (world (D.seated desk) (K.told link.sink) (K.faults link.sink))
        (world (D.seated result.desk) (K.told result.link.sink) (K.faults result.link.sink)) }
    // The desk's seat has no open connection then either.
    ensures closed_now { is_open (state_seen (D.seated result.desk)) (D.seated result.desk).seat
        ≡ false }
    // The history that the desk sees is legal from an opening state, and the seat's entries in it
    // are its own.
    ensures known { Known (D.seated result.desk) }
    ensures goes { D.goes desk result.desk }
{
    let Client {
        who,
        kind,
        settings,
    } = client;
    let Link { source, sink } = link;
    let source = PromptSource { source };
    let sink = PromptSink { sink };
    let mut session = PollSession::new(alloc, desk, who, kind, settings, source, sink);
    'polls: for _ in rt.forever() {
        if let Poll::Ready(served) = poll_once(task, &mut session) {
            return ended(served, session.into_parts());
        }
    }
    unreachable!()
}

/// One poll. Whatever it answers, its task stays, and may be polled again at once.
fn poll_once<D: TryDesk + Drop, S: Source + Drop, K: Sink + Drop>(
    task: &Solo,
    session: &mut PollSession<D, PromptSource<S>, PromptSink<K>>,
) -> Poll<Served>
    ensures polls { (yields : Bool) × Polls result (standing session.old.course)
        (sight (D.seated session.old.desk) (D.busy session.old.desk)
        (S.left session.old.source.source) (faults_alone (S.faults session.old.source.source))
        (flat (K.told session.old.sink.sink)) (faults_alone (K.faults session.old.sink.sink)))
        (standing session.new.course)
        (sight (D.seated session.new.desk) (D.busy session.new.desk)
        (S.left session.new.source.source) (faults_alone (S.faults session.new.source.source))
        (flat (K.told session.new.sink.sink)) (faults_alone (K.faults session.new.sink.sink)))
        yields }
    ensures closed_now { IfReady result (λ _. is_open (state_seen (D.seated session.new.desk))
        (D.seated session.new.desk).seat ≡ false) }
    ensures known { Known (D.seated session.new.desk) }
    ensures goes { D.goes session.old.desk session.new.desk }
{
    let mut context = task.begin();
    let polled = session.poll(&mut context);
    // So the task isn't ended where the connection is: the next link's is polled as the same.
    let _ = context.yield_now::<()>();
    context.park();
    polled
}

/// What a session was made of, as it came.
fn ended<D, S, K>(
    served: Served,
    parts: Parts<D, PromptSource<S>, PromptSink<K>>,
) -> PolledEnd<D, S, K>
    ensures served { result.served ≡ served }
    ensures desk { result.desk ≡ parts.desk }
    ensures source { result.link.source ≡ parts.source.source }
    ensures sink { result.link.sink ≡ parts.sink.sink }
{
    let Parts { desk, source, sink } = parts;
    let PromptSource { source } = source;
    let PromptSink { sink } = sink;
    PolledEnd {
        served,
        desk,
        link: Link { source, sink },
    }
}
