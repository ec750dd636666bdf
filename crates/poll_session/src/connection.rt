//! A connection that is polled to its end, and then gives what it was made of.

ghost use Rattle.std.specs.Prelude.{◌≡◌, Some};

use crate::poll_session::{Parts, PollSession};
use futures::Future;
use futures::task::{Context, Poll};
use poll_ends::outside::{PollSink, PollSource};
use portal_desk::TryDesk;
use session::served::Served;

/// How a connection ended, and what it was made of.
#[derive(Drop)]
pub struct Ended<D, S, K> {
    /// How it ended.
    pub served: Served,
    /// What it was made of.
    pub parts: Parts<D, S, K>,
}

/// A connection that is served poll by poll until it is over, and then gives its parts
/// back.
///
/// Contracts see the session. There is none any more once it has given them.
#[derive(Drop)]
pub struct PollConnection<D: TryDesk, S, K> {
    pub(crate) session: Option<PollSession<D, S, K>>,
}

impl<D: TryDesk, S, K> PollConnection<D, S, K> {
    /// The connection of a session. It takes no memory.
    pub fn new(session: PollSession<D, S, K>) -> PollConnection<D, S, K>
        ensures { result.session ≡ Some session }
    {
        PollConnection {
            session: Some(session),
        }
    }
}

impl<D: TryDesk + Drop, S: PollSource + Drop, K: PollSink + Drop> Future
    for PollConnection<D, S, K> {
    ghost use Rattle.std.specs.Prelude.{IfSome, IsSome};
    ghost use Rattle.futures.specs.Task.{Covers, Keeps};
    ghost use Rattle.futures.specs.Poll.{IfReady, OnPending};
    ghost use Rattle.poll_laws.specs.Courses.{sight, standing};
    ghost use Rattle.poll_laws.specs.Laws.{Comes};

    type Output = Ended<D, S, K>;

    ghost can_poll = { λ c. IsSome c.session };

    // What polls in a row do, from the session as it is until it is over.
    ghost gives = { λ c ended. IfSome c.session (λ s.
        Comes (standing s.course)
        (sight (D.seated s.desk) (D.busy s.desk) (S.left s.source) (S.counts s.source)
        (K.told s.sink) (K.counts s.sink))
        ended.served
        (sight (D.seated ended.parts.desk) (D.busy ended.parts.desk) (S.left ended.parts.source)
        (S.counts ended.parts.source) (K.told ended.parts.sink) (K.counts ended.parts.sink))
        × D.goes s.desk ended.parts.desk) };

    fn poll(&mut self, context: &mut Context<'_>) -> Poll<Ended<D, S, K>> {
        let Some(mut session) = self.session.take() else {
            return context.yield_now();
        };
        match session.poll(context) {
            Poll::Ready(served) => Poll::Ready(Ended {
                served,
                parts: session.into_parts(),
            }),
            Poll::Pending => {
                self.session = Some(session);
                Poll::Pending
            }
        }
    }
}
