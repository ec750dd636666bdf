//! A connection that is served poll by poll.

ghost use Rattle.std.specs.Prelude.{◌≡◌, false, vec_len};
ghost use Rattle.futures.specs.Task.{IsArmed};
ghost use Rattle.poll_laws.specs.Courses.{Fits, IsFresh, fresh, standing};
ghost use Rattle.poll_laws.specs.declared.course.Turn.TheVariants as turn;
ghost use Rattle.poll_session.specs.Stages.{IsAnswer};
ghost use Rattle.portal_model.specs.Seated.{is_open, state_seen};
ghost use Rattle.session.specs.Standings.{client as the_client};

use crate::stages::{attend_if_due, enter_if_due, leave_if_due};
use bytes::BytesMut;
use futures::Future;
use futures::task::{Context, Poll};
use poll_ends::outside::{PollSink, PollSource};
use poll_laws::course::{Course, Turn};
use portal_base::limits::Settings;
use portal_base::who::{Kind, Who};
use portal_desk::TryDesk;
use session::act::Client;
use session::phase::first_phase;
use session::room::Room;
use session::serve::Stage;
use session::served::Served;
use std::alloc::Global;

/// One connection of a client, served as its source and its sink allow. It holds no
/// thread while it waits.
///
/// Contracts see its desk, its source and its sink, how far it has come (`course`),
/// and what is true of these at each moment.
#[derive(Drop)]
pub struct PollSession<D: TryDesk, S, K> {
    alloc: Global,
    pub(crate) desk: D,
    pub(crate) source: S,
    pub(crate) sink: K,
    pub(crate) course: Course,
    buffer: Vec<u8>,
    // The seat has a connection while its items are served, and until Leave is asked.
    ghost fits: { Fits course.turn (D.seated desk) },
    // Before Enter nothing came, and nothing is unsent.
    ghost begins: { course.turn ≡ turn.Enter → IsFresh (standing course) },
    // A piece has room.
    ghost long: { course.turn ≡ turn.Serve → vec_len buffer ≡ 262144 },
}

/// What a session was made of.
#[derive(Drop)]
pub struct Parts<D, S, K> {
    /// The desk.
    pub desk: D,
    /// The source.
    pub source: S,
    /// The sink.
    pub sink: K,
}

impl<D: TryDesk, S, K> PollSession<D, S, K> {
    /// A connection of a client at a desk, ahead of everything. It takes no memory.
    ///
    /// The desk's seat has no open connection.
    pub fn new(
        alloc: Global,
        desk: D,
        who: Who,
        kind: Kind,
        settings: Settings,
        source: S,
        sink: K,
    ) -> PollSession<D, S, K>
        requires { is_open (state_seen (D.seated desk)) (D.seated desk).seat ≡ false }
        ensures parts { (result.desk ≡ desk) × (result.source ≡ source) × (result.sink ≡ sink) }
        ensures course { standing result.course ≡ fresh (the_client who kind settings) }
    {
        PollSession {
            alloc,
            desk,
            source,
            sink,
            course: Course {
                client: Client {
                    who,
                    kind,
                    settings,
                },
                stage: Stage {
                    phase: first_phase(kind),
                    serial: 0,
                },
                turn: Turn::Enter,
                before: 0,
                left: BytesMut::new(alloc),
                unsent: BytesMut::new(alloc),
                room: Room::new(alloc),
            },
            buffer: Vec::new(alloc),
        }
    }

    /// The desk, the source and the sink again, once the connection is over.
    pub fn into_parts(self) -> Parts<D, S, K>
        requires { (ending : Served) × (self.course.turn ≡ turn.Over ending) }
        ensures parts { (result.desk ≡ self.desk) × (result.source ≡ self.source)
            × (result.sink ≡ self.sink) }
    {
        let PollSession {
            alloc: _,
            desk,
            source,
            sink,
            course: _,
            buffer: _,
        } = self;
        Parts { desk, source, sink }
    }
}

impl<D: TryDesk + Drop, S: PollSource + Drop, K: PollSink + Drop> Future for PollSession<D, S, K> {
    ghost use Rattle.futures.specs.Task.{Covers, Keeps};
    ghost use Rattle.std.specs.Prelude.{◌≡◌, false};
    ghost use Rattle.futures.specs.Poll.{IfReady, OnPending};
    ghost use Rattle.portal_model.specs.Seated.{is_open, state_seen};
    ghost use Rattle.poll_laws.specs.Courses.{sight};
    ghost use Rattle.portal_desk.specs.Knowing.{Known};
    ghost use Rattle.poll_laws.specs.Polls.{Polls};

    type Output = Served;

    /// Serves the connection as far as it goes without waiting. Once it is over the same
    /// ending is answered again.
    fn poll(&mut self, context: &mut Context<'_>) -> Poll<Served>
        ensures polls { Polls result (standing self.old.course)
            (sight (D.seated self.old.desk) (D.busy self.old.desk) (S.left self.old.source)
            (S.counts self.old.source) (K.told self.old.sink) (K.counts self.old.sink))
            (standing self.new.course)
            (sight (D.seated self.new.desk) (D.busy self.new.desk) (S.left self.new.source)
            (S.counts self.new.source) (K.told self.new.sink) (K.counts self.new.sink))
            context.new.is_woken }
        // Once it is over the desk's seat has no open connection.
        ensures closed_now { IfReady result (λ _. is_open (state_seen (D.seated self.new.desk))
            (D.seated self.new.desk).seat ≡ false) }
        // The history that the desk sees is legal from an opening state, and the seat's entries
        // in it are its own.
        ensures known { Known (D.seated self.new.desk) }
        ensures goes { D.goes self.old.desk self.new.desk }
        ensures registered { OnPending result (Covers context.new (λ s. ⊥)) }
        ensures kept { Keeps context.old context.new }
    {
        let alloc = self.alloc;
        enter_if_due(
            alloc,
            &mut self.course,
            &mut self.buffer,
            &mut self.desk,
            context,
        );
        attend_if_due(
            alloc,
            &mut self.course,
            &mut self.buffer,
            &mut self.desk,
            &mut self.source,
            &mut self.sink,
            context,
        );
        leave_if_due(alloc, &mut self.course, &mut self.desk, context);
        self.desk.known();
        answer_of(self.course.turn)
    }
}

/// What a poll answers behind which this is due.
fn answer_of(turn: Turn) -> Poll<Served>
    ensures { IsAnswer result turn }
{
    match turn {
        Turn::Over(ending) => Poll::Ready(ending),
        _ => Poll::Pending,
    }
}
