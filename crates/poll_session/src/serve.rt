//! Serving the items that come.

ghost use Rattle.std.specs.Prelude.{◌≡◌, length, true, false, List, Option, ℕ};
ghost use Rattle.futures.specs.Task.{IsArmed, Keeps};
ghost use Rattle.poll_ends.specs.Outside.{Counts};
ghost use Rattle.poll_laws.specs.Courses.{sight, standing};
ghost use Rattle.poll_laws.specs.declared.course.Turn.TheVariants as turn;
ghost use Rattle.poll_session.specs.Serving.{Attends, Serves};
ghost use Rattle.session.specs.Pumps.{longest_piece};

use futures::task::Context;
use poll_ends::outside::{PollSink, PollSource};
use poll_laws::course::Course;
use poll_steps::ask::{Next, ask_next};
use poll_steps::meet::meet;
use poll_steps::read::{Taken, take_piece};
use poll_steps::send::{Flushed, flush};
use portal_desk::TryDesk;
use session::served::Served;
use std::alloc::Global;

/// How many bytes are read in a poll, until it yields.
pub const MOST_READ: usize = 1_048_576;

/// Serves each whole item that was read: it is asked, and what answers it is sent,
/// ahead of the next one. Says whether more bytes are to be read: then no whole item
/// is left, and nothing is unsent.
fn serve_items<D: TryDesk, K: PollSink>(
    alloc: Global,
    course: &mut Course,
    desk: &mut D,
    sink: &mut K,
    context: &mut Context<'_>,
) -> bool
    requires { course.old.turn ≡ turn.Serve }
    ensures serves { (left : Option (List ℕ)) (reading : Counts) → Serves result
        (standing course.old)
        (sight (D.seated desk.old) (D.busy desk.old) left reading (K.told sink.old)
        (K.counts sink.old))
        (standing course.new)
        (sight (D.seated desk.new) (D.busy desk.new) left reading (K.told sink.new)
        (K.counts sink.new)) context.new.is_woken }
    ensures registered { result ≡ false → course.new.turn ≡ turn.Serve → IsArmed context.new }
    ensures kept { Keeps context.old context.new }
    ensures goes { D.goes desk.old desk.new }
{
    'items: loop {
        match flush(&mut course.unsent, sink, context) {
            Flushed::All => {}
            Flushed::NotYet => return false,
            Flushed::Failed => {
                meet(course, Served::WriteFault);
                return false;
            }
        }
        match ask_next(alloc, course, desk) {
            Next::Asked => {}
            Next::NoItem => return true,
            Next::Busy => {
                let _ = context.yield_now::<()>();
                return false;
            }
            Next::Met => return false,
        }
    }
}

/// Serves what comes until there is nothing more yet, or the connection ends.
pub fn attend<D: TryDesk, S: PollSource, K: PollSink>(
    alloc: Global,
    course: &mut Course,
    buffer: &mut [u8],
    desk: &mut D,
    source: &mut S,
    sink: &mut K,
    context: &mut Context<'_>,
)
    requires serves { course.old.turn ≡ turn.Serve }
    requires long { length buffer.old ≡ longest_piece }
    ensures attends { Attends (standing course.old)
        (sight (D.seated desk.old) (D.busy desk.old) (S.left source.old) (S.counts source.old)
        (K.told sink.old) (K.counts sink.old))
        (standing course.new)
        (sight (D.seated desk.new) (D.busy desk.new) (S.left source.new) (S.counts source.new)
        (K.told sink.new) (K.counts sink.new)) context.new.is_woken }
    ensures long_still { length buffer.new ≡ longest_piece }
    ensures registered { course.new.turn ≡ turn.Serve → IsArmed context.new }
    ensures kept { Keeps context.old context.new }
    ensures goes { D.goes desk.old desk.new }
{
    let mut read = 0;
    'pieces: loop {
        if !serve_items(alloc, course, desk, sink, context) {
            return;
        }
        if read >= MOST_READ {
            let _ = context.yield_now::<()>();
            return;
        }
        match take_piece(course, buffer, source, context) {
            Taken::Got(len) => read += len,
            Taken::NotYet => return,
            Taken::Met => return,
        }
    }
}
