//! The stages of a poll: Enter, the items, Leave. Each does nothing where another is
//! due.

ghost use Rattle.std.specs.Prelude.{◌≡◌, List, Option, ℕ, true, vec_len};
ghost use Rattle.futures.specs.Task.{IsArmed, Keeps};
ghost use Rattle.poll_ends.specs.Outside.{Counts};
ghost use Rattle.poll_laws.specs.Courses.{Fits, Sight, Standing, fresh, sight, standing};
ghost use Rattle.poll_laws.specs.declared.course.Turn.TheVariants as turn;
ghost use Rattle.poll_session.specs.Stages.{AfterEnter, AfterItems, AfterLeave};
ghost use Rattle.poll_session.specs.Stages.{OwesAfterEnter, OwesAfterItems, OwesAfterLeave};
ghost use Rattle.session.specs.Pumps.{longest_piece};

use crate::serve::attend;
use futures::task::Context;
use poll_ends::outside::{PollSink, PollSource};
use poll_laws::course::{Course, Turn};
use poll_steps::ask::{enter, leave};
use poll_steps::meet::close;
use portal_desk::TryDesk;
use session::served::Served;
use std::alloc::Global;

/// How many bytes are asked of the source at a time.
const LONGEST_PIECE: usize = 262_144;

/// Makes room for a piece, and says whether there was memory.
fn make_room(buffer: &mut Vec<u8>) -> bool
    ensures { result ≡ true → vec_len buffer.new ≡ longest_piece }
{
    buffer.resize(LONGEST_PIECE, 0).is_ok()
}

/// Asks Enter where it is due, once there is room for a piece.
pub fn enter_if_due<D: TryDesk>(
    alloc: Global,
    course: &mut Course,
    buffer: &mut Vec<u8>,
    desk: &mut D,
    context: &mut Context<'_>,
)
    requires begins { course.old.turn ≡ turn.Enter
        → standing course.old ≡ fresh course.old.client }
    requires fits { Fits course.old.turn (D.seated desk.old) }
    ensures entered { (left : Option (List ℕ)) (reading : Counts) (told : Option (List ℕ))
        (writing : Counts) → AfterEnter (standing course.old)
        (sight (D.seated desk.old) (D.busy desk.old) left reading told writing)
        (standing course.new)
        (sight (D.seated desk.new) (D.busy desk.new) left reading told writing)
        context.new.is_woken }
    ensures fits_still { Fits course.new.turn (D.seated desk.new) }
    ensures begins_still { course.new.turn ≡ turn.Enter
        → standing course.new ≡ fresh course.new.client }
    ensures long { (course.old.turn ≡ turn.Serve → vec_len buffer.old ≡ longest_piece)
        → course.new.turn ≡ turn.Serve → vec_len buffer.new ≡ longest_piece }
    ensures registered { OwesAfterEnter course.new.turn (IsArmed context.new) }
    ensures kept { Keeps context.old context.new }
    ensures goes { D.goes desk.old desk.new }
{
    let Turn::Enter = course.turn else {
        return;
    };
    if !make_room(buffer) {
        close(course, Served::Memory);
        return;
    }
    enter(alloc, course, desk, context);
}

/// Serves what comes, where items are due.
pub fn attend_if_due<D: TryDesk, S: PollSource, K: PollSink>(
    alloc: Global,
    course: &mut Course,
    buffer: &mut Vec<u8>,
    desk: &mut D,
    source: &mut S,
    sink: &mut K,
    context: &mut Context<'_>,
)
    requires long { course.old.turn ≡ turn.Serve → vec_len buffer.old ≡ longest_piece }
    ensures attended { (s : Standing) (v : Sight) → AfterEnter s v (standing course.old)
        (sight (D.seated desk.old) (D.busy desk.old) (S.left source.old) (S.counts source.old)
        (K.told sink.old) (K.counts sink.old)) context.old.is_woken
        → AfterItems s v (standing course.new)
        (sight (D.seated desk.new) (D.busy desk.new) (S.left source.new) (S.counts source.new)
        (K.told sink.new) (K.counts sink.new)) context.new.is_woken }
    ensures fits_still { Fits course.old.turn (D.seated desk.old)
        → Fits course.new.turn (D.seated desk.new) }
    ensures begins_still { course.new.turn ≡ turn.Enter
        → (standing course.new ≡ standing course.old) }
    ensures long_still { course.new.turn ≡ turn.Serve → vec_len buffer.new ≡ longest_piece }
    ensures registered { OwesAfterEnter course.old.turn (IsArmed context.old)
        → OwesAfterItems course.new.turn (IsArmed context.new) }
    ensures kept { Keeps context.old context.new }
    ensures goes { D.goes desk.old desk.new }
{
    let Turn::Serve = course.turn else {
        return;
    };
    desk.known();
    attend(alloc, course, buffer, desk, source, sink, context);
    desk.known();
}

/// Asks Leave where it is due.
pub fn leave_if_due<D: TryDesk>(
    alloc: Global,
    course: &mut Course,
    desk: &mut D,
    context: &mut Context<'_>,
)
    requires fits { Fits course.old.turn (D.seated desk.old) }
    ensures left { (s : Standing) (v : Sight) (left : Option (List ℕ)) (reading : Counts)
        (told : Option (List ℕ)) (writing : Counts) → AfterItems s v (standing course.old)
        (sight (D.seated desk.old) (D.busy desk.old) left reading told writing)
        context.old.is_woken
        → AfterLeave s v (standing course.new)
        (sight (D.seated desk.new) (D.busy desk.new) left reading told writing)
        context.new.is_woken }
    ensures fits_still { Fits course.new.turn (D.seated desk.new) }
    ensures begins_still { course.new.turn ≡ turn.Enter
        → (standing course.new ≡ standing course.old) }
    ensures serves_still { course.new.turn ≡ turn.Serve → course.old.turn ≡ turn.Serve }
    ensures registered { OwesAfterItems course.old.turn (IsArmed context.old)
        → OwesAfterLeave course.new.turn (IsArmed context.new) }
    ensures kept { Keeps context.old context.new }
    ensures goes { D.goes desk.old desk.new }
{
    let Turn::Leave(ending) = course.turn else {
        return;
    };
    leave(alloc, course, ending, desk, context);
}
