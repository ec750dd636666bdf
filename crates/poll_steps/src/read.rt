//! Reading what a client sends.

ghost use Rattle.std.specs.Prelude.{◌≡◌, ◌≤◌, length, List, Option, ℕ};
ghost use Rattle.futures.specs.Task.{IsArmed, Keeps};
ghost use Rattle.poll_ends.specs.Outside.{Counts};
ghost use Rattle.poll_laws.specs.Courses.{sight, standing};
ghost use Rattle.poll_laws.specs.Polls.{IsIdle};
ghost use Rattle.poll_laws.specs.declared.course.Turn.TheVariants as turn;
ghost use Rattle.poll_steps.specs.Steps.{Holds, IfTakenWaits, Takes};
ghost use Rattle.portal_model.specs.Seated.{Seated};
ghost use Rattle.session.specs.Pumps.{longest_piece};

use crate::meet::meet;
use futures::task::Context;
use poll_ends::outside::{PollRead, PollSource};
use poll_laws::course::Course;
use session::parts::front;
use session::served::{Fed, Served};
use session::session::{LONGEST_STREAM, ending};

/// What a read came to.
#[derive(Clone, Copy)]
pub enum Taken {
    /// So many bytes came.
    Got(usize),
    /// Nothing came yet.
    NotYet,
    /// The connection ends here.
    Met,
}

/// Reads the next bytes.
///
/// No whole item is left, and nothing is unsent.
pub fn take_piece<S: PollSource>(
    course: &mut Course,
    buffer: &mut [u8],
    source: &mut S,
    context: &mut Context<'_>,
) -> Taken
    requires serves { course.old.turn ≡ turn.Serve }
    requires idle { IsIdle (standing course.old) }
    requires long { length buffer.old ≡ longest_piece }
    ensures takes { (seated : Seated) (busy : ℕ) (told : Option (List ℕ)) (writing : Counts)
        → Takes result (standing course.old)
        (sight seated busy (S.left source.old) (S.counts source.old) told writing)
        (standing course.new)
        (sight seated busy (S.left source.new) (S.counts source.new) told writing) }
    ensures client { course.new.client ≡ course.old.client }
    ensures long { length buffer.new ≡ longest_piece }
    ensures registered { IfTakenWaits result (IsArmed context.new) }
    ensures kept { Keeps context.old context.new }
{
    match source.poll_read(context, buffer) {
        PollRead::Got(len) => hold(course, front(buffer, len)),
        PollRead::End => {
            let ended = ending(Fed::More, course.left.as_slice());
            meet(course, ended);
            Taken::Met
        }
        PollRead::NotYet => Taken::NotYet,
        PollRead::Failed => {
            meet(course, Served::ReadFault);
            Taken::Met
        }
    }
}

/// Holds a piece behind what is left, where the connection may have as many bytes.
fn hold(course: &mut Course, piece: &[u8]) -> Taken
    ensures { Holds result (standing course.old) piece.now (standing course.new) }
{
    let room = LONGEST_STREAM - course.before - course.left.len() as u64;
    // This comes ahead of want of memory.
    if piece.len() as u64 > room {
        meet(course, Served::Spent);
        return Taken::Met;
    }
    match course.left.extend_from_slice(piece) {
        Ok(()) => Taken::Got(piece.len()),
        Err(_) => {
            meet(course, Served::Memory);
            Taken::Met
        }
    }
}
