//! How a connection meets its ending.

ghost use Rattle.std.specs.Prelude.{◌≡◌};
ghost use Rattle.poll_laws.specs.Courses.{standing};
ghost use Rattle.poll_laws.specs.declared.course.Turn.TheVariants as turn;
ghost use Rattle.poll_steps.specs.Steps.{turned};

use poll_laws::course::{Course, Turn};
use session::served::Served;

/// An ending is met, and Leave is due.
pub fn meet(course: &mut Course, ending: Served)
    ensures { standing course.new ≡ turned (standing course.old) (turn.Leave ending) }
{
    course.turn = Turn::Leave(ending);
}

/// The connection is over: there is none to leave.
pub fn close(course: &mut Course, ending: Served)
    ensures { standing course.new ≡ turned (standing course.old) (turn.Over ending) }
{
    course.turn = Turn::Over(ending);
}
