//! Where a seat asks that waits for nobody.

ghost use Rattle.portal_desk.specs.Knowing.{Known};
ghost use Rattle.portal_desk.specs.Trying.{Attempts, CountsBusy};

use portal_model::asked::Asked;
use portal_model::request::Request;
use std::alloc::Global;

/// The place of one seat at a portal, where it asks and waits for nobody.
///
/// Contracts see what they see of a [`Desk`](crate::Desk), and how often it
/// answered that it is busy.
pub trait TryDesk {
    ghost use Rattle.std.specs.Prelude.{◌≡◌, ℕ};
    ghost use Rattle.portal_desk.specs.Knowing.{Known};
    ghost use Rattle.portal_desk.specs.Trying.{Attempts, CountsBusy};
    ghost use Rattle.portal_model.specs.Seated.{Seated};

    /// What the seat knows.
    ghost seated: { Self → Seated };

    /// How many of its answers were `Busy`.
    ghost busy: { Self → ℕ };

    /// What a kind of desk says of a state of it and a later one.
    ghost goes: { Self → Self → Type 0 };

    /// Asks a request of the seat.
    ///
    /// `Answered` and `Refused` are what a desk that waits answers. `Busy` is
    /// counted: then nothing was asked, the seat's own entries are as before,
    /// and the request is handed back.
    fn try_ask(&mut self, alloc: Global, request: Request) -> Asked
        ensures attempts { Attempts (seated self.old) request result (seated self.new) }
        ensures counts { CountsBusy (busy self.old) result (busy self.new) }
        ensures goes { goes self.old self.new };

    /// What is true at each moment: a legal history is seen, that began in an
    /// opening state, and the seat's own entries are those of the seat in it.
    fn known(&self)
        ensures { Known (seated self.now) };

    /// Each state goes to itself.
    ghost stands: { (d : Self) → goes d d };

    /// Where one goes to a second and that to a third, the first goes to the
    /// third.
    ghost follows: { (d e f : Self) → goes d e → goes e f → goes d f };
}
