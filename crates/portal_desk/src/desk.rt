//! Where a seat asks.

ghost use Rattle.portal_desk.specs.Knowing.{Known};
ghost use Rattle.portal_model.specs.Seated.{Asks};

use portal_model::reply::{Refused, Reply};
use portal_model::request::Request;
use std::alloc::Global;

/// The place of one seat at a portal.
///
/// Contracts see what the seat knows: its number, the history as far as it has
/// seen it, its own entries in it with the replies of their steps, and how many
/// of its requests were refused.
pub trait Desk {
    ghost use Rattle.std.specs.Prelude.{◌≡◌, ℕ};
    ghost use Rattle.portal_desk.specs.Knowing.{Known};
    ghost use Rattle.portal_model.specs.Seated.{Asks, Seated};

    /// What the seat knows.
    ghost seated: { Self → Seated };

    /// What a kind of desk says of a state of it and a later one.
    ghost goes: { Self → Self → Type 0 };

    /// Asks a request of the seat.
    ///
    /// A reply is that of one step of the sequential portal: the history that
    /// is seen begins with what was seen before and ends with this request,
    /// which alone is new of the seat's own. Over a tree that doesn't tell its
    /// files the reply is alike to the step's: another content may be read. A
    /// refusal is counted, and leaves the seat's own entries; `Full` comes only
    /// where the history that is seen and this request would cost more than
    /// the limit. The Leave of an open connection is never refused.
    fn ask(&mut self, alloc: Global, request: Request) -> Result<Reply, Refused>
        ensures asks { Asks (seated self.old) request result (seated self.new) }
        ensures goes { goes self.old self.new };

    /// What is true at each moment: a legal history is seen, that began in an
    /// opening state, and the seat's own entries are those of the seat in it.
    fn known(&self)
        ensures { Known (seated self.now) };

    /// Each state goes to itself.
    ghost stands: { (d : Self) → goes d d };

    /// Where one goes to a second and that to a third, the first goes to the
    /// third.
    ghost follows: { (d e f : Self) → goes d e → goes e f → goes d f };
}
