//! Asking once at a desk that waits.

ghost use Rattle.portal_desk.specs.Trying.{Attempts, CountsBusy};

use portal_desk::Desk;
use portal_model::asked::Asked;
use portal_model::request::Request;
use std::alloc::Global;

/// A desk that may also be asked once, so that who asks may do something else
/// before it asks again.
///
/// Contracts see what they see of the [`Desk`], and how often it answered that it is
/// busy.
pub trait OnceDesk: Desk {
    ghost use Rattle.std.specs.Prelude.{◌≡◌, ℕ};
    ghost use Rattle.portal_desk.specs.Trying.{Attempts, CountsBusy};

    /// How many of its answers were `Busy`.
    ghost busy: { Self → ℕ };

    /// Asks a request of the seat once.
    ///
    /// `Answered` and `Refused` are what `ask` answers. `Busy` is counted: then nothing
    /// was asked, the seat's own entries are as before, and the request is handed back.
    /// It may wait a while before it answers so.
    fn ask_once(&mut self, alloc: Global, request: Request) -> Asked
        ensures attempts { Attempts (Self.seated self.old) request result (Self.seated self.new) }
        ensures counts { CountsBusy (busy self.old) result (busy self.new) }
        ensures goes { Self.goes self.old self.new };
}
