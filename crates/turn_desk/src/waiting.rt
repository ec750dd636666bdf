//! A seat that waits, as a desk.

ghost use Rattle.std.specs.Prelude.{◌≡◌};

use crate::seats::Seat;
use once_desk::OnceDesk;
use portal_core::storied::Storied;
use portal_desk::Desk;
use portal_model::asked::Asked;
use portal_model::reply::{Refused, Reply};
use portal_model::request::Request;
use std::alloc::Global;
use std::marker::Model;
use std::sync::Wait;

/// A seat that waits while another holds the turn, and asks again until it has
/// an answer; or that asks once, and hands the request back behind the wait.
///
/// Contracts see it as its seat.
#[derive(Drop)]
pub struct WaitingSeat<'a, R, S: Storied> {
    rt: &'a R,
    seat: Seat<'a, S>,
}

impl<'a, R, S: Storied> Model for WaitingSeat<'a, R, S> {
    ghost use Rattle.dbus_types.specs.contracts.types.Value as e;
    ghost use Rattle.std.specs.Coded.{codes};
    ghost use Rattle.turn_desk.specs.Sights.{Sight};

    ghost Value = { Sight };

    ghost coded = { Prim.hlevel (codes, e.the_row.coded) };

    ghost view = { λ w. w.seat };
}

impl<'a, S: Storied> Seat<'a, S> {
    /// The seat as a desk, whose `ask` may wait. This call waits for nobody.
    pub fn waiting<R>(self, rt: &'a R) -> WaitingSeat<'a, R, S>
        ensures { result ≡ self.entry }
    {
        WaitingSeat { rt, seat: self }
    }
}

impl<'a, R, S: Storied> WaitingSeat<'a, R, S> {
    /// The seat again. It waits for nobody.
    pub fn seat(self) -> Seat<'a, S>
        ensures { result ≡ self.entry }
    {
        let WaitingSeat { rt: _, seat } = self;
        seat
    }
}

impl<'a, R: Wait, S: Storied> Desk for WaitingSeat<'a, R, S> {
    ghost use Rattle.turn_desk.specs.Sights.{Stays, seated_of};
    ghost use Rattle.turn_desk.specs.Staying.{stays_put, stays_further};

    ghost seated = { seated_of };

    // It is the same seat of the same turn.
    ghost goes = { Stays };

    fn ask(&mut self, alloc: Global, request: Request) -> Result<Reply, Refused> {
        let mut request = request;
        for _ in self.rt.forever() {
            match self.seat.try_ask(alloc, request) {
                Asked::Answered(reply) => return Ok(reply),
                Asked::Busy {
                    holder: _,
                    request: again,
                } => request = again,
                Asked::Refused(refused) => return Err(refused),
            }
            // Another held the turn as it was asked for.
            self.seat.wait_for_turn(self.rt);
        }
        unreachable!()
    }

    fn known(&self) {
        self.seat.known();
    }

    ghost stands = { stays_put };

    ghost follows = { stays_further };
}

impl<'a, R: Wait, S: Storied> OnceDesk for WaitingSeat<'a, R, S> {
    ghost busy = { λ w. w.knows.losses };

    fn ask_once(&mut self, alloc: Global, request: Request) -> Asked {
        let asked = self.seat.try_ask(alloc, request);
        if let Asked::Busy { .. } = &asked {
            // Another held the turn as it was asked for.
            self.seat.wait_for_turn(self.rt);
        }
        asked
    }
}
